//! Tests of the other crates by their public calls alone. A crate with tests is proved twice, so they stand in one of their own.
#![tactic(auto)]

#[cfg(test)]
mod assembly;
#[cfg(test)]
mod comparison;
#[cfg(test)]
mod elf_files;
#[cfg(test)]
mod executions;
#[cfg(test)]
mod images;
#[cfg(test)]
mod memories;
#[cfg(test)]
mod outside_calls;
#[cfg(test)]
mod plan_texts;
#[cfg(test)]
mod points;
#[cfg(test)]
mod runs;
#[cfg(test)]
mod search_texts;
#[cfg(test)]
mod streams;
#[cfg(test)]
mod walks;
#[cfg(test)]
mod words;
#[cfg(test)]
mod writing;
