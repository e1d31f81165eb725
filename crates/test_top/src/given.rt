//! A file that a case gives.

use hex::decode;
use outside::MemFiles;
use pn_types::NoMemory;
use std::alloc::Global;

/// A file of a case: its name, its bytes or that it is absent, and the readings that fail.
#[derive(Drop)]
pub struct Given {
    name: String,
    bytes: Option<Vec<u8>>,
    fails: Vec<u64>,
}

/// Returns the bytes of hexadecimal digits, or none where they are no such digits.
fn digits(alloc: Global, text: &str) -> Vec<u8> {
    match decode(alloc, text.as_bytes()) {
        Ok(bytes) => bytes,
        Err(_) => Vec::new(alloc),
    }
}

/// Returns a number and what stands after it.
fn numbered(rest: &str) -> (usize, &str) {
    match rest.split_once(' ') {
        Some((number, rest)) => (number.parse().unwrap_or(0), rest),
        None => (rest.parse().unwrap_or(0), ""),
    }
}

impl Given {
    /// Makes a file of this name without bytes, or one that is absent.
    ///
    /// # Errors
    ///
    /// `NoMemory` where memory runs out.
    pub fn new(alloc: Global, name: &str, is_there: bool) -> Result<Given, NoMemory> {
        Ok(Given {
            name: String::from_str(alloc, name)?,
            bytes: if is_there {
                Some(Vec::new(alloc))
            } else {
                None
            },
            fails: Vec::new(alloc),
        })
    }

    /// Makes a file of this name with these bytes.
    ///
    /// # Errors
    ///
    /// `NoMemory` where memory runs out.
    pub fn of(alloc: Global, name: &str, bytes: &[u8]) -> Result<Given, NoMemory> {
        Ok(Given {
            name: String::from_str(alloc, name)?,
            bytes: Some(Vec::from_slice(alloc, bytes)?),
            fails: Vec::new(alloc),
        })
    }

    /// Changes the file as a line says.
    ///
    /// # Errors
    ///
    /// `NoMemory` where memory runs out.
    pub fn change(&mut self, alloc: Global, word: &str, rest: &str) -> Result<(), NoMemory> {
        let (number, behind) = numbered(rest);
        if word == "fail" {
            return Ok(self.fails.push(number as u64)?);
        }
        let Some(bytes) = &mut self.bytes else {
            return Ok(());
        };
        match word {
            "|" => {
                bytes.extend_from_slice(rest.as_bytes())?;
                bytes.push(b'\n')?;
            }
            "hex" => bytes.extend_from_slice(&digits(alloc, rest))?,
            "fill" => {
                let piece = digits(alloc, behind);
                for _ in 0..number {
                    bytes.extend_from_slice(&piece)?;
                }
            }
            "cut" => bytes.truncate(number),
            "byte" => {
                for (place, byte) in digits(alloc, behind).iter().enumerate() {
                    if let Some(old) = bytes.get_mut(number.wrapping_add(place)) {
                        *old = *byte;
                    }
                }
            }
            _ => {}
        }
        Ok(())
    }

    /// Adds it to files in memory.
    ///
    /// # Errors
    ///
    /// `NoMemory` where memory runs out.
    pub fn give(&self, alloc: Global, files: &mut MemFiles) -> Result<(), NoMemory> {
        let bytes = match &self.bytes {
            Some(bytes) => Some(Vec::from_slice(alloc, bytes)?),
            None => None,
        };
        let fails = Vec::from_slice(alloc, &self.fails)?;
        files.give(alloc, self.name.as_str(), bytes, fails)
    }
}
