//! The names in a string table.

ghost use Rattle.std.specs.Prelude.{◌≡◌, ◌+◌, ◌≤◌, ◌==◌, not, ℕ, nat_lt, length, take, drop};
ghost use Rattle.std.specs.Str.{bytes_eq};
ghost use Rattle.std.specs.List.{prefix_len};
ghost use Rattle.elf_form.specs.Symbols.{is_ended, name_at, module_of};
ghost use Rattle.pn_types.specs.GoodNames.{program_module};

use crate::tables::part;
use pn_types::{PROGRAM_MODULE, is_good_name};

/// The greatest length of a good name in bytes.
const NAME_LIMIT: usize = 200;

/// Returns the place after the last zero byte of the strings: each name that begins before it is ended.
pub fn ended_len(strings: &[u8]) -> usize
    ensures { (at : ℕ) → is_ended strings.now at ≡ nat_lt at result }
{
    let mut end = strings.len();
    while end > 0 && strings[end - 1] != 0 {
        end -= 1;
    }
    end
}

/// How many bytes stand before the first zero byte, or in all.
fn name_len(bytes: &[u8]) -> usize
    ensures length { result ≡ prefix_len (λ byte. not (byte == 0)) bytes.now }
    ensures within { result ≤ length bytes.now }
{
    for (i, byte) in bytes.iter().enumerate() {
        if *byte == 0 {
            return i;
        }
    }
    bytes.len()
}

/// Returns the bytes of the strings from a place on, up to a zero byte.
pub fn name_at(strings: &[u8], at: usize) -> &[u8]
    ensures { result.now ≡ name_at strings.now at }
{
    let rest = &strings[strings.len().min(at)..];
    &rest[..name_len(rest)]
}

/// The module that a source file of this name gives.
fn module_of(name: &[u8]) -> &[u8]
    ensures { result.now ≡ module_of name.now }
{
    if is_good_name(name) {
        name
    } else {
        PROGRAM_MODULE
    }
}

/// The name at a place. Of a name that is too long it is only a front, which is too long too.
fn front_of_name(strings: &[u8], at: usize) -> &[u8]
    ensures { result.now ≡ name_at (take (NAME_LIMIT + 1) (drop at strings.now)) 0 }
{
    name_at(part(strings, at as u64, NAME_LIMIT as u64 + 1), 0)
}

/// Returns the module that the name of a source file at a place gives. No more of it is read than counts.
#[tactic(auto, using(crate::proofs::NameLemmas::cut_name))]
pub fn module_at(strings: &[u8], at: usize) -> &[u8]
    ensures { result.now ≡ module_of (name_at strings.now at) }
{
    module_of(front_of_name(strings, at))
}

/// Returns whether a module is that of all symbols that aren't local.
pub fn is_program(module: &[u8]) -> bool
    ensures { result ≡ bytes_eq «module».now program_module }
{
    module == PROGRAM_MODULE
}
