//! The ticks in ranges of addresses.

ghost use Rattle.std.specs.Prelude.{◌≡◌, ◌+◌, ◌*◌, ◌<◌, ◌^◌, if◌then◌else◌, length, sum};
ghost use Rattle.rv_word.specs.Memory.{in_range};
ghost use Rattle.word_flow.specs.Numbers.{sum_at};

/// Returns the number of the word at an address where that is one of the `len` addresses from `start` on, and else 0.
fn number_in_range(number: u64, address: u64, start: u64, len: u64) -> u64
    ensures { result ≡ (if in_range start len address then number else 0) }
{
    if start <= address && address - start < len {
        number
    } else {
        0
    }
}

/// Returns the ticks that numbers tell of the words in the `len` bytes from `start` on, as those of a procedure or a loop. The first
/// number is that of the word at `at`.
pub fn ticks_in(numbers: &[u64], at: u64, start: u64, len: u64) -> u64
    requires text { at + 4 * length numbers.now < 2 ^ 64 }
    requires few { sum numbers.now < 2 ^ 64 }
    ensures { result ≡ sum_at (in_range start len) numbers.now at }
{
    let mut total = 0;
    for place in 0..numbers.len() {
        total += number_in_range(numbers[place], at + 4 * place as u64, start, len);
    }
    total
}
