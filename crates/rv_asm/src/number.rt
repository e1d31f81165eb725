//! Numbers as a text spells them.

ghost use Rattle.std.specs.Prelude.{◌≡◌, ◌≤◌, ◌%◌, ◌^◌};
ghost use Rattle.std.specs.Option.{option_and_then, option_map};
ghost use Rattle.rv_asm.specs.Numbers.{digit_of, below, digits_from, digits_of, kept, size_of, within, wrapped};

/// A number of any size. A size of 2^64 and above stands as 2^64.
#[derive(Clone, Copy)]
pub struct Number {
    pub negative: bool,
    pub size: u128,
}

const SIZE_LIMIT: u128 = 1 << 64;

/// What the digit counts, if it is below the base.
fn digit(base: u128, byte: u8) -> Option<u128>
    ensures { result ≡ option_and_then (below base) (digit_of byte) }
{
    let digit = match byte {
        b'0'..=b'9' => byte - b'0',
        b'a'..=b'f' => byte - 87,
        b'A'..=b'F' => byte - 55,
        _ => return None,
    } as u128;
    if digit < base { Some(digit) } else { None }
}

/// The number of these digits, but no more than 2^64.
fn digits(base: u128, text: &[u8]) -> Option<u128>
    requires low { 1 ≤ base }
    requires high { base ≤ 16 }
    ensures { result ≡ option_map kept (digits_of base text.now) }
{
    if text.is_empty() {
        return None;
    }
    let mut size = 0u128;
    for byte in text {
        size = (size * base + digit(base, *byte)?).min(SIZE_LIMIT);
    }
    Some(size)
}

/// The size of the number without its sign: decimal, or hexadecimal after `0x`.
#[tactic(auto, unfolding(crate::specs::Numbers::size_of))]
pub(crate) fn size(word: &[u8]) -> Option<u128>
    ensures { result ≡ size_of word.now }
{
    if word.starts_with(b"0x") {
        digits(16, &word[2..])
    } else {
        digits(10, word)
    }
}

impl Number {
    /// Whether the number is from -low to high.
    #[tactic(auto, unfolding(crate::specs::Numbers::within))]
    pub(crate) fn is_within(&self, low: u128, high: u128) -> bool
        ensures { result ≡ within low high self.now }
    {
        if self.negative {
            self.size <= low
        } else {
            self.size <= high
        }
    }

    /// The number, which is from -2^63 to 2^64 - 1, as 64 bits. Of another the low bits.
    #[tactic(auto, unfolding(crate::specs::Numbers::wrapped))]
    pub(crate) fn wrapped(&self) -> u64
        ensures { result ≡ wrapped self.now }
    {
        let low = self.size % SIZE_LIMIT;
        if self.negative {
            ((SIZE_LIMIT - low) % SIZE_LIMIT) as u64
        } else {
            low as u64
        }
    }

    /// The low 32 bits of the number.
    pub(crate) fn low_word(&self) -> u32
        ensures { result ≡ wrapped self.now % 2 ^ 32 }
    {
        (self.wrapped() % 0x1_0000_0000) as u32
    }
}
