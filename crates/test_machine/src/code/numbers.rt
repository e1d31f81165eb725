//! The numbers of a line.

/// Three numbers, each 0 where it isn't there.
#[derive(Clone, Copy)]
pub struct Numbers {
    pub first: u64,
    pub second: u64,
    pub third: u64,
}

fn number(text: Option<&str>) -> u64 {
    match text {
        Some(digits) => u64::from_str_radix(digits, 16).unwrap_or(0),
        None => 0,
    }
}

impl Numbers {
    /// Reads three hexadecimal numbers. What isn't one counts as 0.
    pub fn of(first: Option<&str>, second: Option<&str>, third: Option<&str>) -> Numbers {
        Numbers {
            first: number(first),
            second: number(second),
            third: number(third),
        }
    }
}
