//! What a region is.

ghost use Rattle.std.specs.Prelude.{◌+◌, ◌≤◌, length, vec_capacity};
ghost use Rattle.rv_mem.specs.Quick.{IsQuick};

/// Addresses of one region, of which none is in the text and none in a region before it.
#[derive(Clone, Copy, Drop)]
pub struct Window {
    /// The first address.
    pub from: u64,
    /// The address after the last.
    pub to: u64,
}

/// A run of mapped bytes. Those behind the last that was written are 0, and there is room for them.
#[derive(Drop)]
pub struct Region {
    /// The first address.
    pub at: u64,
    /// The bytes from there on, up to the last that was written.
    pub bytes: Vec<u8>,
    /// How many zeros follow them.
    pub behind: usize,
    /// A window of it.
    pub window: Window,
    /// At how many addresses from the window's first on an access is quick: one of up to 8 bytes stays in the window and in `bytes`.
    pub quick_len: u64,
    ghost room: { length bytes.items + behind ≤ vec_capacity bytes },
    ghost quick: { IsQuick at (length bytes.items) window.from window.to quick_len },
}
