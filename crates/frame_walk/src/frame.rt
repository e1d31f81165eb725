//! The frames of a hart's stack.

ghost use Rattle.std.specs.Prelude.{◌≡◌};
ghost use Rattle.frame_walk.specs.Frames.{call_before, caller_of, doubleword, frame_at, is_text};

use rv_mem::Mem;
use rv_word::MemStop;

/// What a procedure keeps in the 16 bytes below its frame pointer.
#[derive(Clone, Copy, PartialEq, Eq, Drop)]
pub struct Frame {
    /// The address to which it returns, from the doubleword 8 below the frame pointer.
    pub return_address: u64,
    /// The frame pointer of its caller, from the doubleword 16 below.
    pub next: u64,
}

/// Whether an address is in the text.
pub fn is_text(mem: &Mem, at: u64) -> bool
    ensures { result ≡ is_text mem.now at }
{
    match mem.byte(at) {
        Err(MemStop::InText(_)) => true,
        _ => false,
    }
}

/// The doubleword at an address, if its bytes are mapped and outside the text.
fn doubleword(mem: &Mem, at: u64) -> Option<u64>
    ensures { result ≡ doubleword mem.now at }
{
    match mem.load(at, 8) {
        Ok(number) => Some(number),
        Err(_) => None,
    }
}

/// The frame at a frame pointer, if it stands: its 16 bytes are mapped and outside the text.
pub fn frame_at(mem: &Mem, fp: u64) -> Option<Frame>
    ensures { result ≡ frame_at mem.now fp }
{
    let return_address = doubleword(mem, fp.wrapping_sub(8))?;
    let next = doubleword(mem, fp.wrapping_sub(16))?;
    Some(Frame {
        return_address,
        next,
    })
}

/// The address of the word before a return address, which is that of the call.
pub fn call_before(return_address: u64) -> u64
    ensures { result ≡ call_before return_address }
{
    return_address.wrapping_sub(4)
}

/// The call of which x1 has the return address, unless the first frame has that address.
pub fn caller_of(frame: Option<Frame>, ra: u64) -> Option<u64>
    ensures { result ≡ caller_of frame ra }
{
    match frame {
        Some(frame) if frame.return_address == ra => None,
        _ => Some(call_before(ra)),
    }
}
