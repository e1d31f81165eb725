//! What a program writes.

ghost use Rattle.std.specs.Prelude.{◌≡◌, ◌≤◌, ◌+◌, ◌++◌, [], IfOk, IsOk, length};
ghost use Rattle.rv_word.specs.Memory.{bytes_at};

use pn_types::NoMemory;
use rv_mem::Mem;
use std::alloc::Global;
use std::marker::Model;

/// The greatest length of the output in bytes.
pub const OUTPUT_LIMIT: usize = 1_048_576;

/// What the program wrote, at most 1,048,576 bytes. Contracts see the list of the bytes.
#[derive(Drop)]
pub struct Output {
    bytes: Vec<u8>,
}

impl Model for Output {
    ghost use Rattle.std.specs.Prelude.{List, ℕ};

    ghost Value = { List ℕ };

    ghost view = { λ o. o.bytes.items };

    ghost use Rattle.std.specs.Prelude.{◌≤◌, vec_capacity};

    ghost invariant = { λ o. 1048576 ≤ vec_capacity o.bytes };
}

impl Output {
    /// An empty output, which takes all its memory now.
    ///
    /// # Errors
    ///
    /// `NoMemory` if memory runs out.
    pub fn new(alloc: Global) -> Result<Output, NoMemory>
        ensures { IfOk result (λ o. o ≡ []) }
    {
        Ok(Output {
            bytes: Vec::with_capacity(alloc, OUTPUT_LIMIT)?,
        })
    }

    /// The bytes that were written.
    pub fn bytes(&self) -> &[u8]
        ensures { result.now ≡ self.now }
    {
        self.bytes.as_slice()
    }

    /// Appends n bytes of memory, which can all be read.
    #[tactic(auto, unfolding(rv_word::specs::Memory::bytes_at))]
    pub(crate) fn append(&mut self, mem: &Mem, at: u64, n: u32)
        requires readable { IsOk (bytes_at n mem.now at) }
        requires room { length self.old + n ≤ 1048576 }
        ensures { IfOk (bytes_at n mem.now at) (λ bs. self.new ≡ self.old ++ bs) }
    {
        if n > 0 {
            if let Ok(byte) = mem.byte(at) {
                // There is room, so this doesn't fail.
                let _room_is_there = self.bytes.push(byte);
                self.append(mem, at.wrapping_add(1), n - 1);
            }
        }
    }
}
