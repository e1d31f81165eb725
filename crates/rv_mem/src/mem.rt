//! The memory of a program, and its accesses.

ghost use Rattle.std.specs.Prelude.{◌≡◌, ◌<◌, ◌≤◌, ◌^◌, ℕ, IfOk, IsOk, IfErr, OnErr, OnOk, IfSome, Ok, length, true, false};
ghost use Rattle.rv_word.specs.Memory.{cell, in_range, load, store, put_bytes, set_byte, bytes_at, memory_of};
ghost use Rattle.rv_mem.specs.Regions.{parts_of};

use crate::mapped::Region;
use crate::region::{Spot, find_byte, find_number, number_at, put_at, put_byte, put_number};
use crate::window::{find_quick, pages_of, set_windows};
use pn_types::NoMemory;
use rv_word::MemStop;
use std::alloc::Global;
use std::marker::Model;

/// The memory of a program, which contracts see as a map from the mapped addresses to their bytes, with the range of
/// the text. No access allocates, and a refused one changes nothing.
#[derive(Drop)]
pub struct Mem {
    regions: Vec<Region>,
    text_at: u64,
    text_len: u64,
    /// For each page of addresses the number of a region.
    pages: Vec<u8>,
}

impl Model for Mem {
    ghost use Rattle.std.specs.FinMap.{from_entries};
    ghost use Rattle.rv_word.specs.Memory.{Memory, memory_code};
    ghost use Rattle.rv_mem.specs.Regions.{entries_of};
    ghost use Rattle.std.specs.Prelude.{length};
    ghost use Rattle.rv_mem.specs.Windows.{AreClearWindows, AreRegionNumbers};

    ghost Value = { Memory };

    ghost coded = { memory_code };

    ghost view = { λ m. record { text_at = m.text_at; text_len = m.text_len; cells = from_entries (entries_of m.regions.items) } };

    ghost invariant = { λ m. AreClearWindows m.text_at m.text_len m.regions.items × AreRegionNumbers (length m.regions.items) m.pages.items };
}

/// Whether the address is one of `len` from the start.
fn is_within(at: u64, start: u64, len: u64) -> bool
    ensures { result ≡ in_range start len at }
{
    start <= at && at - start < len
}

/// True only if no address from `at` to `end` is one of `len` from the start.
fn misses(at: u64, end: u64, start: u64, len: u64) -> bool
    ensures { result ≡ true → (q : ℕ) → at ≤ q → q < end → in_range start len q ≡ false }
{
    end <= start || at.saturating_sub(start) >= len
}

impl Mem {
    /// The memory of these regions, of which the first that has an address counts.
    pub(crate) fn from_regions(
        alloc: Global,
        mut regions: Vec<Region>,
        text_at: u64,
        text_len: u64,
        pages: usize,
    ) -> Result<Mem, NoMemory>
        ensures { IfOk result (λ mem. mem ≡ memory_of text_at text_len (parts_of regions.items)) }
    {
        set_windows(&mut regions, text_at, text_len);
        let pages = pages_of(alloc, &regions, pages)?;
        Ok(Mem {
            regions,
            text_at,
            text_len,
            pages,
        })
    }

    /// Reads the byte at the address.
    ///
    /// # Errors
    ///
    /// `Unmapped` where the byte is unmapped, and `InText` where it is in the text.
    pub fn byte(&self, at: u64) -> Result<u8, MemStop>
        ensures { result ≡ cell self.now at }
    {
        if is_within(at, self.text_at, self.text_len) {
            return Err(MemStop::InText(at));
        }
        match find_byte(&self.regions, at) {
            Some(byte) => Ok(byte),
            None => Err(MemStop::Unmapped(at)),
        }
    }

    /// Returns what [`load`](Mem::load) returns, where an access is quick at the address. `None` says nothing of the bytes.
    #[inline(always)]
    pub fn quick_load(&self, at: u64, n: u32) -> Option<u64>
        requires { n ≤ 8 }
        ensures value { IfSome result (λ v. load n self.now at ≡ Ok v) }
        ensures bound { IfSome result (λ v. v < 256 ^ n) }
    {
        if let Some(i) = find_quick(&self.pages, &self.regions, at) {
            let region = &self.regions[i];
            let place = (at - region.at) as usize;
            return number_at(&region.bytes, place, n);
        }
        None
    }

    /// Reads the number in the `n` bytes from the address on, the lowest first. After the last address comes address 0.
    ///
    /// # Errors
    ///
    /// `Unmapped` or `InText`, with the address of the first byte that may not be touched.
    pub fn load(&self, at: u64, n: u32) -> Result<u64, MemStop>
        requires { n ≤ 8 }
        ensures value { result ≡ load n self.now at }
        ensures bound { IfOk result (λ v. v < 256 ^ n) }
    {
        if let Some(v) = self.quick_load(at, n) {
            return Ok(v);
        }
        self.load_by_regions(at, n)
    }

    /// The same at any address.
    #[inline(never)]
    fn load_by_regions(&self, at: u64, n: u32) -> Result<u64, MemStop>
        requires { n ≤ 8 }
        ensures value { result ≡ load n self.now at }
        ensures bound { IfOk result (λ v. v < 256 ^ n) }
    {
        if let Some(end) = at.checked_add(n as u64) {
            if misses(at, end, self.text_at, self.text_len) {
                if let Some(v) = find_number(&self.regions, at, n) {
                    return Ok(v);
                }
            }
        }
        self.load_bytes(at, n)
    }

    /// What `load` gives, byte for byte.
    #[tactic(auto, unfolding(rv_word::specs::Memory::load))]
    fn load_bytes(&self, at: u64, n: u32) -> Result<u64, MemStop>
        requires { n ≤ 8 }
        ensures value { result ≡ load n self.now at }
        ensures bound { IfOk result (λ v. v < 256 ^ n) }
    {
        if n == 0 {
            return Ok(0);
        }
        let low = self.byte(at)?;
        let high = self.load_bytes(at.wrapping_add(1), n - 1)?;
        Ok(low as u64 + high * 256)
    }

    /// Tests whether each of the `n` bytes from the address on may be touched.
    ///
    /// # Errors
    ///
    /// `Unmapped` or `InText`, with the address of the first byte that may not be touched.
    pub fn readable(&self, at: u64, n: u32) -> Result<(), MemStop>
        ensures refused { IfErr result (λ e. bytes_at n self.now at ≡ Err e) }
        ensures readable { OnOk result (IsOk (bytes_at n self.now at)) }
        ensures len { IfOk (bytes_at n self.now at) (λ bs. length bs ≡ n) }
    {
        let mut next = at;
        for i in 0..n {
            self.byte(next)?;
            next = next.wrapping_add(1);
        }
        Ok(())
    }

    /// Puts a byte at an address that may be touched.
    fn set_byte(&mut self, at: u64, byte: u8)
        requires { IsOk (cell self.old at) }
        ensures { self.new ≡ set_byte self.old at byte }
    {
        put_byte(&mut self.regions, at, byte);
    }

    /// Puts the lowest `n` bytes of the number at addresses that may be touched, the lowest first.
    #[tactic(auto, unfolding(rv_word::specs::Memory::put_bytes, rv_word::specs::Memory::load))]
    fn put(&mut self, at: u64, n: u32, v: u64)
        requires { IsOk (load n self.old at) }
        ensures { self.new ≡ put_bytes n self.old at v }
    {
        if n > 0 {
            self.set_byte(at, (v & 0xff) as u8);
            self.put(at.wrapping_add(1), n - 1, v >> 8);
        }
    }

    /// Does what [`store`](Mem::store) does, and returns true, where an access is quick at the address. Else it does nothing.
    #[inline(always)]
    pub fn quick_store(&mut self, at: u64, n: u32, v: u64) -> bool
        requires { n ≤ 8 }
        ensures stored { result ≡ true → store n self.old at v ≡ Ok self.new }
        ensures unchanged { result ≡ false → self.new ≡ self.old }
    {
        if let Some(i) = find_quick(&self.pages, &self.regions, at) {
            let place = (at - self.regions[i].at) as usize;
            put_at(&mut self.regions, Spot { region: i, place }, at, n, v);
            return true;
        }
        false
    }

    /// Stores the lowest `n` bytes of the number from the address on, the lowest first. After the last address comes address 0.
    ///
    /// # Errors
    ///
    /// `Unmapped` or `InText`, with the address of the first byte that may not be touched. Then nothing is stored.
    pub fn store(&mut self, at: u64, n: u32, v: u64) -> Result<(), MemStop>
        requires { n ≤ 8 }
        ensures stored { OnOk result (store n self.old at v ≡ Ok self.new) }
        ensures refused { IfErr result (λ e. store n self.old at v ≡ Err e) }
        ensures unchanged { OnErr result (self.new ≡ self.old) }
    {
        if self.quick_store(at, n, v) {
            return Ok(());
        }
        self.store_by_regions(at, n, v)
    }

    /// The same at any address.
    #[inline(never)]
    fn store_by_regions(&mut self, at: u64, n: u32, v: u64) -> Result<(), MemStop>
        requires { n ≤ 8 }
        ensures stored { OnOk result (store n self.old at v ≡ Ok self.new) }
        ensures refused { IfErr result (λ e. store n self.old at v ≡ Err e) }
        ensures unchanged { OnErr result (self.new ≡ self.old) }
    {
        if let Some(end) = at.checked_add(n as u64) {
            if misses(at, end, self.text_at, self.text_len) {
                if put_number(&mut self.regions, at, n, v) {
                    return Ok(());
                }
            }
        }
        self.load_bytes(at, n)?;
        self.put(at, n, v);
        Ok(())
    }
}
