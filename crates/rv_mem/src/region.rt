//! Runs of mapped bytes.

ghost use Rattle.std.specs.Prelude.{◌≡◌, ◌+◌, ◌<◌, ◌≤◌, ◌^◌, ◌++◌, ℕ, cond, nat_eq, Some, None, length, replicate, set, slice_index, vec_capacity, IfSome, true, false};
ghost use Rattle.std.specs.Option.{IsSome};
ghost use Rattle.rv_mem.specs.Regions.{content, first_byte, place_of, region_part, little_endian, number_in, with_number, overlaid, HasRange, IsWrittenSpot};
ghost use Rattle.rv_mem.specs.Windows.{HasBounds, HasQuickLen, SameShape};

use crate::mapped::{Region, Window};

/// A place in the bytes of one of several regions.
#[derive(Clone, Copy, Drop)]
pub struct Spot {
    /// Which region it is.
    pub region: usize,
    /// The place in its bytes.
    pub place: usize,
}

/// The greatest length of an access, in bytes.
const MAX_LEN: u64 = 8;

/// Zeros are written up to a multiple of this, so that it is seldom done.
const STEP: usize = 4_096;

impl Region {
    /// These bytes from an address on and `behind` zeros, where no access is quick.
    pub fn new(at: u64, bytes: Vec<u8>, behind: usize) -> Region
        requires { length bytes.items + behind ≤ vec_capacity bytes }
        ensures { region_part result ≡ (at, bytes.items ++ replicate behind 0) }
    {
        Region {
            at,
            bytes,
            behind,
            window: Window { from: 0, to: 0 },
            quick_len: 0,
        }
    }

    /// How many bytes are mapped.
    pub fn len(&self) -> usize
        ensures { result ≡ length (content self.now) }
    {
        self.bytes.len() + self.behind
    }

    /// The place of the address in the region, if it is there.
    fn place_of(&self, at: u64) -> Option<usize>
        ensures { result ≡ place_of self.now at }
    {
        if at < self.at || self.len() as u64 <= at - self.at {
            None
        } else {
            Some((at - self.at) as usize)
        }
    }

    /// False only if the region has none of the addresses from `at` to before `end`.
    pub fn has_any(&self, at: u64, end: u64) -> bool
        ensures { result ≡ false → (q : ℕ) → at ≤ q → q < end → place_of self.now q ≡ None }
    {
        self.at < end && at.saturating_sub(self.at) < self.len() as u64
    }

    /// The place of the address in the region, if it and the next are there, `n` in all.
    fn place_of_all(&self, at: u64, n: u32) -> Option<usize>
        ensures address { IfSome result (λ place. self.now.at + place ≡ at) }
        ensures within { IfSome result (λ place. place + n ≤ length (content self.now)) }
    {
        let place = self.place_of(at)?;
        if self.len() - place < n as usize {
            return None;
        }
        Some(place)
    }

    /// The byte at a place.
    fn byte(&self, place: usize) -> u8
        ensures { result ≡ slice_index (content self.now) place }
    {
        if place < self.bytes.len() {
            self.bytes[place]
        } else {
            0
        }
    }

    /// Whether the `n` bytes from the place on were written.
    fn is_written(&self, place: usize, n: u32) -> bool
        ensures { result ≡ true → place + n ≤ length self.now.bytes.items }
    {
        let len = self.bytes.len();
        place < len && n as usize <= len - place
    }

    /// The number in the `n` bytes from the place on, the lowest first, where all of them were written or none.
    fn number(&self, place: usize, n: u32) -> Option<u64>
        ensures value { IfSome result (λ v. v ≡ little_endian n (content self.now) place) }
        ensures bound { IfSome result (λ v. v < 256 ^ n) }
    {
        if self.bytes.len() <= place {
            return Some(0);
        }
        if !self.is_written(place, n) {
            return None;
        }
        number_at(&self.bytes, place, n)
    }

    /// Sets the quick addresses by the window and the bytes.
    fn set_quick_len(&mut self)
        ensures bounds { HasBounds self.old self.new }
        ensures same { content self.new ≡ content self.old }
        ensures bytes { self.new.bytes ≡ self.old.bytes }
        ensures quick { HasQuickLen self.new }
    {
        let end = self.at.saturating_add(self.bytes.len() as u64);
        let to = self.window.to.min(end);
        self.quick_len = to
            .saturating_sub(self.window.from)
            .saturating_sub(MAX_LEN - 1);
    }

    /// Gives the region a window.
    pub fn set_window(&mut self, window: Window)
        ensures part { region_part self.new ≡ region_part self.old }
        ensures window { self.new.window ≡ window }
        ensures quick { HasQuickLen self.new }
    {
        self.window = window;
        self.quick_len = 0;
        self.set_quick_len();
    }

    /// Writes zeros up to a place that wasn't written, and to the end of its step. There is room for them.
    fn write_zeros(&mut self, place: usize)
        requires { place < length (content self.old) }
        ensures bounds { HasBounds self.old self.new }
        ensures same { content self.new ≡ content self.old }
        ensures written { place < length self.new.bytes.items }
    {
        let all = self.len();
        let count = ((place / STEP + 1) * STEP).min(all);
        if self.bytes.len() < count && self.bytes.resize(count, 0).is_ok() {
            self.behind = all - count;
            self.set_quick_len();
        }
    }

    /// Puts a byte at a place.
    fn set(&mut self, place: usize, byte: u8)
        requires { place < length (content self.old) }
        ensures bounds { HasBounds self.old self.new }
        ensures set { content self.new ≡ set (content self.old) place byte }
    {
        self.write_zeros(place);
        self.bytes[place] = byte;
    }

    /// Puts the lowest `n` bytes of the number at a place, the lowest first, where all of these bytes were written.
    #[inline(always)]
    fn put(&mut self, place: usize, n: u32, v: u64)
        requires { place + n ≤ length self.old.bytes.items }
        ensures bounds { HasBounds self.old self.new }
        ensures put { content self.new ≡ with_number n (content self.old) place v }
    {
        write_at(&mut self.bytes, place, n, v);
    }
}

/// The byte of the first region that has the address.
pub fn find_byte(regions: &Vec<Region>, at: u64) -> Option<u8>
    ensures { result ≡ first_byte regions.now.items at }
{
    for region in regions {
        if let Some(place) = region.place_of(at) {
            return Some(region.byte(place));
        }
    }
    None
}

/// Finds where one region has all of the `n` bytes from the address on and no region before it has any of them. `None` says
/// nothing of the bytes.
fn find_range(regions: &Vec<Region>, at: u64, n: u32) -> Option<Spot>
    requires { at + n < 2 ^ 64 }
    ensures { IfSome result (HasRange regions.now.items at n) }
{
    let end = at + n as u64;
    for i in 0..regions.len() {
        if regions[i].has_any(at, end) {
            let place = regions[i].place_of_all(at, n)?;
            return Some(Spot { region: i, place });
        }
    }
    None
}

/// Reads the number in the `n` bytes from the place on, the lowest first, where `n` is a width that accesses have.
#[inline(always)]
pub fn number_at(bytes: &[u8], place: usize, n: u32) -> Option<u64>
    requires { place + n ≤ length bytes.now }
    ensures value { IfSome result (λ v. v ≡ little_endian n bytes.now place) }
    ensures bound { IfSome result (λ v. v < 256 ^ n) }
{
    match n {
        1 => Some(bytes[place] as u64),
        2 => Some(u16::from_le_bytes([bytes[place], bytes[place + 1]]) as u64),
        4 => Some(u32::from_le_bytes([
            bytes[place],
            bytes[place + 1],
            bytes[place + 2],
            bytes[place + 3],
        ]) as u64),
        8 => Some(u64::from_le_bytes([
            bytes[place],
            bytes[place + 1],
            bytes[place + 2],
            bytes[place + 3],
            bytes[place + 4],
            bytes[place + 5],
            bytes[place + 6],
            bytes[place + 7],
        ])),
        _ => None,
    }
}

/// Reads the number in the `n` bytes from the address on, where one region has them all and none before it has any of them.
/// `None` says nothing of the bytes.
pub fn find_number(regions: &Vec<Region>, at: u64, n: u32) -> Option<u64>
    requires { at + n < 2 ^ 64 }
    ensures value { IfSome result (λ v. number_in n (first_byte regions.now.items) at ≡ Some v) }
    ensures bound { IfSome result (λ v. v < 256 ^ n) }
{
    let spot = find_range(regions, at, n)?;
    regions[spot.region].number(spot.place, n)
}

/// Writes the lowest `n` bytes of the number at the place, the lowest first.
#[inline(always)]
fn write_at(bytes: &mut [u8], place: usize, n: u32, v: u64)
    requires { place + n ≤ length bytes.old }
    ensures { bytes.new ≡ with_number n bytes.old place v }
{
    let mut rest = v;
    for i in 0..n as usize {
        bytes[place + i] = (rest & 0xff) as u8;
        rest >>= 8;
    }
}

/// Puts the lowest `n` bytes of the number from the address on, at their spot.
#[inline(always)]
pub fn put_at(regions: &mut Vec<Region>, spot: Spot, at: u64, n: u32, v: u64)
    requires range { HasRange regions.old.items at n spot }
    requires written { IsWrittenSpot regions.old.items n spot }
    ensures there { IsSome (number_in n (first_byte regions.old.items) at) }
    ensures put { (q : ℕ) → first_byte regions.new.items q ≡ overlaid n v at q (first_byte regions.old.items q) }
    ensures shape { SameShape regions.old.items regions.new.items }
{
    regions[spot.region].put(spot.place, n, v);
}

/// Puts the lowest `n` bytes of the number from the address on, and returns true, where one region has all these addresses,
/// none before it has any of them, and all their bytes were written. Else it does nothing.
pub fn put_number(regions: &mut Vec<Region>, at: u64, n: u32, v: u64) -> bool
    requires { at + n < 2 ^ 64 }
    ensures there { result ≡ true → IsSome (number_in n (first_byte regions.old.items) at) }
    ensures put { result ≡ true → (q : ℕ) → first_byte regions.new.items q ≡ overlaid n v at q (first_byte regions.old.items q) }
    ensures unchanged { result ≡ false → regions.new ≡ regions.old }
    ensures shape { SameShape regions.old.items regions.new.items }
{
    if let Some(spot) = find_range(regions, at, n) {
        if regions[spot.region].is_written(spot.place, n) {
            put_at(regions, spot, at, n, v);
            return true;
        }
    }
    false
}

/// Puts a byte into the first region that has the address.
pub fn put_byte(regions: &mut Vec<Region>, at: u64, byte: u8)
    requires { IsSome (first_byte regions.old.items at) }
    ensures put { (q : ℕ) → first_byte regions.new.items q ≡ cond (nat_eq q at) (Some byte) (first_byte regions.old.items q) }
    ensures shape { SameShape regions.old.items regions.new.items }
{
    for i in 0..regions.len() {
        if let Some(place) = regions[i].place_of(at) {
            regions[i].set(place, byte);
            return;
        }
    }
}
