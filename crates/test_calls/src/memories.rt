//! Loads and stores at the borders of segments.

use crate::comparison::compare;
use crate::images::image;
use pn_types::NoMemory;
use rv_mem::Mem;
use rv_word::MemStop;
use std::alloc::Global;

/// A load: its address, how many bytes, at most 8, and what it returns.
type Load = (u64, u32, Result<u64, MemStop>);

/// A store: its address, how many bytes, at most 8, and what it returns.
type Store = (u64, u32, Result<(), MemStop>);

/// What is stored.
const STORED: u64 = 0xc8c7_c6c5_c4c3_c2c1;

const LOADS: [Load; 20] = [
    (0xfffc, 8, Err(MemStop::Unmapped(0xfffc))),
    (0x10000, 1, Err(MemStop::InText(0x10000))),
    (0x1000b, 2, Err(MemStop::InText(0x1000b))),
    (0x1000c, 4, Ok(0)),
    (0x1000c, 8, Ok(0x0403_0201_0000_0000)),
    (0x10010, 8, Ok(0x0807_0605_0403_0201)),
    (0x10012, 4, Ok(0x0605_0403)),
    (0x10016, 2, Ok(0x0807)),
    (0x10017, 1, Ok(8)),
    (0x10014, 8, Err(MemStop::Unmapped(0x10018))),
    (0x5fff_ffff, 1, Err(MemStop::Unmapped(0x5fff_ffff))),
    (0x6000_0000, 1, Ok(0)),
    (0x600f_fff8, 8, Ok(0)),
    (0x600f_fff9, 8, Err(MemStop::Unmapped(0x6010_0000))),
    (0x7000_ffff, 1, Ok(0)),
    (0x7001_0000, 1, Err(MemStop::Unmapped(0x7001_0000))),
    (0x703e_fff8, 8, Ok(0)),
    (0x703e_fffc, 8, Err(MemStop::Unmapped(0x703f_0000))),
    (0x7040_0000, 1, Err(MemStop::Unmapped(0x7040_0000))),
    (u64::MAX, 8, Err(MemStop::Unmapped(u64::MAX))),
];

const STORES: [Store; 5] = [
    (0x10008, 8, Err(MemStop::InText(0x10008))),
    (0x10014, 8, Err(MemStop::Unmapped(0x10018))),
    (0x1000c, 8, Ok(())),
    (0x600f_fff8, 8, Ok(())),
    (0x7002_fffe, 2, Ok(())),
];

const LOADS_BEHIND: [Load; 5] = [
    (0x1000c, 4, Ok(0xc4c3_c2c1)),
    (0x10010, 8, Ok(0x0807_0605_c8c7_c6c5)),
    (0x600f_fff0, 8, Ok(0)),
    (0x600f_fff8, 8, Ok(STORED)),
    (0x7002_fffc, 4, Ok(0xc2c1_0000)),
];

/// Returns the first load that returns something else, or whose bytes are readable or not against what it says.
fn first_other_load(mem: &Mem, loads: &[Load]) -> Option<Load> {
    for load in loads {
        let (at, n, answer) = *load;
        if n > 8 || mem.load(at, n) != answer || mem.readable(at, n) != answer.map(|_| ()) {
            return Some(*load);
        }
    }
    None
}

/// Returns the first store that returns something else.
fn first_other_store(mem: &mut Mem, stores: &[Store]) -> Option<Store> {
    for store in stores {
        let (at, n, answer) = *store;
        if n > 8 || mem.store(at, n, STORED) != answer {
            return Some(*store);
        }
    }
    None
}

/// Returns the first load with 32 harts that returns something else.
fn load_at_borders(alloc: Global) -> Result<Option<Load>, NoMemory> {
    let mem = Mem::new(alloc, &image(alloc)?, 32)?;
    Ok(first_other_load(&mem, &LOADS))
}

#[test]
fn loads_at_the_borders(rt: HostRuntime) {
    compare(&rt, load_at_borders(rt.alloc()), Ok(None));
}

/// Returns the first store with two harts that returns something else, and the first such load after the stores.
fn store_at_borders(alloc: Global) -> Result<(Option<Store>, Option<Load>), NoMemory> {
    let mut mem = Mem::new(alloc, &image(alloc)?, 2)?;
    let store = first_other_store(&mut mem, &STORES);
    Ok((store, first_other_load(&mem, &LOADS_BEHIND)))
}

#[test]
fn stores_at_the_borders(rt: HostRuntime) {
    compare(&rt, store_at_borders(rt.alloc()), Ok((None, None)));
}

/// Returns what loads of bytes return in the data, in the text, and where with one hart there are none.
fn touch_bytes(alloc: Global) -> Result<[Result<u8, MemStop>; 3], NoMemory> {
    let mem = Mem::new(alloc, &image(alloc)?, 1)?;
    Ok([mem.byte(0x10013), mem.byte(0x10003), mem.byte(0x7002_0000)])
}

#[test]
fn touches_single_bytes(rt: HostRuntime) {
    let bytes = [
        Ok(4),
        Err(MemStop::InText(0x10003)),
        Err(MemStop::Unmapped(0x7002_0000)),
    ];
    compare(&rt, touch_bytes(rt.alloc()), Ok(bytes));
}
