//! Windows: of each region the part in which an access needs one test alone.

ghost use Rattle.std.specs.Prelude.{◌≡◌, ◌<◌, ◌≤◌, ℕ, EachIndex, IfOk, IfSome, length, false};
ghost use Rattle.rv_word.specs.Memory.{in_range};
ghost use Rattle.rv_mem.specs.Windows.{AreClearWindows, AreRegionNumbers, IsClear, IsNotedIn, IsQuickAt};
ghost use Rattle.rv_mem.specs.Regions.{parts_of};

use crate::mapped::{Region, Window};
use pn_types::NoMemory;
use std::alloc::Global;

/// The part of the window before the text or the one after it, whichever is longer.
fn beside_text(window: Window, text_at: u64, text_len: u64) -> Window
    ensures begins { window.from ≤ result.from }
    ensures ends { result.to ≤ window.to }
    ensures apart { (q : ℕ) → result.from ≤ q → q < result.to → in_range text_at text_len q ≡ false }
{
    let text_end = text_at.saturating_add(text_len);
    if window.to <= text_at || text_end <= window.from {
        return window;
    }
    if text_at.saturating_sub(window.from) < window.to.saturating_sub(text_end) {
        Window {
            from: text_end,
            to: window.to,
        }
    } else {
        Window {
            from: window.from,
            to: text_at,
        }
    }
}

/// The window of a region: empty where a region before it has any of its addresses.
fn window_of(regions: &Vec<Region>, i: usize, text_at: u64, text_len: u64) -> Window
    requires { i < length regions.now.items }
    ensures { IsClear text_at text_len regions.now.items i result }
{
    let at = regions[i].at;
    let end = at.saturating_add(regions[i].len() as u64);
    let window = beside_text(Window { from: at, to: end }, text_at, text_len);
    for k in 0..i {
        if regions[k].has_any(window.from, window.to) {
            return Window { from: 0, to: 0 };
        }
    }
    window
}

/// Gives each region its window.
pub fn set_windows(regions: &mut Vec<Region>, text_at: u64, text_len: u64)
    ensures parts { parts_of regions.new.items ≡ parts_of regions.old.items }
    ensures clear { AreClearWindows text_at text_len regions.new.items }
{
    for i in 0..regions.len() {
        let window = window_of(regions, i, text_at, text_len);
        regions[i].set_window(window);
    }
}

/// Notes the region's number at the pages of its window.
fn note_pages(pages: &mut Vec<u8>, region: &Region, number: u8)
    ensures len { length pages.new.items ≡ length pages.old.items }
    ensures noted { EachIndex pages.new.items (IsNotedIn pages.old.items pages.new.items number) }
{
    let window = region.window;
    if window.to <= window.from {
        return;
    }
    let first = window.from >> 12;
    let last = (window.to - 1) >> 12;
    for page in first..last + 1 {
        if page >= pages.len() as u64 {
            return;
        }
        pages[page as usize] = number;
    }
}

/// Makes for each of the first `count` pages of 4,096 bytes the number of the region in which an access is looked for first; no pages
/// where there is no region.
///
/// # Errors
///
/// `NoMemory` if memory runs out.
pub fn pages_of(alloc: Global, regions: &Vec<Region>, count: usize) -> Result<Vec<u8>, NoMemory>
    ensures { IfOk result (λ pages. AreRegionNumbers (length regions.now.items) pages.items) }
{
    if regions.is_empty() {
        return Ok(Vec::new(alloc));
    }
    let mut pages = vec![in alloc; 0; count]?;
    for i in 0..regions.len() {
        if i < 256 {
            note_pages(&mut pages, &regions[i], i as u8);
        }
    }
    Ok(pages)
}

/// The number of the region of the address's page, where an access at the address is quick. The distance from the window's first address
/// wraps where the address is before it, so that one test finds both ends.
#[inline(always)]
pub fn find_quick(pages: &Vec<u8>, regions: &Vec<Region>, at: u64) -> Option<usize>
    requires { AreRegionNumbers (length regions.now.items) pages.now.items }
    ensures { IfSome result (IsQuickAt regions.now.items at) }
{
    let page = (at >> 12) as usize;
    if page >= pages.len() {
        return None;
    }
    let i = pages[page] as usize;
    if at.wrapping_sub(regions[i].window.from) < regions[i].quick_len {
        Some(i)
    } else {
        None
    }
}
