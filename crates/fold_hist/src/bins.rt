//! The list of bins: folding, and adding a sample.

ghost use Rattle.std.specs.Prelude.{◌≡◌, ◌<◌, ◌≤◌, ◌+◌, ◌*◌, ◌%◌, ◌^◌, ◌==◌, ◌∷◌, ◌++◌, [], if◌then◌else◌, length, drop, vec_capacity, vec_len};
ghost use Rattle.fold_hist.specs.Steps.{paired, with_last};

use crate::bin::Bin;

/// Bins of one width: each has that many samples, but the last one may have fewer.
#[derive(Drop)]
pub(crate) struct Bins {
    pub width: u64,
    pub list: Vec<Bin>,
}

impl Bins {
    /// Makes room for a sample after `count` others: where `most` bins are full, they fold into half as many of the
    /// double width.
    pub(crate) fn make_room(&mut self, most: u32, count: u64)
        requires product { most * self.old.width < 2 ^ 64 }
        requires width { self.old.width < 2 ^ 63 }
        ensures width { self.new.width ≡ (if count == most * self.old.width then 2 * self.old.width else self.old.width) }
        ensures list { self.new.list.items ≡ (if count == most * self.old.width then paired self.old.list.items else self.old.list.items) }
        ensures capacity { vec_capacity self.new.list ≡ vec_capacity self.old.list }
    {
        if count == most as u64 * self.width {
            fold(&mut self.list);
            self.width *= 2;
        }
    }

    /// Puts a sample after `count` others: into a new bin where the last one is full, else into the last one.
    pub(crate) fn put(&mut self, count: u64, sample: Bin)
        requires width { 0 < self.old.width }
        requires room { count % self.old.width ≡ 0 → vec_len self.old.list < vec_capacity self.old.list }
        ensures width { self.new.width ≡ self.old.width }
        ensures list { self.new.list.items ≡ (if count % self.old.width == 0
            then self.old.list.items ++ sample ∷ []
            else with_last self.old.list.items sample) }
        ensures capacity { vec_capacity self.old.list ≤ vec_capacity self.new.list }
    {
        if count % self.width == 0 {
            self.list.push(sample).unwrap();
        } else {
            add_to_last(&mut self.list, sample);
        }
    }
}

/// The bins at places 2i and 2i + 1 as one, or the first of them where it is the last of all.
fn pair_at(bins: &[Bin], i: usize) -> Bin
    requires { 2 * i < length bins.now }
    ensures { paired (drop (2 * i) bins.now) ≡ result ∷ paired (drop (2 * (i + 1)) bins.now) }
{
    let first = bins[2 * i];
    if 2 * i + 1 < bins.len() {
        first.joined(bins[2 * i + 1])
    } else {
        first
    }
}

/// Makes one bin of each two, in place. The last of an odd number stays as it is.
fn fold(bins: &mut Vec<Bin>)
    ensures items { bins.new.items ≡ paired bins.old.items }
    ensures capacity { vec_capacity bins.new ≡ vec_capacity bins.old }
{
    let half = bins.len() / 2 + bins.len() % 2;
    for i in 0..half {
        let pair = pair_at(bins, i);
        bins[i] = pair;
    }
    bins.truncate(half);
}

/// Adds a sample to the last bin.
fn add_to_last(bins: &mut Vec<Bin>, sample: Bin)
    ensures items { bins.new.items ≡ with_last bins.old.items sample }
    ensures capacity { vec_capacity bins.new ≡ vec_capacity bins.old }
{
    if bins.is_empty() {
        return;
    }
    let last = bins.len() - 1;
    bins[last] = bins[last].joined(sample);
}
