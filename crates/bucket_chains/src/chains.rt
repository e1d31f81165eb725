//! The entries, their buckets, and what comes next after each.

ghost use Rattle.std.specs.Prelude.{◌≡◌, ℕ, ◌+◌, ◌-◌, ◌<◌, None, Some, IfOk, OnErr, OnOk, [], ◌∷◌, ◌++◌, length, max, replicate, set};
ghost use Rattle.bucket_chains.specs.Entries.{IsFirst, bucket_at, bucket_of, no_entries};
ghost use Rattle.bucket_chains.specs.declared.chains.TheConstants.{BUCKETS};

use pn_types::NoMemory;
use std::alloc::Global;
use std::marker::Model;

/// How many buckets there are: a prime number, so that keys that are multiples of a number get into all of them.
pub const BUCKETS: u32 = 8_191;

/// A list of entries, each in the bucket of its key, which is the key modulo [`BUCKETS`]. An entry that was taken out keeps its place,
/// and is in no bucket. Contracts see the bucket of each entry, by place, and for how many more entries there is room.
pub struct Chains {
    buckets: Vec<Option<u32>>,
    // For each entry the places of the next in its bucket and of the one before it.
    next: Vec<Option<usize>>,
    previous: Vec<Option<usize>>,
    // For each bucket the places of its first entry and of its last. Both lists are empty until there is room.
    first: Vec<Option<usize>>,
    last: Vec<Option<usize>>,
    room: usize,
}

impl Model for Chains {
    ghost use Rattle.std.specs.Prelude.{vec_capacity, vec_len};
    ghost use Rattle.bucket_chains.specs.Entries.{Entries};
    ghost use Rattle.bucket_chains.specs.Chained.{IsChained, HasEnds, HasRoom};

    ghost Value = { Entries };

    ghost view = { λ c. record { buckets = c.buckets.items; room = c.room } };

    ghost invariant = { λ c.
        IsChained c.buckets.items c.next.items c.previous.items c.first.items c.last.items
        × HasRoom (vec_len c.buckets) (vec_capacity c.buckets) (vec_capacity c.next) (vec_capacity c.previous) c.room
        × HasEnds (vec_len c.buckets) (vec_len c.first) (vec_len c.last) c.room };
}

// By a call of its own: what drops it need not prove the drops of all its parts.
impl Drop for Chains {
    fn drop(self) {
        let Chains {
            buckets: _,
            next: _,
            previous: _,
            first: _,
            last: _,
            room: _,
        } = self;
    }
}

/// The number of a key's bucket.
fn bucket_of(key: u64) -> u32
    ensures is { result ≡ bucket_of key }
    ensures below { result < BUCKETS }
{
    (key % u64::from(BUCKETS)) as u32
}

impl Chains {
    /// No entries, and room for none.
    ///
    /// # Errors
    ///
    /// `NoMemory` if memory runs out.
    pub fn new(alloc: Global) -> Result<Chains, NoMemory>
        ensures { IfOk result (λ chains. chains ≡ no_entries) }
    {
        Ok(Chains {
            buckets: Vec::new(alloc),
            next: Vec::new(alloc),
            previous: Vec::new(alloc),
            first: Vec::new(alloc),
            last: Vec::new(alloc),
            room: 0,
        })
    }

    /// Makes room for `entries` more entries, counting the room that there is. Only this takes memory.
    ///
    /// # Errors
    ///
    /// `NoMemory` if memory runs out. Then nothing has changed.
    pub fn reserve(&mut self, entries: usize) -> Result<(), NoMemory>
        ensures ok { OnOk result (self.new ≡ record self.old { room = max entries self.old.room }) }
        ensures err { OnErr result (self.new ≡ self.old) }
    {
        let room = self.room.max(entries);
        self.buckets.reserve(room)?;
        self.next.reserve(room)?;
        self.previous.reserve(room)?;
        if 0 < room {
            self.first.resize(BUCKETS as usize, None)?;
            self.last.resize(BUCKETS as usize, None)?;
        }
        self.room = room;
        Ok(())
    }

    /// How many entries there are, with those that were taken out.
    pub fn len(&self) -> usize
        ensures { result ≡ length self.now.buckets }
    {
        self.buckets.len()
    }

    /// Appends an entry.
    pub fn push(&mut self, key: u64)
        requires { 0 < self.old.room }
        ensures { self.new ≡ record { buckets = self.old.buckets ++ Some (bucket_of key) ∷ []; room = self.old.room - 1 } }
    {
        let bucket = bucket_of(key);
        let place = self.buckets.len();
        let last = self.last[bucket as usize];
        self.buckets.push_reserved(Some(bucket));
        self.next.push_reserved(None);
        self.previous.push_reserved(last);
        match last {
            Some(last) => self.next[last] = Some(place),
            None => self.first[bucket as usize] = Some(place),
        }
        self.last[bucket as usize] = Some(place);
        self.room -= 1;
    }

    /// Appends an entry that is in no bucket.
    pub fn skip(&mut self)
        requires { 0 < self.old.room }
        ensures { self.new ≡ record { buckets = self.old.buckets ++ None ∷ []; room = self.old.room - 1 } }
    {
        self.buckets.push_reserved(None);
        self.next.push_reserved(None);
        self.previous.push_reserved(None);
        self.room -= 1;
    }

    /// The place of the first entry in the bucket of a key.
    pub fn first(&self, key: u64) -> Option<usize>
        ensures { IsFirst (bucket_of key) 0 self.now.buckets result }
    {
        *self.first.get(bucket_of(key) as usize)?
    }

    /// The place of the next entry in the bucket of the one at a place.
    pub fn next(&self, place: usize) -> Option<usize>
        requires { place < length self.now.buckets }
        ensures { (bucket : ℕ) → bucket_at self.now.buckets place ≡ Some bucket → IsFirst bucket (place + 1) self.now.buckets result }
    {
        self.next[place]
    }

    /// Removes the entry at a place from its bucket.
    pub fn remove(&mut self, place: usize)
        requires { place < length self.old.buckets }
        ensures { self.new ≡ record self.old { buckets = set self.old.buckets place None } }
    {
        let Some(bucket) = self.buckets[place] else {
            return;
        };
        let before = self.previous[place];
        let next = self.next[place];
        self.buckets[place] = None;
        match before {
            Some(before) => self.next[before] = next,
            None => self.first[bucket as usize] = next,
        }
        match next {
            Some(next) => self.previous[next] = before,
            None => self.last[bucket as usize] = before,
        }
    }

    /// Removes all entries. Their places are room again.
    pub fn clear(&mut self)
        ensures { self.new ≡ record { buckets = []; room = self.old.room + length self.old.buckets } }
    {
        self.room += self.buckets.len();
        self.buckets.clear();
        self.next.clear();
        self.previous.clear();
        self.first.as_mut_slice().fill(None);
        self.last.as_mut_slice().fill(None);
    }
}
