//! What the placing of a plan's sites needs in memory of its own.

ghost use Rattle.std.specs.Prelude.{◌≡◌, ◌==◌, ◌<◌, ◌^◌, IfOk, length, map};
ghost use Rattle.std.specs.Cmp.Lexicographic.{pointwise};
ghost use Rattle.machine.specs.Cores.{In};
ghost use Rattle.pn_types.specs.declared.plan.Site.{Site};
ghost use Rattle.prim_code.specs.Counts as counts;

use crate::buffers::Buffers;
use pn_types::{NoMemory, PlacedSite, Site};
use prim_code::words_of;
use std::alloc::Global;
use std::collections::VecDeque;
use std::marker::Model;

/// Returns how many words the mini block of a site has.
fn site_words(site: &Site) -> u32
    requires { counts.site_words site.now < 2 ^ 32 }
    ensures { result ≡ counts.site_words site.now }
{
    words_of(site.stmts.as_slice()) + 1
}

/// Takes the memory for the words of sites' blocks.
fn buffers_for(alloc: Global, sites: &[Site]) -> Result<VecDeque<Buffers>, NoMemory>
    requires { (s : Site) → In s sites.now → counts.site_words s < 2 ^ 32 }
    ensures { IfOk result (λ buffers. buffers.items ≡ map counts.site_words sites.now) }
{
    let mut buffers = VecDeque::with_capacity(alloc, sites.len())?;
    for site in sites {
        buffers.push_back_reserved(Buffers::new(alloc, site_words(site))?);
    }
    Ok(buffers)
}

/// The memory that the placing of sites needs: for the words of each one's blocks, and for the list of placed sites. Contracts see
/// how many words the mini block of each site has.
#[derive(Drop)]
pub struct SiteMemory {
    /// The memory for each site's blocks, in order.
    pub buffers: VecDeque<Buffers>,
    /// No sites, and room for as many.
    pub placed: Vec<PlacedSite>,
}

impl Model for SiteMemory {
    ghost use Rattle.std.specs.Prelude.{◌≡◌, ◌≤◌, List, [], ℕ, length, vec_capacity};

    ghost Value = { List ℕ };

    ghost view = { λ m. m.buffers.items };

    ghost invariant = { λ m.
        (m.placed.items ≡ []) × (length m.buffers.items ≤ vec_capacity m.placed) };
}

impl SiteMemory {
    /// Takes the memory for sites.
    ///
    /// # Errors
    ///
    /// `NoMemory` where memory runs out.
    pub fn new(alloc: Global, sites: &[Site]) -> Result<SiteMemory, NoMemory>
        requires { (s : Site) → In s sites.now → counts.site_words s < 2 ^ 32 }
        ensures { IfOk result (λ memory. memory ≡ map counts.site_words sites.now) }
    {
        Ok(SiteMemory {
            buffers: buffers_for(alloc, sites)?,
            placed: Vec::with_capacity(alloc, sites.len())?,
        })
    }

    /// Returns for how many sites it is.
    pub fn len(&self) -> usize
        ensures { result ≡ length self.now }
    {
        self.buffers.len()
    }

    /// Returns whether it is for sites whose mini blocks have as many words as these.
    pub fn is_for(&self, sites: &[Site]) -> bool
        requires { (s : Site) → In s sites.now → counts.site_words s < 2 ^ 32 }
        ensures { result ≡ pointwise (λ v w. v == w) (map counts.site_words sites.now) self.now }
    {
        if sites.len() != self.buffers.len() {
            return false;
        }
        for place in 0..sites.len() {
            if site_words(&sites[place]) != self.buffers[place].words() {
                return false;
            }
        }
        true
    }
}
