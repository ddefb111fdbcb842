//! Whether what is remembered is of use.

ghost use Rattle.std.specs.Prelude.{◌≡◌};
ghost use Rattle.lu_witness.specs.Caches.{SameButEntries};
ghost use Rattle.lu_witness.specs.Witnesses.{IsMember, IsVerdict};

use lu_history::History;
use lu_trie::SerialTree;
use lu_witness::{Cache, Verdict, verdict};

/// One history of this many is looked up, whatever came of those before.
const TRIED: u64 = 64;

/// How what is remembered was of use so far. The numbers are modulo 2^64.
#[derive(Clone, Copy)]
pub(crate) struct Uses {
    /// How many histories were judged.
    judged: u64,

    /// How many of them were not known to be good.
    asked: u64,

    /// Whether the cache kept the one that was tried last. Where nearly every history is a new one
    /// it keeps none: to look one up then takes longer than to search for its witnesses.
    cache_keeps: bool,
}

impl Uses {
    /// All is of use until it is seen to be of none.
    pub(crate) fn new() -> Uses {
        Uses {
            judged: 0,
            asked: 0,
            cache_keeps: true,
        }
    }

    /// Counts a history that is judged.
    #[inline(always)]
    pub(crate) fn count(&mut self) {
        self.judged = self.judged.wrapping_add(1);
    }

    /// Whether half of what was judged was known to be good, or more.
    pub(crate) fn most_are_known(&self) -> bool {
        self.asked <= self.judged / 2
    }

    /// The verdict of a history that is not known to be good, over the tree: from its cache where
    /// that is of use.
    pub(crate) fn verdict<'t, T: SerialTree>(
        &mut self,
        tree: &'t T,
        cache: &mut Cache<'t, T>,
        history: &History,
    ) -> Verdict
        requires { cache.old.tree ≡ tree.now }
        ensures cache { SameButEntries cache.old cache.new }
        ensures verdict { IsVerdict (IsMember (T.members tree.now)) history.now result }
    {
        self.asked = self.asked.wrapping_add(1);
        if self.asked % TRIED == 0 {
            self.cache_keeps = cache.keeps(history);
            return cache.verdict(history);
        }
        if self.cache_keeps {
            cache.verdict(history)
        } else {
            verdict(tree, history)
        }
    }
}
