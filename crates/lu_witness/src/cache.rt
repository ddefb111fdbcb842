//! Verdicts that are remembered.

ghost use Rattle.std.specs.Prelude.{◌≡◌, ◌≤◌, [], IfOk};
ghost use Rattle.lru.specs.LruCache.{lru_cache};
ghost use Rattle.lu_witness.specs.Caches.{IsKept, Recalls, SameButEntries, has_entry};
ghost use Rattle.lu_witness.specs.Witnesses.{IsMember, IsVerdict};

use crate::judgement::Verdict;
use crate::judging::verdict;
use lru::LruCache;
use lu_history::History;
use lu_machine::Event;
use lu_trie::SerialTree;
use std::alloc::{AllocError, Global};
use std::marker::Model;
use std::num::NonZeroUsize;

/// The verdicts over one tree that were asked for last, each with the whole list of events of its
/// history. In clauses it is the tree and the entries, the most recently used first.
#[derive(Drop)]
pub struct Cache<'t, T: SerialTree> {
    alloc: Global,
    tree: &'t T,
    kept: LruCache<Vec<Event>, Verdict>,
}

impl<'t, T: SerialTree> Model for Cache<'t, T> {
    ghost use Rattle.std.specs.Prelude.{map};
    ghost use Rattle.lru.specs.LruCache.{lru_cache};
    ghost use Rattle.lu_witness.specs.Caches.{AreRight, Cache as ACache, shown};

    ghost Value = { ACache T };

    ghost view = { λ a. record {
      tree = a.tree.now;
      kept = lru_cache (map shown a.kept.entries) a.kept.cap;
    } };

    ghost invariant = { λ a. AreRight (T.members a.tree.now) a.kept.entries };
}

impl<'t, T: SerialTree> Cache<'t, T> {
    /// An empty cache over the tree, which keeps `capacity` verdicts, 1 to 4,096. It takes its
    /// memory from `alloc`.
    ///
    /// # Errors
    ///
    /// `AllocError` where memory was refused.
    pub fn new(alloc: Global, tree: &'t T, capacity: usize) -> Result<Cache<'t, T>, AllocError>
        requires { (1 ≤ capacity) × (capacity ≤ 4096) }
        ensures tree { IfOk result (λ cache. cache.tree ≡ tree.entry.now) }
        ensures empty { IfOk result (λ cache. cache.kept ≡ lru_cache [] capacity) }
    {
        let capacity = NonZeroUsize::new(capacity).unwrap();
        Ok(Cache {
            alloc,
            tree,
            kept: LruCache::new(alloc, capacity)?,
        })
    }

    /// The tree whose verdicts it keeps.
    pub fn tree(&self) -> &'t T
        ensures { result.now ≡ self.now.tree }
    {
        self.tree
    }

    /// Whether the verdict of the history is kept. It takes no memory, and leaves the order of use
    /// as it is.
    pub fn keeps(&self, history: &History) -> bool
        ensures { result ≡ has_entry ⟦<Event as PartialEq>⟧.eq history.now self.now.kept }
    {
        self.kept.contains(history.events())
    }

    /// The verdict of the history over the tree ([`verdict`]), kept or found anew. One that is
    /// found anew is kept, and takes the place of the one that was not asked for longest where the
    /// cache is full. Where memory is refused for that, the cache stays as it was.
    pub fn verdict(&mut self, history: &History) -> Verdict
        ensures same { SameButEntries self.old self.new }
        ensures verdict { IsVerdict (IsMember (T.members self.old.tree)) history.now result }
        ensures entries { Recalls ⟦<Event as PartialEq>⟧.eq history.now self.old self.new result }
    {
        let events = history.events();
        match self.kept.peek(events).copied() {
            Some(known) => {
                self.kept.promote(events);
                known
            }
            None => {
                let found = verdict(self.tree, history);
                self.remember(events, found);
                found
            }
        }
    }

    /// Keeps the verdict, where there is memory for the events and their place.
    fn remember(&mut self, events: &[Event], found: Verdict)
        requires { IsVerdict (IsMember (T.members self.old.tree)) events.now found }
        ensures tree { self.new.tree ≡ self.old.tree }
        ensures entries { IsKept ⟦<Event as PartialEq>⟧.eq events.now self.old self.new found }
    {
        let mut key = Vec::new(self.alloc);
        if key.extend_from_slice(events).is_err() {
            return;
        }
        let _ = self.kept.put(key, found);
    }
}
