//! Levels of a breadth-first search.

ghost use Rattle.std.specs.Prelude.{◌<◌, ◌≤◌};

/// The least nodes of a batch, where its level has this many.
const LEAST_IN_BATCH: usize = 512;

/// The nodes to which schedules of this many moves lead, and none of fewer. They stand from number
/// `first` on, before number `end`, and those to which longer schedules lead do not.
#[derive(Clone, Copy)]
pub(crate) struct Level {
    pub(crate) moves: usize,
    pub(crate) first: usize,
    pub(crate) end: usize,
}

impl Level {
    ghost use Rattle.lu_graph.specs.Visiting.{IsLevelAt};

    /// The level of the node of this number, of this many that are known by then. The level before
    /// is that of the node before it, or its own.
    pub(crate) fn at(self, number: usize, known: usize) -> Level
        requires { self.moves < self.end }
        ensures { IsLevelAt self number known result }
    {
        if number < self.end {
            return self;
        }
        Level {
            moves: self.moves + 1,
            first: number,
            end: known,
        }
    }

    /// Where a batch of the level's nodes ends that begins with this one. It has no more of them
    /// than stand before it, or than 512 where fewer do, for what nodes are made of is mostly met
    /// as a level begins.
    pub(crate) fn batch_end(self, number: usize) -> usize
        ensures { result ≤ self.end }
    {
        let before = number.saturating_sub(self.first);
        self.end
            .min(number.saturating_add(before.max(LEAST_IN_BATCH)))
    }
}
