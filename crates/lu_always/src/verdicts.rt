//! What a search finds.

use lu_test::Move;

/// Whether all matrices that are unrolled from one are linearizable, and none has a livelock.
#[derive(Drop)]
pub enum Verdict {
    /// All are linearizable, and none has a livelock: wherever a schedule leads, some schedule ends.
    AlwaysLinearizable,

    /// At least one is not linearizable. These moves are a schedule of it that ends, and is not good
    /// for its serial histories.
    Fails(Vec<Move>),

    /// All are linearizable, but at least one has a livelock. These moves are a schedule of it that
    /// leads to a state from which no schedule ends.
    Livelock(Vec<Move>),

    /// There are more nodes than the limit.
    Undecided,
}
