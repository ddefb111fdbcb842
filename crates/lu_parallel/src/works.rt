//! What a worker hands back.

use lu_board::Seat;
use lu_machine::Counts;
use lu_test::Schedule;
use lu_witness::Why;

/// A piece with a schedule that is bad: the least one that begins with the piece.
#[derive(Debug, Drop)]
pub struct FoundPiece {
    /// The number of the piece, from 0.
    pub piece: u64,

    /// Its least schedule that ends within the bound and is not good.
    pub schedule: Schedule,

    /// Why it is not good.
    pub why: Why,
}

/// What a worker did with the pieces that it claimed.
#[derive(Drop)]
pub struct Work {
    /// The worker's seat, which is spent and holds no piece.
    pub seat: Seat,

    /// How many schedules of its clean pieces are complete, stuck and cut.
    pub counts: Counts,

    /// Its bad pieces, in the order in which they were found.
    pub found: Vec<FoundPiece>,
}
