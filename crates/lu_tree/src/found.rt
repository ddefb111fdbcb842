//! What a search finds.

use lu_machine::Counts;
use lu_test::Schedule;
use lu_witness::Why;

/// What is found among the schedules that begin with a given one.
#[derive(Debug, Drop)]
pub enum Found {
    /// Every schedule that ends within the bound is good: how many are complete, stuck and cut.
    Clean(Counts),

    /// The least schedule that ends within the bound and is not good, and why it is not. Every
    /// smaller one is good.
    Bad { schedule: Schedule, why: Why },

    /// The watch stopped the search.
    Abandoned,
}
