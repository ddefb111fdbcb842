//! How all schedules of a component end.

/// How all schedules of a component on a matrix end, of any length, as a search up to a bound
/// tells it.
#[derive(Clone, Copy)]
pub enum Ending {
    /// There are no more nodes than were to be kept, no two alike, and each schedule that ends is
    /// good.
    Well,
    /// The shortest schedule that ends and is not good has this many moves. Where these are more
    /// than the bound, there are no more nodes than were to be kept.
    Badly(usize),
    /// There are more nodes, no two alike, than were to be kept.
    TooMany,
}
