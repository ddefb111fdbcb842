//! How many schedules there are of each end.

ghost use Rattle.std.specs.Prelude.{◌≡◌};
ghost use Rattle.lu_machine.specs.Sums.{plus};

/// How many schedules are complete, stuck and cut: each number up to 2^64 - 1, which stands for
/// that or more.
#[derive(Clone, Copy, Debug, PartialEq, Eq)]
pub struct Counts {
    /// How many end in a complete state.
    pub complete: u64,

    /// How many end in a stuck state.
    pub stuck: u64,

    /// How many have as many moves as the bound, and end where a thread is enabled.
    pub cut: u64,
}

impl Counts {
    /// No schedule.
    pub const NONE: Counts = Counts {
        complete: 0,
        stuck: 0,
        cut: 0,
    };

    /// The sums of both, each at most 2^64 - 1.
    #[inline(always)]
    pub fn plus(self, other: Counts) -> Counts
        ensures { result ≡ plus self other }
    {
        Counts {
            complete: self.complete.saturating_add(other.complete),
            stuck: self.stuck.saturating_add(other.stuck),
            cut: self.cut.saturating_add(other.cut),
        }
    }
}
