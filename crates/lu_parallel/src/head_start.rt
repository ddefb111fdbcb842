//! The watch over a search that has a head start.

ghost use Rattle.std.specs.Prelude.{◌≡◌, ◌<◌};

use crate::counting::schedules_in;
use crate::gate::Gate;
use lu_tree::Watch;

/// A watch that stops at the last of this many looks.
#[derive(Drop)]
pub(crate) struct HeadStart<'g, G> {
    gate: &'g G,

    /// How many looks are left: none where it has stopped.
    left: u64,
}

impl<'g, G: Gate> HeadStart<'g, G> {
    /// A watch that stops at the last of these looks.
    pub(crate) fn new(gate: &'g G, looks: u64) -> HeadStart<'g, G>
        requires some { 0 < looks }
        ensures { result.left ≡ looks }
    {
        HeadStart { gate, left: looks }
    }
}

impl<'g, G: Gate> Watch for HeadStart<'g, G> {
    ghost use Rattle.std.specs.Prelude.{nat_eq};

    type Base = ();

    ghost base = { λ _. tt };

    ghost is_stopped = { λ w. nat_eq w.left 0 };

    fn stop(&mut self) -> bool {
        self.gate.judge(schedules_in(1));
        self.left = self.left.saturating_sub(1);
        self.left == 0
    }

    fn stopped(&self) -> bool {
        self.left == 0
    }

    /// However many schedules are counted together, it is one look.
    fn stop_within(&mut self, times: u64) -> bool {
        self.gate.judge(schedules_in(times.saturating_sub(1)));
        times > 0 && self.stop()
    }
}
