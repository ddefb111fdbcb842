//! Watches that tell a gate how many schedules are judged.

use crate::gate::Gate;
use lu_tree::Watch;

/// How many schedules a search judges between two looks of its watch.
const SCHEDULES_A_LOOK: u64 = 64;

/// How many schedules a search judges in this many looks.
pub(crate) fn schedules_in(looks: u64) -> u64 {
    looks.saturating_mul(SCHEDULES_A_LOOK)
}

/// A watch that never stops.
#[derive(Drop)]
pub(crate) struct Counting<'g, G> {
    pub(crate) gate: &'g G,
}

impl<'g, G: Gate> Watch for Counting<'g, G> {
    ghost use Rattle.std.specs.Prelude.{false};

    type Base = ();

    ghost base = { λ _. tt };

    ghost is_stopped = { λ _. false };

    fn stop(&mut self) -> bool {
        self.gate.judge(schedules_in(1));
        false
    }

    fn stopped(&self) -> bool {
        false
    }

    fn stop_within(&mut self, times: u64) -> bool {
        self.gate.judge(schedules_in(times));
        false
    }
}
