//! The livelock of a cut.

ghost use Rattle.std.specs.Prelude.{◌≡◌, IfErr, IfOk, IfSome, false, true};
ghost use Rattle.lu_graph.specs.declared.halted.Halted.TheVariants.{Stopped};
ghost use Rattle.lu_certify.specs.Limited.{OfTest};
ghost use Rattle.lu_certify.specs.Cuts.{IsFirstLostOf, SeeksLivelock};

use crate::judged::Standing;
use crate::limited::LimitedTest;
use lu_graph::{FirstLost, Halted, Watch, first_lost_watched};
use std::alloc::Global;

/// The first schedule of the cut that leads to a state from which none ends.
pub(crate) fn find_lost<W: Watch>(
    alloc: Global,
    cut: LimitedTest<'_>,
    watch: &mut W,
) -> Result<FirstLost, Halted>
    requires running { W.is_stopped watch.old ≡ false }
    ensures first { IfOk result (OfTest IsFirstLostOf cut.entry) }
    ensures stopped { IfErr result (λ halted. halted ≡ Stopped → W.is_stopped watch.new ≡ true) }
{
    first_lost_watched(alloc, cut.component, cut.matrix, cut.limits.nodes, watch)
}

/// The same schedule: what was found already, or else what is sought now.
fn found_or_seek<W: Watch>(
    alloc: Global,
    cut: LimitedTest<'_>,
    found: Option<FirstLost>,
    watch: &mut W,
) -> Result<FirstLost, Halted>
    requires found { IfSome found (OfTest IsFirstLostOf cut) }
    requires running { W.is_stopped watch.old ≡ false }
    ensures first { IfOk result (OfTest IsFirstLostOf cut.entry) }
    ensures stopped { IfErr result (λ halted. halted ≡ Stopped → W.is_stopped watch.new ≡ true) }
{
    match found {
        Some(lost) => Ok(lost),
        None => find_lost(alloc, cut, watch),
    }
}

/// The livelock of the cut that stands so: its first lost schedule, which was found already or is
/// sought now. It is unknown, and none is sought, where a serial run offends or no schedule was cut.
pub(crate) fn seek_livelock<W: Watch>(
    alloc: Global,
    cut: LimitedTest<'_>,
    standing: &Standing,
    found: Option<FirstLost>,
    watch: &mut W,
) -> Result<FirstLost, Halted>
    requires found { IfSome found (OfTest IsFirstLostOf cut) }
    requires running { W.is_stopped watch.old ≡ false }
    ensures livelock { OfTest SeeksLivelock cut.entry standing.now result }
    ensures stopped { IfErr result (λ halted. halted ≡ Stopped → W.is_stopped watch.new ≡ true) }
{
    if !standing.asks_for_lost() {
        return Ok(FirstLost::Unknown);
    }
    found_or_seek(alloc, cut, found, watch)
}
