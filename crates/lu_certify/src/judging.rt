//! Whether a cut fails, and how it stands where it does not.

ghost use Rattle.std.specs.Prelude.{◌≡◌, false, true, IfErr, IfOk, OnOk};
ghost use Rattle.lu_graph.specs.declared.halted.Halted.TheVariants.{Stopped};
ghost use Rattle.lu_certify.specs.Limited.{IsReportAtBounds, OfTest};
ghost use Rattle.lu_certify.specs.Cuts.{IsJudged, IsJudgedFirst, IsLeftOpen, IsShownByNodes};

use crate::by_nodes::ByNodes;
use crate::judged::{Judged, Standing};
use crate::limited::LimitedTest;
use lu_component::{Component, Instr};
use lu_graph::{Expanders, Halted, Watch, ends_well_watched};
use lu_parallel::check_one;
use lu_report::{Finding, Report};
use lu_serial_graph::{LearntGraph, learn_graph};
use std::alloc::Global;

/// Whether an instruction leads back to one that stands before it, or to itself.
fn leads_back(instrs: &[Instr]) -> bool {
    for place in 0..instrs.len() {
        let target = match &instrs[place] {
            Instr::Jump(target) => *target,
            Instr::JumpIfZero { value: _, target } => *target,
            _ => u8::MAX,
        };
        if usize::from(target) <= place {
            return true;
        }
    }
    false
}

/// Whether an operation of the component has an instruction that leads back, so that threads may
/// spin. No clause says so: it only says what is tried first.
pub(crate) fn may_spin(component: &Component) -> bool {
    for op in component.operations() {
        if leads_back(op.code.instrs()) {
            return true;
        }
    }
    false
}

/// What the nodes of the cut show.
fn search_nodes<W: Watch, E: Expanders>(
    alloc: Global,
    cut: LimitedTest<'_>,
    watch: &mut W,
    expanders: &E,
) -> Result<ByNodes, Halted>
    requires running { W.is_stopped watch.old ≡ false }
    ensures shown { IfOk result (OfTest IsShownByNodes cut.entry) }
    ensures stopped { IfErr result (λ halted. halted ≡ Stopped → W.is_stopped watch.new ≡ true) }
    ensures running { OnOk result (W.is_stopped watch.new ≡ false) }
{
    match learn_graph(alloc, alloc, cut.component, cut.matrix, cut.limits.serial)? {
        LearntGraph::Set(graph) => {
            let (bound, nodes) = (cut.limits.bound, cut.limits.nodes);
            let ending = ends_well_watched(
                alloc,
                cut.component,
                cut.matrix,
                &&graph,
                bound,
                nodes,
                watch,
                expanders,
            )?;
            Ok(ByNodes::of(ending, bound))
        }
        LearntGraph::Cut(_) => Ok(ByNodes::Nothing),
        LearntGraph::Conflict { .. } => Ok(ByNodes::Nothing),
    }
}

/// What is found of the cut by its nodes, where that is to be tried first; none where it is not, or
/// where they show nothing.
pub(crate) fn judge_first<W: Watch, E: Expanders>(
    alloc: Global,
    is_tried: bool,
    cut: LimitedTest<'_>,
    watch: &mut W,
    expanders: &E,
) -> Result<Option<Judged>, Halted>
    requires running { W.is_stopped watch.old ≡ false }
    ensures judged { IfOk result (OfTest (IsJudgedFirst is_tried) cut.entry) }
    ensures stopped { IfErr result (λ halted. halted ≡ Stopped → W.is_stopped watch.new ≡ true) }
    ensures running { OnOk result (W.is_stopped watch.new ≡ false) }
{
    if !is_tried {
        return Ok(None);
    }
    match search_nodes(alloc, cut, watch, expanders)? {
        ByNodes::AllGood => Ok(Some(Judged::Stands(Standing::Good))),
        ByNodes::BadAfter(moves) => {
            let serial = cut.limits.serial;
            let report = check_one(alloc, alloc, cut.component, cut.matrix, moves, serial)?;
            Ok(Some(Judged::Failing(report)))
        }
        ByNodes::Nothing => Ok(None),
    }
}

/// What is found of the cut that has this report at the bounds. Asks that its nodes show nothing,
/// where that was tried.
pub(crate) fn judge_checked<W: Watch, E: Expanders>(
    alloc: Global,
    cut: LimitedTest<'_>,
    report: Report,
    was_tried: bool,
    watch: &mut W,
    expanders: &E,
) -> Result<Judged, Halted>
    requires report { OfTest IsReportAtBounds cut report }
    requires tried { was_tried ≡ true → OfTest IsLeftOpen cut }
    requires running { W.is_stopped watch.old ≡ false }
    ensures judged { IfOk result (OfTest IsJudged cut.entry) }
    ensures stopped { IfErr result (λ halted. halted ≡ Stopped → W.is_stopped watch.new ≡ true) }
    ensures running { OnOk result (W.is_stopped watch.new ≡ false) }
{
    if report.is_failure() {
        return Ok(Judged::Failing(report));
    }
    if report.is_full_pass() {
        return Ok(Judged::Stands(Standing::FullPass));
    }
    match judge_first(alloc, !was_tried, cut, watch, expanders)? {
        Some(judged) => Ok(judged),
        None => Ok(Judged::Stands(Standing::Open(report))),
    }
}

/// What is found of the cut, all on the calling thread. Its nodes are gone through first, where
/// that is to be tried, and else where its schedules leave it open.
pub(crate) fn judge<W: Watch, E: Expanders>(
    alloc: Global,
    cut: LimitedTest<'_>,
    nodes_first: bool,
    watch: &mut W,
    expanders: &E,
) -> Result<Judged, Halted>
    requires running { W.is_stopped watch.old ≡ false }
    ensures judged { IfOk result (OfTest IsJudged cut.entry) }
    ensures stopped { IfErr result (λ halted. halted ≡ Stopped → W.is_stopped watch.new ≡ true) }
    ensures running { OnOk result (W.is_stopped watch.new ≡ false) }
{
    match judge_first(alloc, nodes_first, cut, watch, expanders)? {
        Some(judged) => Ok(judged),
        None => {
            let (bound, serial) = (cut.limits.bound, cut.limits.serial);
            let report = check_one(alloc, alloc, cut.component, cut.matrix, bound, serial)?;
            judge_checked(alloc, cut, report, nodes_first, watch, expanders)
        }
    }
}
