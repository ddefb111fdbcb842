//! Cuts that are looked at.

ghost use Rattle.std.specs.Prelude.{◌≡◌, ◌<◌, IfErr, IfOk, IfSome, OnOk, false, true};
ghost use Rattle.lu_graph.specs.declared.halted.Halted.TheVariants.{Stopped};
ghost use Rattle.lu_certify.specs.Limited.{AreFoundIn, IsFoundIn, IsReportAtBounds, OfTest};
ghost use Rattle.lu_certify.specs.declared.judged.Standing.TheVariants.{Good};
ghost use Rattle.lu_certify.specs.Certificates.{IsLivelockFree};
ghost use Rattle.lu_certify.specs.Looking.{IsFound, IsLooked, TellsUnclear};
ghost use Rattle.lu_certify.specs.Cuts.{IsFirstLostOf, IsJudged, IsStanding, cut_count};

use crate::asked::Asked;
use crate::claims::{Claims, End, Part, Task};
use crate::cut_watch::{CutWatch, NodeCount};
use crate::cuts::{count_cuts, cut_at};
use crate::judged::{Judged, Standing};
use crate::judging::{judge, judge_checked};
use crate::limited::LimitedTest;
use crate::livelock::{find_lost, seek_livelock};
use crate::looked::{Found, FoundAt, Looked};
use crate::progress::Progress;
use lu_graph::{Alone, Expanders, FirstLost, Halted, Watch, unhalted};
use lu_parallel::check_one;
use lu_report::Report;
use std::alloc::{AllocError, Global};

/// The report of the cut that stands so, if it is not clear, where that is asked: it is not known
/// whether a schedule leads to a state from which none ends. A cut whose ended schedules are good is
/// clear then only where no schedule is cut at the bound.
fn unclear_report(
    alloc: Global,
    cut: LimitedTest<'_>,
    standing: Standing,
    asked: Asked,
) -> Result<Option<Report>, AllocError>
    requires standing { OfTest IsStanding cut standing }
    requires unknown { standing ≡ Good → OfTest IsLivelockFree cut → ⊥ }
    ensures { IfOk result (OfTest (TellsUnclear asked) cut.entry) }
{
    match standing {
        Standing::FullPass => Ok(None),
        Standing::Open(report) => Ok(Some(report)),
        Standing::Good => match asked {
            Asked::Clearness => {
                let (bound, serial) = (cut.limits.bound, cut.limits.serial);
                let report = check_one(alloc, alloc, cut.component, cut.matrix, bound, serial)?;
                if report.is_full_pass() {
                    return Ok(None);
                }
                Ok(Some(report))
            }
            Asked::LivelockOnly => Ok(None),
            Asked::FailureOnly => Ok(None),
        },
    }
}

/// What was found of the cut that stands so, which does not fail: its livelock, and whether it is
/// clear, where these are asked.
fn look_standing<W: Watch>(
    alloc: Global,
    cut: LimitedTest<'_>,
    standing: Standing,
    lost: Option<FirstLost>,
    asked: Asked,
    watch: &mut W,
) -> Result<Looked, Halted>
    requires standing { OfTest IsStanding cut standing }
    requires lost { IfSome lost (OfTest IsFirstLostOf cut) }
    requires running { W.is_stopped watch.old ≡ false }
    ensures looked { IfOk result (OfTest (IsLooked asked) cut.entry) }
    ensures stopped { IfErr result (λ halted. halted ≡ Stopped → W.is_stopped watch.new ≡ true) }
{
    match seek_livelock(alloc, cut, &standing, lost, watch)? {
        FirstLost::First(schedule) => Ok(Looked::Stands {
            livelock: Some(schedule),
            unclear: None,
        }),
        FirstLost::Never => Ok(Looked::Stands {
            livelock: None,
            unclear: standing.report(),
        }),
        FirstLost::Unknown => {
            let unclear = unclear_report(alloc, cut, standing, asked)?;
            Ok(Looked::Stands {
                livelock: None,
                unclear,
            })
        }
    }
}

/// What was found of the cut that is judged so, as far as it is asked.
fn look_judged<W: Watch>(
    alloc: Global,
    cut: LimitedTest<'_>,
    judged: Judged,
    lost: Option<FirstLost>,
    asked: Asked,
    watch: &mut W,
) -> Result<Looked, Halted>
    requires judged { OfTest IsJudged cut judged }
    requires lost { IfSome lost (OfTest IsFirstLostOf cut) }
    requires running { W.is_stopped watch.old ≡ false }
    ensures looked { IfOk result (OfTest (IsLooked asked) cut.entry) }
    ensures stopped { IfErr result (λ halted. halted ≡ Stopped → W.is_stopped watch.new ≡ true) }
{
    match judged {
        Judged::Failing(report) => Ok(Looked::Failing(report)),
        Judged::Stands(standing) => match asked {
            Asked::FailureOnly => Ok(Looked::Stands {
                livelock: None,
                unclear: None,
            }),
            _ => look_standing(alloc, cut, standing, lost, asked, watch),
        },
    }
}

/// How the cut is judged: as was found already, or else by its nodes first, where that is to be
/// tried.
fn found_or_judge<W: Watch, E: Expanders>(
    alloc: Global,
    cut: LimitedTest<'_>,
    found: Option<Judged>,
    nodes_first: bool,
    watch: &mut W,
    expanders: &E,
) -> Result<Judged, Halted>
    requires found { IfSome found (OfTest IsJudged cut) }
    requires running { W.is_stopped watch.old ≡ false }
    ensures judged { IfOk result (OfTest IsJudged cut.entry) }
    ensures stopped { IfErr result (λ halted. halted ≡ Stopped → W.is_stopped watch.new ≡ true) }
    ensures running { OnOk result (W.is_stopped watch.new ≡ false) }
{
    match found {
        Some(judged) => Ok(judged),
        None => judge(alloc, cut, nodes_first, watch, expanders),
    }
}

/// Looks at a cut of which this was found already.
fn look<W: Watch, E: Expanders>(
    alloc: Global,
    cut: LimitedTest<'_>,
    found: Found,
    nodes_first: bool,
    asked: Asked,
    watch: &mut W,
    expanders: &E,
) -> Result<Looked, Halted>
    requires found { OfTest IsFound cut found }
    requires running { W.is_stopped watch.old ≡ false }
    ensures looked { IfOk result (OfTest (IsLooked asked) cut.entry) }
    ensures stopped { IfErr result (λ halted. halted ≡ Stopped → W.is_stopped watch.new ≡ true) }
{
    let Found { judged, lost } = found;
    let judged = found_or_judge(alloc, cut, judged, nodes_first, watch, expanders)?;
    look_judged(alloc, cut, judged, lost, asked, watch)
}

/// Looks at a cut that has this report at the bounds.
fn look_checked<W: Watch, E: Expanders>(
    alloc: Global,
    cut: LimitedTest<'_>,
    report: Report,
    asked: Asked,
    watch: &mut W,
    expanders: &E,
) -> Result<Looked, Halted>
    requires report { OfTest IsReportAtBounds cut report }
    requires running { W.is_stopped watch.old ≡ false }
    ensures looked { IfOk result (OfTest (IsLooked asked) cut.entry) }
    ensures stopped { IfErr result (λ halted. halted ≡ Stopped → W.is_stopped watch.new ≡ true) }
{
    let judged = judge_checked(alloc, cut, report, false, watch, expanders)?;
    look_judged(alloc, cut, judged, None, asked, watch)
}

/// Looks at a cut of which this was found already, on the calling thread.
pub(crate) fn look_further<P: Progress>(
    alloc: Global,
    cut: LimitedTest<'_>,
    found: Found,
    nodes_first: bool,
    asked: Asked,
    progress: &P,
) -> Result<Looked, AllocError>
    requires found { OfTest IsFound cut found }
    ensures { IfOk result (OfTest (IsLooked asked) cut.entry) }
{
    let was_judged = found.judged.is_some();
    let mut count = NodeCount::new(progress);
    let result = look(alloc, cut, found, nodes_first, asked, &mut count, &Alone);
    count.report_done(was_judged);
    unhalted(result)
}

/// Looks at a cut that has this report at the bounds, on the calling thread.
pub(crate) fn look_after_check<P: Progress>(
    alloc: Global,
    cut: LimitedTest<'_>,
    report: Report,
    asked: Asked,
    progress: &P,
) -> Result<Looked, AllocError>
    requires report { OfTest IsReportAtBounds cut report }
    ensures { IfOk result (OfTest (IsLooked asked) cut.entry) }
{
    let mut count = NodeCount::new(progress);
    let result = look_checked(alloc, cut, report, asked, &mut count, &Alone);
    count.report_done(false);
    unhalted(result)
}

/// What is found of the cut that is judged so: its first lost schedule too, where it asks for one.
fn with_lost<W: Watch>(
    alloc: Global,
    cut: LimitedTest<'_>,
    judged: Judged,
    watch: &mut W,
) -> Result<Found, Halted>
    requires judged { OfTest IsJudged cut judged }
    requires running { W.is_stopped watch.old ≡ false }
    ensures { IfOk result (OfTest IsFound cut.entry) }
{
    let lost = match &judged {
        Judged::Failing(_) => None,
        Judged::Stands(standing) => {
            if standing.asks_for_lost() {
                Some(find_lost(alloc, cut, watch)?)
            } else {
                None
            }
        }
    };
    Ok(Found {
        judged: Some(judged),
        lost,
    })
}

/// Finds a part of what is to be known of a cut, by its nodes first.
fn find_part<W: Watch, E: Expanders>(
    alloc: Global,
    cut: LimitedTest<'_>,
    part: Part,
    watch: &mut W,
    expanders: &E,
) -> Result<Found, Halted>
    requires running { W.is_stopped watch.old ≡ false }
    ensures { IfOk result (OfTest IsFound cut.entry) }
{
    match part {
        Part::Both => {
            let judged = judge(alloc, cut, true, watch, expanders)?;
            with_lost(alloc, cut, judged, watch)
        }
        Part::Judged => {
            let judged = judge(alloc, cut, true, watch, expanders)?;
            Ok(Found {
                judged: Some(judged),
                lost: None,
            })
        }
        Part::Lost => {
            let lost = find_lost(alloc, cut, watch)?;
            Ok(Found {
                judged: None,
                lost: Some(lost),
            })
        }
    }
}

/// Does what is to be done at the cut of the task.
fn find_at<W: Watch, E: Expanders>(
    alloc: Global,
    test: LimitedTest<'_>,
    task: Task,
    watch: &mut W,
    expanders: &E,
) -> Result<Found, Halted>
    requires number { task.number < cut_count test.matrix.now }
    requires running { W.is_stopped watch.old ≡ false }
    ensures { IfOk result (IsFoundIn test.entry task.number) }
{
    let matrix = cut_at(alloc, test.matrix, task.number)?;
    let cut = LimitedTest {
        component: test.component,
        matrix: &matrix,
        limits: test.limits,
    };
    find_part(alloc, cut, task.part, watch, expanders)
}

/// The life of a worker: it takes what is to do, from this end on, until nothing is left, and lists
/// what it found of each cut. What is in no list was left out since it is not wanted, or since
/// memory was refused.
pub(crate) fn look_at_cuts<P: Progress, E: Expanders>(
    alloc: Global,
    test: LimitedTest<'_>,
    claims: &Claims,
    end: End,
    progress: &P,
    expanders: &E,
) -> Vec<FoundAt>
    ensures { AreFoundIn test.entry result }
{
    let cuts = count_cuts(test.matrix);
    let mut list = Vec::new(alloc);
    for _ in 0..cuts.saturating_add(1) {
        let Some(task) = claims.next(end, cuts) else {
            claims.rest();
            return list;
        };
        let mut watch = CutWatch::new(progress, &claims.last_wanted, task.position());
        let result = find_at(alloc, test, task, &mut watch, expanders);
        claims.report(progress, task.part, watch.nodes());
        match result {
            Ok(found) => {
                let number = task.number;
                claims.note(number, cuts, &found);
                if list.reserve(1).is_err() {
                    return list;
                }
                list.push_reserved(FoundAt { number, found });
            }
            Err(Halted::Stopped) => {}
            Err(Halted::Memory) => return list,
        }
    }
    list
}
