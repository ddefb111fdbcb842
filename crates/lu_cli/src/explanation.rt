//! Why the history of a schedule has no serial witness.

ghost use Rattle.std.specs.Prelude.{◌<◌, ◌≡◌, IfErr, IfOk};
ghost use Rattle.lu_text.specs.Writing.{Writes};
ghost use Rattle.lu_report.specs.Limits.{IsSerialBound};
ghost use Rattle.lu_test.specs.ScheduleText.{schedule_text};
ghost use Rattle.lu_test.specs.declared.matrix.TheConstants.{MOST_THREADS};
ghost use Rattle.lu_cli.specs.Failing.{ExplainsFindingSerially};
ghost use Rattle.lu_cli.specs.Trace.{RefusesTrace};
ghost use Rattle.lu_cli.specs.Explanation as spec;
ghost use Rattle.lu_cli.specs.Explanation.{EndsSeriallyIn, ExplainsFinding, ExplainsRun, ExplainsSchedule, ExplainsSerially, ExplainsTarget, IsLeastPending, IsPlayed, IsShownBroken, IsShownPart, IsShownThread, LearnsOrSays, PicturesRun, Presents, TellsConflict, TellsNext, WritesNext};

use crate::answer::{Answer, infeasible};
use crate::pictures::draw_why;
use lu_diagnosis::{
    broken_precedence, serial_history, write_conflict, write_next_steps, write_what_happened,
};
use lu_explain::{
    Explanation, Precedence, event_moves, explain as explain_history, write_explanations,
};
use lu_history::{History, HistoryFault, SerialOutcome};
use lu_machine::{Status, Test};
use lu_picture::Diagnosis;
use lu_replay::{Replay, ReplayFault, replay};
use lu_report::{Bounds, Finding, MOST_MOVES, Report};
use lu_serial_graph::{LearntGraph, SerialGraph, learn_graph};
use lu_test::{Schedule, write_schedule};
use lu_trace::{TraceFault, Wording};
use lu_trie::SerialTree;
use lu_witness::{Verdict, verdict};
use std::alloc::{AllocError, Global};

/// What is to be explained.
#[derive(Drop)]
pub(crate) enum Target {
    /// The history of a schedule.
    Schedule(Schedule),

    /// That of the schedule of a report.
    Report(Report),
}

/// How a history is explained.
#[derive(Clone, Copy)]
pub(crate) enum Presentation {
    /// In words.
    Words,

    /// By marks in the picture of its schedule.
    Picture,
}

/// How a history is explained, and the words in which a picture tells what each move does.
#[derive(Clone, Copy)]
pub(crate) struct Presenting<'a> {
    pub(crate) by: Presentation,
    pub(crate) how: Wording<'a>,
}

/// Why nothing is explained.
fn say(alloc: Global, why: &str, schedule: &str) -> Result<Answer, AllocError>
    ensures { IfOk result (λ answer. answer ≡ spec.unexplained why.now schedule.now) }
{
    Ok(Answer {
        text: format!(in alloc; "explain {why}\n{schedule}")?,
        status: 1,
    })
}

/// The same, with a schedule that shows it.
fn say_with(alloc: Global, why: &str, schedule: &Schedule) -> Result<Answer, AllocError>
    ensures { IfOk result (λ a. a ≡ spec.unexplained why.now (schedule_text schedule.now)) }
{
    let text = write_schedule(alloc, schedule)?;
    say(alloc, why, text.as_str())
}

/// What each thread can do next after a schedule, in these words.
fn next_steps(
    alloc: Global,
    how: Wording<'_>,
    test: Test<'_>,
    schedule: &Schedule,
) -> Result<String, TraceFault>
    ensures next { WritesNext how.entry test.entry schedule.now result }
    ensures fault { RefusesTrace test.entry schedule.now result }
{
    write_next_steps(alloc, &how, test.component, test.matrix, schedule)
}

/// Why nothing is explained, and what each thread can do next after the schedule; or where it is
/// infeasible.
pub(crate) fn say_next(
    alloc: Global,
    how: Wording<'_>,
    test: Test<'_>,
    schedule: &Schedule,
    why: &str,
) -> Result<Answer, AllocError>
    ensures { TellsNext why.now how.entry test.entry schedule.now result }
{
    match next_steps(alloc, how, test, schedule) {
        Ok(next) => {
            let text = format!(in alloc; "next\n{next}")?;
            say(alloc, why, text.as_str())
        }
        Err(TraceFault::Infeasible(index)) => infeasible(alloc, index),
        Err(TraceFault::Memory) => Err(AllocError),
    }
}

/// That serial runs differ: both of them up to the difference, with the schedule of this one.
fn say_conflict(
    alloc: Global,
    test: Test<'_>,
    schedule: &Schedule,
    before: usize,
    earlier: SerialOutcome,
) -> Result<Answer, AllocError>
    requires { EndsSeriallyIn test schedule.now }
    ensures { TellsConflict test.entry schedule.now before earlier result }
{
    let Test { component, matrix } = test;
    let history = serial_history(alloc, component, matrix, schedule)?;
    let mut text = write_schedule(alloc, schedule)?;
    write_conflict(&mut text, component, matrix, &history, before, earlier)?;
    say(alloc, "nondeterministic", text.as_str())
}

/// Adds how another serial run differs from this one, which has the same operations before.
fn write_difference(
    text: &mut String,
    before: usize,
    earlier: SerialOutcome,
) -> Result<(), AllocError>
    ensures { Writes result text.old text.new (spec.difference before earlier) }
{
    write!(
        text,
        "another serial run begins with the same {before} calls, and then the same call has the outcome {earlier}, unlike here\n"
    )
}

/// That serial runs differ, as a report says, with its schedule.
fn say_nondeterministic(
    alloc: Global,
    schedule: &Schedule,
    before: usize,
    earlier: SerialOutcome,
) -> Result<Answer, AllocError>
    ensures { IfOk result (λ a. a ≡ spec.nondeterministic schedule.now before earlier) }
{
    let mut text = write_schedule(alloc, schedule)?;
    write_difference(&mut text, before, earlier)?;
    say(alloc, "nondeterministic", text.as_str())
}

/// The status by a verdict.
fn status_by(verdict: Verdict) -> u8
    ensures { result ≡ spec.status_by verdict }
{
    match verdict {
        Verdict::Good => 0,
        Verdict::NoWitness | Verdict::NoWitnessFor(_) => 1,
    }
}

/// A schedule, and what it shows.
#[derive(Clone, Copy)]
struct ShownSchedule<'a> {
    schedule: &'a Schedule,
    shown: &'a Replay,
}

/// What happened in the history of an ended schedule, and its explanation by the serial histories of
/// a tree.
fn explain_by<T: SerialTree>(
    alloc: Global,
    test: Test<'_>,
    tree: &T,
    run: ShownSchedule<'_>,
) -> Result<Answer, AllocError>
    requires { IsPlayed test run }
    ensures { ExplainsRun T.members tree.now test.entry run.entry result }
{
    let Test { component, matrix } = test;
    let ShownSchedule { schedule, shown } = run;
    let history = &shown.history;
    let judged = verdict(tree, history);
    let mut text = write_what_happened(alloc, component, matrix, tree, history, judged)?;
    let moves = event_moves(alloc, component, matrix, schedule)?;
    let why = write_explanations(alloc, component, matrix, tree, history, &moves)?;
    text.push_str(why.as_str())?;
    Ok(Answer {
        text,
        status: status_by(judged),
    })
}

/// The least thread with a pending call, or 0 where there is none.
fn least_pending(history: &History) -> u8
    ensures least { IsLeastPending history.now result }
    ensures few { result < MOST_THREADS }
{
    for t in 0..8 {
        if history.pending(t) {
            return t;
        }
    }
    0
}

/// The thread whose pending call a picture explains.
fn thread_shown(verdict: Verdict, history: &History) -> u8
    ensures { IsShownThread verdict history.now result }
{
    match verdict {
        Verdict::NoWitnessFor(t) => t,
        Verdict::Good | Verdict::NoWitness => least_pending(history),
    }
}

/// The history without the pending calls that its picture does not explain.
fn part_shown<T: SerialTree>(tree: &T, history: &History) -> Result<History, AllocError>
    ensures { IfOk result (IsShownPart (T.members tree.now) history.now) }
{
    let thread = thread_shown(verdict(tree, history), history);
    match history.keep_pending(thread) {
        Ok(part) => Ok(part),
        Err(HistoryFault::Memory) => Err(AllocError),
    }
}

/// The precedence that is broken, if the history has no witness.
fn broken_shown<T: SerialTree>(
    tree: &T,
    part: &History,
    explanation: &Explanation,
) -> Option<Precedence>
    ensures { IsShownBroken (T.members tree.now) part.now explanation.now result }
{
    if explanation.is_witnessed() {
        None
    } else {
        broken_precedence(tree, part)
    }
}

/// The history of an ended schedule, explained in the picture of the schedule.
fn picture_by<T: SerialTree>(
    alloc: Global,
    how: Wording<'_>,
    test: Test<'_>,
    tree: &T,
    run: ShownSchedule<'_>,
) -> Result<Answer, AllocError>
    ensures { PicturesRun how.entry T.members tree.now test.entry run.entry result }
{
    let ShownSchedule { schedule, shown } = run;
    let part = part_shown(tree, &shown.history)?;
    let explanation = explain_history(tree, &part);
    let why = Diagnosis {
        explanation: Some(&explanation),
        broken: broken_shown(tree, &part, &explanation),
    };
    draw_why(alloc, how, test, schedule, why)
}

/// The history of an ended schedule, explained in words or in a picture.
fn present<T: SerialTree>(
    alloc: Global,
    test: Test<'_>,
    tree: &T,
    run: ShownSchedule<'_>,
    by: Presenting<'_>,
) -> Result<Answer, AllocError>
    requires { IsPlayed test run }
    ensures { Presents by.entry T.members tree.now test.entry run.entry result }
{
    match by.by {
        Presentation::Words => explain_by(alloc, test, tree, run),
        Presentation::Picture => picture_by(alloc, by.how, test, tree, run),
    }
}

/// A schedule, explained by the serial histories of a tree, or where it is infeasible. Of one that has
/// not ended it is said what each thread can do next.
fn explain_schedule<T: SerialTree>(
    alloc: Global,
    test: Test<'_>,
    tree: &T,
    schedule: &Schedule,
    by: Presenting<'_>,
) -> Result<Answer, AllocError>
    ensures { ExplainsSchedule by.entry T.members tree.now test.entry schedule.now result }
{
    match replay(alloc, test.component, test.matrix, schedule) {
        Ok(shown) => match shown.status {
            Status::Running => say_next(alloc, by.how, test, schedule, "running"),
            Status::Complete | Status::Stuck => {
                let shown = &shown;
                present(alloc, test, tree, ShownSchedule { schedule, shown }, by)
            }
        },
        Err(ReplayFault::Infeasible(index)) => infeasible(alloc, index),
        Err(ReplayFault::Memory) => Err(AllocError),
    }
}

/// The schedule of a finding, explained by the serial histories of a tree, where it is a failure.
fn explain_finding<T: SerialTree>(
    alloc: Global,
    test: Test<'_>,
    tree: &T,
    finding: &Finding,
    by: Presenting<'_>,
) -> Result<Answer, AllocError>
    ensures { ExplainsFinding by.entry T.members tree.now test.entry finding.now result }
{
    match finding {
        Finding::SerialCut(schedule) => say_with(alloc, "serial-cut", schedule),
        Finding::Nondeterministic {
            schedule,
            before,
            earlier,
        } => say_nondeterministic(alloc, schedule, *before, *earlier),
        Finding::Fail { schedule, .. } => { explain_schedule(alloc, test, tree, schedule, by) }
        Finding::Pass(_) => say(alloc, "pass", ""),
    }
}

/// A schedule or that of a report, explained by the serial histories of a tree.
pub(crate) fn explain<T: SerialTree>(
    alloc: Global,
    test: Test<'_>,
    tree: &T,
    target: &Target,
    by: Presenting<'_>,
) -> Result<Answer, AllocError>
    ensures { ExplainsTarget by.entry T.members tree.now test.entry target.now result }
{
    match target {
        Target::Schedule(schedule) => { explain_schedule(alloc, test, tree, schedule, by) }
        Target::Report(report) => { explain_finding(alloc, test, tree, report.finding(), by) }
    }
}

/// The serial histories of a test as a graph; or, where one of its serial runs offends, what is said of that.
fn learn_or_say(
    alloc: Global,
    test: Test<'_>,
    serial: u16,
) -> Result<Result<SerialGraph<Global>, Answer>, AllocError>
    requires { IsSerialBound serial }
    ensures { LearnsOrSays test.entry serial result }
{
    match learn_graph(alloc, alloc, test.component, test.matrix, serial)? {
        LearntGraph::Set(graph) => Ok(Ok(graph)),
        LearntGraph::Cut(schedule) => Ok(Err(say_with(alloc, "serial-cut", &schedule)?)),
        LearntGraph::Conflict {
            schedule,
            before,
            earlier,
        } => Ok(Err(say_conflict(alloc, test, &schedule, before, earlier)?)),
    }
}

/// The schedule of a finding, explained by the serial runs within the bounds of a certificate, or
/// that one of these offends.
pub(crate) fn explain_finding_serially(
    alloc: Global,
    test: Test<'_>,
    finding: &Finding,
    by: Presenting<'_>,
) -> Result<Answer, AllocError>
    ensures { ExplainsFindingSerially by.entry test.entry finding.now result }
{
    match learn_or_say(alloc, test, MOST_MOVES)? {
        Ok(graph) => explain_finding(alloc, test, &&graph, finding, by),
        Err(answer) => Ok(answer),
    }
}

/// A schedule or that of a report, explained by the serial runs, or that one of these offends.
pub(crate) fn explain_serially(
    alloc: Global,
    test: Test<'_>,
    bounds: Bounds,
    target: &Target,
    by: Presenting<'_>,
) -> Result<Answer, AllocError>
    ensures { ExplainsSerially by.entry bounds test.entry target.now result }
{
    match learn_or_say(alloc, test, bounds.serial())? {
        Ok(graph) => explain(alloc, test, &&graph, target, by),
        Err(answer) => Ok(answer),
    }
}
