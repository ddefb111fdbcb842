//! Whether a component is linearizable on all matrices that are unrolled from one.

ghost use Rattle.std.specs.Prelude.{◌≡◌, ◌↔◌, IfOk, IfSome, IsTrue, string_bytes, true};
ghost use Rattle.lu_text.specs.Lines.{texts};
ghost use Rattle.lu_machine.specs.Starts.{CanRun};
ghost use Rattle.lu_report.specs.Limits.{IsSerialBound};
ghost use Rattle.lu_cli.specs.Unrolled as spec;
ghost use Rattle.lu_cli.specs.Unrolled.{CertifiesRounds, CertifiesUnrolled, IsAgainst, IsAnswerToCertifyUnrolled, ShowsUnrolled};
ghost use Rattle.lu_test.specs.Schedule.{AreMoves, IsMove};
ghost use Rattle.lu_cli.specs.Refusals.{Answered};

use crate::answer::{Answer, show_certificate, verdict};
use crate::certify::certified_local;
use crate::refusal::Refusal;
use crate::request::{CertifyOptions, Repetition};
use crate::serial::MOST_LISTED;
use crate::texts::read_texts;
use lu_answers::Rounds;
use lu_certify::{Certificate, Limits, Progress};
use lu_component::Component;
use lu_forever::{Budget, RoundsVerdict, certify_rounds, unroll_for, with_rounds};
use lu_grain::certify_longer;
use lu_machine::Test;
use lu_serial_graph::{LearntGraph, learn_graph};
use lu_test::{Matrix, Move, Schedule, write_schedule};
use lu_text::exactly_two;
use std::alloc::{AllocError, Global};

/// Whether the certificate says that the matrix is not linearizable, or has a livelock.
fn is_against(certificate: &Certificate) -> bool
    ensures { result ≡ true → IsAgainst certificate.now }
{
    matches!(
        certificate,
        Certificate::NotLinearizable { .. } | Certificate::Livelock { .. }
    )
}

/// Whether a certificate of the matrix would have to list too many serial histories.
fn has_too_many(
    alloc: Global,
    component: &Component,
    matrix: &Matrix,
    serial: u16,
) -> Result<bool, AllocError>
    requires of { CanRun component.now matrix.now }
    requires few { IsSerialBound serial }
{
    match learn_graph(alloc, alloc, component, matrix, serial)? {
        LearntGraph::Set(graph) => Ok(graph.member_count() > MOST_LISTED),
        LearntGraph::Cut(_) => Ok(false),
        LearntGraph::Conflict { .. } => Ok(false),
    }
}

/// The certificate of the matrix whose calls are made in these moves, if it has a text and not too
/// many serial histories, and if the certificate says that it is not linearizable or has a livelock.
fn show_unrolled(
    alloc: Global,
    test: Test<'_>,
    rounds: Rounds,
    asked: CertifyOptions,
    moves: &[Move],
) -> Result<Option<Answer>, AllocError>
    ensures { IfOk result (λ shown. IfSome shown
        (ShowsUnrolled test.entry.component.now rounds test.entry.matrix.now asked)) }
{
    let component = test.component;
    let Some(matrix) = unroll_for(alloc, component, test.matrix, rounds, moves)? else {
        return Ok(None);
    };
    if has_too_many(alloc, component, &matrix, asked.options.serial())? {
        return Ok(None);
    }
    let local = certified_local(asked, component);
    let limits = Limits::of(asked.options, asked.nodes);
    let certificate = certify_longer(alloc, component, &matrix, local, limits)?;
    if !is_against(&certificate) {
        return Ok(None);
    }
    Ok(Some(show_certificate(alloc, component, &certificate)?))
}

/// Whether a move of a schedule may be this one.
fn is_move(next: &Move) -> bool
    ensures { IsTrue result ↔ IsMove next.now }
{
    next.thread <= 7 && next.pick <= 7
}

/// Whether a schedule may have these moves.
fn are_moves(moves: &[Move]) -> bool
    ensures { IsTrue result ↔ AreMoves moves.now }
{
    moves.len() <= 4112 && moves.iter().all(is_move)
}

/// In how many rounds the matrix is searched: one, where each line is there as often as it is made.
fn rounds_of(repetition: Repetition) -> Rounds
    ensures { result ≡ spec.rounds_of repetition }
{
    match repetition {
        Repetition::UpTo(_) => Rounds::One,
        Repetition::Forever => Rounds::Any,
    }
}

/// The line that says how often threads make their lines.
fn rounds_line(alloc: Global, repetition: Repetition) -> Result<String, AllocError>
    ensures { IfOk result (λ line. string_bytes line ≡ spec.rounds_line repetition) }
{
    match repetition {
        Repetition::UpTo(rounds) => format!(in alloc; "rounds {rounds}\n"),
        Repetition::Forever => String::from_str(alloc, "rounds any\n"),
    }
}

/// A verdict in these words alone.
fn show_words(alloc: Global, repetition: Repetition, words: &str) -> Result<Answer, AllocError>
    ensures { IfOk result (λ answer. answer ≡ spec.by_words repetition words.now) }
{
    let line = rounds_line(alloc, repetition)?;
    Ok(Answer {
        text: format!(in alloc; "{words}\n{line}")?,
        status: 1,
    })
}

/// A verdict in these words, by this schedule of an unrolled matrix; or the words alone where it is
/// too long for a text.
fn show_moves(
    alloc: Global,
    repetition: Repetition,
    words: &str,
    moves: Vec<Move>,
) -> Result<Answer, AllocError>
    ensures { IfOk result (spec.ShowsMoves repetition words.now moves.items) }
{
    if !are_moves(&moves) {
        return show_words(alloc, repetition, words);
    }
    let text = write_schedule(alloc, &Schedule::new(moves))?;
    verdict(alloc, words, text.as_str(), 1)
}

/// A verdict in these words: the certificate of an unrolled matrix, or this schedule of it.
fn show_by_schedule(
    alloc: Global,
    test: Test<'_>,
    asked: CertifyOptions,
    repetition: Repetition,
    words: &str,
    moves: Vec<Move>,
) -> Result<Answer, AllocError>
    ensures { spec.ShowsSchedule test.entry asked repetition words.now moves.items result }
{
    if let Some(answer) = show_unrolled(alloc, test, rounds_of(repetition), asked, &moves)? {
        return Ok(answer);
    }
    show_moves(alloc, repetition, words, moves)
}

/// That a call of a serial run has two outcomes, or takes more moves than this.
fn show_offence(alloc: Global, bound: u16) -> Result<Answer, AllocError>
    ensures { IfOk result (λ answer. answer ≡ spec.serial_offence bound) }
{
    let why = format!(in alloc;
        "a call that runs alone has two outcomes, or takes more than {bound} moves\n"
    )?;
    verdict(alloc, "undecided", why.as_str(), 3)
}

/// That this many nodes give no verdict.
fn show_limit(alloc: Global, most: u32) -> Result<Answer, AllocError>
    ensures { IfOk result (λ answer. answer ≡ spec.no_verdict most) }
{
    let why = format!(in alloc; "no verdict within {most} nodes\n")?;
    verdict(alloc, "undecided", why.as_str(), 3)
}

/// That this many rounds make more calls than a matrix may have.
fn show_too_many(alloc: Global, rounds: u16) -> Result<Answer, AllocError>
    ensures { IfOk result (λ answer. answer ≡ spec.too_many_calls rounds) }
{
    let why = format!(in alloc; "{rounds} rounds make more calls than a matrix may have\n")?;
    verdict(alloc, "undecided", why.as_str(), 3)
}

/// That every unrolled matrix is linearizable.
fn show_linearizable(alloc: Global, repetition: Repetition) -> Result<Answer, AllocError>
    ensures { IfOk result (λ answer. answer ≡ spec.always_linearizable repetition) }
{
    let line = rounds_line(alloc, repetition)?;
    Ok(Answer {
        text: format!(in alloc; "linearizable\n{line}")?,
        status: 0,
    })
}

/// What a verdict on all matrices that are unrolled from this one is shown as.
fn show_verdict(
    alloc: Global,
    test: Test<'_>,
    asked: CertifyOptions,
    repetition: Repetition,
    found: RoundsVerdict,
) -> Result<Answer, AllocError>
    ensures { spec.ShowsFound test.entry asked repetition found result }
{
    match found {
        RoundsVerdict::Linearizable => show_linearizable(alloc, repetition),
        RoundsVerdict::NotLinearizable(moves) => {
            show_by_schedule(alloc, test, asked, repetition, "not linearizable", moves)
        }
        RoundsVerdict::Livelock(moves) => {
            show_by_schedule(alloc, test, asked, repetition, "livelock", moves)
        }
        RoundsVerdict::Offends => show_offence(alloc, asked.options.serial()),
        RoundsVerdict::Undecided => show_limit(alloc, asked.nodes),
    }
}

/// The verdict on all matrices in which each thread makes its line of this one the number of times
/// given by the repetition.
pub(crate) fn certify_all<P: Progress>(
    alloc: Global,
    progress: &P,
    test: Test<'_>,
    asked: CertifyOptions,
    repetition: Repetition,
) -> Result<Answer, AllocError>
    ensures { CertifiesRounds test.entry asked repetition result }
{
    let serial = asked.options.serial();
    let budget = Budget {
        most: asked.nodes as usize,
        progress,
    };
    let rounds = rounds_of(repetition);
    let found = certify_rounds(alloc, test.component, test.matrix, rounds, serial, budget)?;
    show_verdict(alloc, test, asked, repetition, found)
}

/// The verdict on all matrices that are unrolled from this one.
fn certify_unrolled<P: Progress>(
    alloc: Global,
    progress: &P,
    test: Test<'_>,
    asked: CertifyOptions,
    repetition: Repetition,
) -> Result<Answer, AllocError>
    ensures { CertifiesUnrolled test.entry asked repetition result }
{
    match repetition {
        Repetition::Forever => certify_all(alloc, progress, test, asked, repetition),
        Repetition::UpTo(many) => {
            match with_rounds(alloc, test.component, test.matrix, many)? {
                None => show_too_many(alloc, many),
                Some(matrix) => {
                    let unrolled = Test {
                        component: test.component,
                        matrix: &matrix,
                    };
                    certify_all(alloc, progress, unrolled, asked, repetition)
                }
            }
        }
    }
}

/// `lineup certify --rounds`, `lineup certify --forever`: component and matrix, on the calling
/// thread. It tells meanwhile how far it has come.
pub(crate) fn answer_certify_unrolled<P: Progress>(
    alloc: Global,
    progress: &P,
    asked: CertifyOptions,
    repetition: Repetition,
    parts: &[&[u8]],
) -> Result<Answer, Refusal>
    ensures { Answered (IsAnswerToCertifyUnrolled asked repetition (texts parts.now)) result }
{
    let (component, matrix) = exactly_two(parts).ok_or(Refusal::Parts)?;
    let case = read_texts(alloc, component, matrix)?;
    let test = Test {
        component: &case.component,
        matrix: &case.matrix,
    };
    Ok(certify_unrolled(alloc, progress, test, asked, repetition)?)
}
