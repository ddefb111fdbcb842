//! The whole program over a reader and a writer.

ghost use Rattle.std.specs.Prelude.{◌≡◌, ◌≢◌, ◌<◌, ◌≤◌, ◌-◌, ◌^◌, ◌⊎◌, length, Some, None, IfOk, IsErrOf};
ghost use Rattle.lu_cli.specs.declared.request.Request.TheVariants.{Bundle, BundleWithSource, Commands, Lint};
ghost use Rattle.lu_cli.specs.declared.program.Failure.TheVariants.{Memory};
ghost use Rattle.lu_cli.specs.Args.{request_said};
ghost use Rattle.lu_cli.specs.Counted.{IsUnfailed};
ghost use Rattle.lu_cli.specs.Inputs.{most_bytes};
ghost use Rattle.lu_cli.specs.Outcomes.{no_command};
ghost use Rattle.lu_cli.specs.Program.{IsAnswerToInput, IsAnswerToRead, IsAnswerToWords, SaysAnswer, SaysNoCommand, Sends, TellsElse, TellsUnread};

use crate::answer::{Answer, refused};
use crate::args::read_request;
use crate::commands::{carry_out, carry_out_alone};
use crate::counted::Counted;
use crate::help::answer_help;
use crate::input::{InputFault, MOST_BYTES, read_input};
use crate::lint::answer_lint;
use crate::output::write_text;
use crate::refusal::or_refusal;
use crate::request::{ArgsFault, BundleCommand, LintRequest, Request};
use crate::sources::{carry_out_with_source, carry_out_with_source_alone};
use lu_certify::{Progress, Silent};
use lu_text::bundle_parts;
use std::alloc::{AllocError, Global};
use std::convert::AsStr;
use std::io::{Read, Write};
use std::sync::Wait;
use std::thread::Threads;

/// Why there is no answer.
#[derive(Clone, Copy)]
enum Failure {
    /// Memory was refused.
    Memory,

    /// A read failed.
    Device,
}

impl From<AllocError> for Failure {
    ghost from_gives = { λ _ e. e ≡ Memory };

    fn from(_e: AllocError) -> Failure {
        Failure::Memory
    }
}

/// The answer to a request, and to a bundle that is not too long.
fn answer_bundle<X: AllocGlobal + Threads + Wait, P: Progress>(
    rt: &X,
    progress: &P,
    request: Request,
    bundle: &[u8],
) -> Result<Answer, AllocError>
    requires { length bundle.now ≤ most_bytes }
    ensures { IfOk result (IsAnswerToInput request bundle.now) }
{
    match request {
        Request::Commands => answer_help(rt.alloc()),
        Request::Lint(asked) => answer_lint(rt.alloc(), asked, bundle),
        Request::Bundle(command) => {
            let parts = bundle_parts(rt.alloc(), bundle)?;
            or_refusal(rt.alloc(), carry_out(rt, progress, command, &parts))
        }
        Request::BundleWithSource(command) => {
            let carried = carry_out_with_source(rt, progress, command, bundle);
            or_refusal(rt.alloc(), carried)
        }
    }
}

/// The answer to a request, and to what is read for it.
fn answer_read<X: AllocGlobal + Threads + Wait, P: Progress, R: Read>(
    rt: &X,
    progress: &P,
    request: Request,
    input: &mut Counted<R>,
) -> Result<Answer, Failure>
    requires calls { input.old.failures < 2 ^ 64 - 1 }
    requires reads { request ≢ Commands }
    ensures answer { IfOk result (IsAnswerToRead request (R.remaining input.old.inner)) }
    ensures device { IsErrOf result Failure.Device → input.old.failures < input.new.failures }
    ensures unfailed { IsErrOf result Failure.Device ⊎ IsUnfailed input.old input.new }
{
    match read_input(rt.alloc(), input) {
        Ok(bundle) => Ok(answer_bundle(rt, progress, request, &bundle)?),
        Err(InputFault::TooLong) => Ok(refused(rt.alloc(), "B2")?),
        Err(InputFault::Device) => Err(Failure::Device),
        Err(InputFault::Memory) => Err(Failure::Memory),
    }
}

/// The answer to what is asked for, and to what is read for it. For the list of commands nothing is
/// read.
fn answer_in<X: AllocGlobal + Threads + Wait, P: Progress, R: Read>(
    rt: &X,
    progress: &P,
    request: Request,
    input: &mut Counted<R>,
) -> Result<Answer, Failure>
    requires { input.old.failures < 2 ^ 64 - 1 }
    ensures answer { IfOk result (IsAnswerToRead request (R.remaining input.old.inner)) }
    ensures idle { request ≡ Commands → input.new ≡ input.old }
    ensures device { IsErrOf result Failure.Device → input.old.failures < input.new.failures }
    ensures unfailed { IsErrOf result Failure.Device ⊎ IsUnfailed input.old input.new }
{
    match request {
        Request::Commands => Ok(answer_help(rt.alloc())?),
        Request::Lint(_) | Request::Bundle(_) | Request::BundleWithSource(_) => answer_read(
            rt, progress, request, input,
        ),
    }
}

/// The answer to the words of a command line and to what is read for them.
fn answer_for<X: AllocGlobal + Threads + Wait, P: Progress, S: AsStr, R: Read>(
    rt: &X,
    progress: &P,
    words: &[S],
    input: &mut Counted<R>,
) -> Result<Answer, Failure>
    requires { input.old.failures < 2 ^ 64 - 1 }
    ensures answer { IfOk result (IsAnswerToWords S.text words.now (R.remaining input.old.inner)) }
    ensures refused { IfOk result (λ r.
        request_said S.text words.now ≡ None → r ≡ no_command) }
    ensures early { request_said S.text words.now ≡ None → input.new ≡ input.old }
    ensures idle { request_said S.text words.now ≡ Some Commands → input.new ≡ input.old }
    ensures device { IsErrOf result Failure.Device → input.old.failures < input.new.failures }
    ensures unfailed { IsErrOf result Failure.Device ⊎ IsUnfailed input.old input.new }
{
    match read_request(rt.alloc(), words) {
        Ok(request) => answer_in(rt, progress, request, input),
        Err(ArgsFault::Refused) => Ok(refuse_command(rt.alloc())?),
        Err(ArgsFault::Memory) => Err(Failure::Memory),
    }
}

/// That the command line is refused.
fn refuse_command(alloc: Global) -> Result<Answer, AllocError>
    ensures { IfOk result (λ r. r ≡ no_command) }
{
    refused(alloc, "command line")
}

/// Runs the program on the words after its name, and returns its exit status: 0 where all is well,
/// 1 for a failure, for nondeterminism, for what is not linearizable and for an infeasible
/// schedule, 2 for a refusal, 3 for a serial cut and where the bounds do not decide, and 4 where
/// memory, the start of a worker's thread or a device failed. No call of the reader or the writer
/// that failed is tried again; both counts of failures have to be below 2^64 - 1. A check with two
/// workers or more waits for them.
/// Checks, certificates and campaigns tell `progress` meanwhile how far they have come.
pub fn run_with_progress<X: AllocGlobal + Threads + Wait, P: Progress, S: AsStr, R: Read, W: Write>(
    rt: &X,
    progress: &P,
    words: &[S],
    input: &mut Counted<R>,
    output: &mut Counted<W>,
) -> u8
    requires reads { input.old.failures < 2 ^ 64 - 1 }
    requires writes { output.old.failures < 2 ^ 64 - 1 }
    // Where the command line was accepted and no read and no write failed, the answer goes out.
    ensures answer { SaysAnswer S.text words.now R.remaining input W.contents output result }
    // Where it was refused, that is said, and nothing is read.
    ensures refused { SaysNoCommand S.text words.now W.contents output result }
    // The command line is judged before anything is read.
    ensures early { request_said S.text words.now ≡ None → input.new ≡ input.old }
    // For the list of commands nothing is read.
    ensures idle { request_said S.text words.now ≡ Some Commands → input.new ≡ input.old }
    // A write that failed shows in the status.
    ensures unwritten { output.old.failures < output.new.failures → result ≡ 4 }
    // A read that failed is reported.
    ensures unread { TellsUnread W.contents input output result }
    // And it is reported only then.
    ensures blamed { TellsElse W.contents input output result }
{
    match answer_for(rt, progress, words, input) {
        Ok(answer) => say(output, answer.text.as_str(), answer.status),
        Err(Failure::Memory) => say(output, "refused memory\n", 4),
        Err(Failure::Device) => say(output, "refused device\n", 4),
    }
}

/// As [`run_with_progress`], where nobody is shown how far the command has come.
pub fn run<X: AllocGlobal + Threads + Wait, S: AsStr, R: Read, W: Write>(
    rt: &X,
    words: &[S],
    input: &mut Counted<R>,
    output: &mut Counted<W>,
) -> u8
    requires reads { input.old.failures < 2 ^ 64 - 1 }
    requires writes { output.old.failures < 2 ^ 64 - 1 }
    ensures answer { SaysAnswer S.text words.now R.remaining input W.contents output result }
    ensures refused { SaysNoCommand S.text words.now W.contents output result }
    ensures early { request_said S.text words.now ≡ None → input.new ≡ input.old }
    ensures idle { request_said S.text words.now ≡ Some Commands → input.new ≡ input.old }
    ensures unwritten { output.old.failures < output.new.failures → result ≡ 4 }
    ensures unread { TellsUnread W.contents input output result }
    ensures blamed { TellsElse W.contents input output result }
{
    run_with_progress(rt, &Silent, words, input, output)
}

/// Writes a text, and returns this status, or 4 where a write failed.
fn say<W: Write>(output: &mut Counted<W>, text: &str, status: u8) -> u8
    requires { output.old.failures < 2 ^ 64 - 1 }
    ensures sent { Sends W.contents text.now status output.old output.new result }
    ensures unwritten { output.old.failures < output.new.failures → result ≡ 4 }
    ensures same { output.old.failures ≤ output.new.failures }
{
    if write_text(output, text.as_bytes()) {
        status
    } else {
        4
    }
}

/// What `lint` answers to a bundle.
fn lint_alone(alloc: Global, asked: LintRequest, bundle: &[u8]) -> Result<Answer, AllocError>
    ensures { IfOk result (IsAnswerToInput (Lint asked) bundle.now) }
{
    if bundle.len() > MOST_BYTES {
        refused(alloc, "B2")
    } else {
        answer_lint(alloc, asked, bundle)
    }
}

/// The answer to a command and a bundle.
fn command_alone(alloc: Global, command: BundleCommand, bundle: &[u8]) -> Result<Answer, AllocError>
    ensures { IfOk result (IsAnswerToInput (Bundle command) bundle.now) }
{
    if bundle.len() > MOST_BYTES {
        return refused(alloc, "B2");
    }
    let parts = bundle_parts(alloc, bundle)?;
    or_refusal(alloc, carry_out_alone(alloc, command, &parts))
}

/// The answer to a command and a bundle that may begin with a source.
fn source_alone(alloc: Global, command: BundleCommand, bundle: &[u8]) -> Result<Answer, AllocError>
    ensures { IfOk result (IsAnswerToInput (BundleWithSource command) bundle.now) }
{
    if bundle.len() > MOST_BYTES {
        return refused(alloc, "B2");
    }
    or_refusal(alloc, carry_out_with_source_alone(alloc, command, bundle))
}

/// The answer to what is asked for and a bundle. All is done on the calling thread.
///
/// # Errors
///
/// `AllocError` where memory was refused.
pub fn answer_request(alloc: Global, request: Request, bundle: &[u8]) -> Result<Answer, AllocError>
    ensures { IfOk result (IsAnswerToInput request bundle.now) }
{
    match request {
        Request::Commands => answer_help(alloc),
        Request::Lint(asked) => lint_alone(alloc, asked, bundle),
        Request::Bundle(command) => command_alone(alloc, command, bundle),
        Request::BundleWithSource(command) => source_alone(alloc, command, bundle),
    }
}

/// What the program answers to the words after its name and to a bundle. All is done on the
/// calling thread, however many workers the words ask for; the answer is the same for any number of
/// them.
///
/// # Errors
///
/// `AllocError` where memory was refused.
pub fn answer_alone<S: AsStr>(
    alloc: Global,
    words: &[S],
    bundle: &[u8],
) -> Result<Answer, AllocError>
    ensures answer { IfOk result (IsAnswerToWords S.text words.now (Some bundle.now)) }
    ensures refused { IfOk result (λ r.
        request_said S.text words.now ≡ None → r ≡ no_command) }
{
    match read_request(alloc, words) {
        Ok(request) => answer_request(alloc, request, bundle),
        Err(ArgsFault::Refused) => refuse_command(alloc),
        Err(ArgsFault::Memory) => Err(AllocError),
    }
}
