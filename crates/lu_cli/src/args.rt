//! What the command line asks for.

ghost use Rattle.std.specs.Prelude.{◌≡◌, ◌≤◌, false, IfOk, IsErrOf, Some, None};
ghost use Rattle.clap.specs.Words.{found_of, rows_of, rule_of, subcommand_rows_of};
ghost use Rattle.lu_cli.specs.declared.request.ArgsFault.TheVariants.{Refused};
ghost use Rattle.lu_cli.specs.Args as spec;
ghost use Rattle.lu_cli.specs.Args.{AddsCommand, AddsOption, IsApp, IsCommandOf, IsProgramOf, choice_of, lineup, request_said};
ghost use Rattle.lu_cli.specs.Table.{option_said};

use crate::request::{
    ArgsFault, BundleCommand, CampaignOptions, CampaignPart, CampaignThreads, CampaignTrial,
    CertifyOptions, LintRequest, Repetition, Request, Showing, TraceStart, Tracing,
};
use crate::table::{CommandRow, Kind, OptionRow, commands, options};
use clap::builder::ValueParser;
use clap::error::ErrorKind;
use clap::{Arg, ArgAction, ArgMatches, Command};
use lu_parallel::Options;
use lu_report::{Bounds, MOST_MOVES};
use lu_spec::Marks;
use lu_trace::Detail;
use std::alloc::{AllocError, Global};
use std::convert::AsStr;

/// How many looks of its watch the search of one worker lasts before there are more: a minute.
const HEAD_START: u64 = 16_777_216;

/// How many nodes take a MiB. A node of a search is taken to have 512 bytes with its tables.
const NODES_OF_A_MIB: u32 = 2048;

/// The option of a row.
fn option_of<'a>(alloc: Global, row: &OptionRow) -> Arg<'a>
    ensures rule { rule_of result ≡ spec.option_rule (option_said row.now) }
    ensures local { result.global ≡ false }
{
    let option = Arg::new(alloc, row.name).long(row.name);
    let option = match row.kind {
        Kind::Flag => return option.action(ArgAction::SetTrue),
        Kind::Number { least, most } => {
            option.value_parser(ValueParser::Signed(i64::from(least), i64::from(most)))
        }
        Kind::Long => option.value_parser(ValueParser::Unsigned(0, u64::MAX)),
    };
    match row.default {
        None => option,
        Some(default) => option.default_value(default),
    }
}

/// Whether the command with this name takes the option of a row.
fn takes(name: &str, row: &OptionRow) -> bool
    ensures { result ≡ spec.takes name.now (option_said row.now) }
{
    row.commands.contains(&name)
}

/// A command with this name and the option of a row, if it takes that.
fn with_option<'a>(
    alloc: Global,
    name: &str,
    command: Command<'a>,
    row: &OptionRow,
) -> Result<Command<'a>, AllocError>
    ensures { AddsOption name.now command.entry row.now result }
{
    if takes(name, row) {
        command.arg(option_of(alloc, row))
    } else {
        Ok(command)
    }
}

/// The command of a row, with its options.
fn command_of<'a>(
    alloc: Global,
    row: &CommandRow,
    options: &[OptionRow],
) -> Result<Command<'a>, AllocError>
    ensures { IfOk result (IsCommandOf row.now options.now) }
{
    let mut command = Command::new(alloc, row.name);
    for option in options {
        command = with_option(alloc, row.name, command, option)?;
    }
    Ok(command)
}

/// A program with the command of a row.
fn with_command<'a>(
    alloc: Global,
    program: Command<'a>,
    row: &CommandRow,
    options: &[OptionRow],
) -> Result<Command<'a>, AllocError>
    ensures { AddsCommand options.now program.entry row.now result }
{
    program.subcommand(command_of(alloc, row, options)?)
}

/// The program without its commands. It takes the words after its name, and its `help` is a
/// command of its own.
fn bare_program<'a>(alloc: Global) -> Command<'a>
    ensures { IsApp spec.program result }
{
    Command::new(alloc, "lineup")
        .no_binary_name(true)
        .subcommand_required(true)
        .disable_help_subcommand(true)
}

/// The program of a table.
fn program_of<'a>(
    alloc: Global,
    rows: &[CommandRow],
    options: &[OptionRow],
) -> Result<Command<'a>, AllocError>
    ensures { IfOk result (IsProgramOf rows.now options.now) }
{
    let mut program = bare_program(alloc);
    for row in rows {
        program = with_command(alloc, program, row, options)?;
    }
    Ok(program)
}

fn lineup_command<'a>(alloc: Global) -> Result<Command<'a>, AllocError>
    ensures { IfOk result (IsApp lineup) }
{
    program_of(alloc, commands(), options())
}

fn number_named(given: &ArgMatches<'_>, name: &str) -> Option<u16>
    ensures { result ≡ spec.number_named name.now (rows_of (found_of given.now)) }
{
    given.get_one::<u16>(name)
}

fn nodes_in(given: &ArgMatches<'_>) -> Option<u32>
    ensures { result ≡ spec.nodes_in (rows_of (found_of given.now)) }
{
    given.get_one::<u32>("nodes")
}

fn long_number_in(given: &ArgMatches<'_>, name: &str) -> Option<u64>
    ensures { result ≡ spec.long_number_in name.now (rows_of (found_of given.now)) }
{
    given.get_one::<u64>(name)
}

fn flag_in(given: &ArgMatches<'_>, name: &str) -> bool
    ensures { result ≡ spec.flag_in name.now (rows_of (found_of given.now)) }
{
    given.get_one::<bool>(name).unwrap_or(false)
}

fn bounds_in(given: &ArgMatches<'_>) -> Option<Bounds>
    ensures { result ≡ spec.limits_in (rows_of (found_of given.now)) }
{
    let bound = number_named(given, "bound")?;
    let serial = number_named(given, "serial")?;
    Bounds::new(bound, serial)
}

/// The options with pieces of this many moves. Where that is not said, one worker has a head start,
/// and then pieces have 4.
fn options_with(bound: u16, serial: u16, workers: u16, depth: Option<u16>) -> Option<Options>
    ensures { result ≡ choice_of (spec.choice_for bound serial workers depth) }
{
    let workers = u8::try_from(workers).ok()?;
    match depth {
        None => {
            let options = Options::new(bound, serial, workers, 4)?;
            Some(options.with_head_start(HEAD_START))
        }
        Some(depth) => Options::new(bound, serial, workers, u8::try_from(depth).ok()?),
    }
}

fn options_in(given: &ArgMatches<'_>) -> Option<Options>
    ensures { result ≡ spec.choice_in (rows_of (found_of given.now)) }
{
    let bound = number_named(given, "bound")?;
    let serial = number_named(given, "serial")?;
    let workers = number_named(given, "workers")?;
    options_with(bound, serial, workers, number_named(given, "depth"))
}

/// This many threads.
fn alike(threads: u16) -> Option<CampaignThreads>
    ensures { result ≡ spec.alike threads }
{
    let threads = u8::try_from(threads).ok()?;
    Some(CampaignThreads::Alike(threads))
}

/// Which threads `--by-thread` and `--threads` ask for.
fn threads_in(given: &ArgMatches<'_>) -> Option<CampaignThreads>
    ensures { result ≡ spec.threads_in (rows_of (found_of given.now)) }
{
    match (flag_in(given, "by-thread"), number_named(given, "threads")) {
        (true, None) => Some(CampaignThreads::Own),
        (true, Some(_)) => None,
        (false, None) => alike(2),
        (false, Some(threads)) => alike(threads),
    }
}

/// What is asked of a campaign.
fn part_in(given: &ArgMatches<'_>) -> Option<CampaignPart>
    ensures { result ≡ spec.part_in (rows_of (found_of given.now)) }
{
    let from = long_number_in(given, "from")?;
    let upto = long_number_in(given, "upto")?;
    if upto < from {
        None
    } else if flag_in(given, "count") {
        Some(CampaignPart::Count)
    } else if from == 0 && upto == u64::MAX {
        Some(CampaignPart::Whole)
    } else {
        Some(CampaignPart::Slice { from, upto })
    }
}

/// What `--certify`, `--all` and `--spec` ask of each matrix: `--all` goes with `--certify`, and
/// `--spec` stands alone.
fn trial_in(given: &ArgMatches<'_>) -> Option<CampaignTrial>
    ensures { result ≡ spec.trial_in (rows_of (found_of given.now)) }
{
    let flags = (
        flag_in(given, "certify"),
        flag_in(given, "all"),
        flag_in(given, "spec"),
    );
    match flags {
        (false, false, _) => Some(CampaignTrial::Checked),
        (true, false, false) => Some(CampaignTrial::Certified),
        (true, true, false) => Some(CampaignTrial::Surveyed),
        _ => None,
    }
}

/// The bounds of a campaign: where they are left out those of `certify` or of `check`.
fn campaign_bounds(trial: CampaignTrial, bound: Option<u16>, serial: Option<u16>) -> Option<Bounds>
    ensures { result ≡ spec.campaign_limits trial bound serial }
{
    let default = match trial {
        CampaignTrial::Checked => 40,
        CampaignTrial::Certified | CampaignTrial::Surveyed => MOST_MOVES,
    };
    Bounds::new(bound.unwrap_or(default), serial.unwrap_or(default))
}

fn campaign_options_in(given: &ArgMatches<'_>) -> Option<CampaignOptions>
    ensures { result ≡ spec.campaign_options_in (rows_of (found_of given.now)) }
{
    let trial = trial_in(given)?;
    let (bound, serial) = (number_named(given, "bound"), number_named(given, "serial"));
    let bounds = campaign_bounds(trial, bound, serial)?;
    let threads = threads_in(given)?;
    let calls = number_named(given, "calls")?;
    let part = part_in(given)?;
    let calls = u8::try_from(calls).ok()?;
    Some(CampaignOptions {
        bounds,
        threads,
        calls,
        part,
        trial,
    })
}

/// A campaign, or one that holds the component against a trusted one.
fn campaign_in(given: &ArgMatches<'_>) -> Option<BundleCommand>
    ensures { result ≡ spec.campaign_in (rows_of (found_of given.now)) }
{
    let options = campaign_options_in(given)?;
    if flag_in(given, "spec") {
        Some(BundleCommand::CampaignAgainst(options))
    } else {
        Some(BundleCommand::Campaign(options))
    }
}

/// Whether a specification may have marks.
fn marks_in(given: &ArgMatches<'_>) -> Marks
    ensures { result ≡ spec.marks_in (rows_of (found_of given.now)) }
{
    if flag_in(given, "marks") {
        Marks::Allowed
    } else {
        Marks::Refused
    }
}

/// A check against the serial runs, or one against a specification.
fn check_in(given: &ArgMatches<'_>) -> Option<BundleCommand>
    ensures { result ≡ spec.check_in (rows_of (found_of given.now)) }
{
    let options = options_in(given)?;
    if flag_in(given, "spec") {
        Some(BundleCommand::CheckAgainst(options, marks_in(given)))
    } else {
        Some(BundleCommand::Check(options))
    }
}

/// The most nodes of each worker: as many as it is to have at most, and no more than fit in this
/// many MiB.
fn nodes_within(nodes: u32, memory: Option<u16>, workers: u8) -> u32
    requires { 1 ≤ workers }
    ensures { result ≡ spec.nodes_within nodes memory workers }
{
    match memory {
        None => nodes,
        Some(memory) => nodes.min(u32::from(memory) * NODES_OF_A_MIB / u32::from(workers)),
    }
}

fn certify_options_in(given: &ArgMatches<'_>) -> Option<CertifyOptions>
    ensures { result ≡ spec.certify_options_in (rows_of (found_of given.now)) }
{
    let options = options_in(given)?;
    let local = number_named(given, "local")?;
    let nodes = nodes_in(given)?;
    let memory = number_named(given, "memory");
    Some(CertifyOptions {
        options,
        local,
        nodes: nodes_within(nodes, memory, options.workers()),
    })
}

/// How often threads make their lines, where that is asked.
fn repetition_in(given: &ArgMatches<'_>) -> Option<Repetition>
    ensures { result ≡ spec.repetition_in (rows_of (found_of given.now)) }
{
    if flag_in(given, "forever") {
        return Some(Repetition::Forever);
    }
    number_named(given, "rounds").map(Repetition::UpTo)
}

/// A certificate of a matrix, or of all matrices that are unrolled from it.
fn certify_in(given: &ArgMatches<'_>) -> Option<BundleCommand>
    ensures { result ≡ spec.certify_in (rows_of (found_of given.now)) }
{
    let asked = certify_options_in(given)?;
    match repetition_in(given) {
        Some(repetition) => Some(BundleCommand::CertifyUnrolled(asked, repetition)),
        None => Some(BundleCommand::Certify(asked)),
    }
}

/// A judgement by the serial runs, or one by a specification.
fn witness_in(given: &ArgMatches<'_>) -> Option<BundleCommand>
    ensures { result ≡ spec.witness_in (rows_of (found_of given.now)) }
{
    let bounds = bounds_in(given)?;
    if flag_in(given, "spec") {
        Some(BundleCommand::WitnessAgainst(marks_in(given)))
    } else {
        Some(BundleCommand::Witness(bounds))
    }
}

/// How many histories are shown, or by which schedules too.
fn conform_in(given: &ArgMatches<'_>) -> BundleCommand
    ensures { result ≡ spec.conform_in (rows_of (found_of given.now)) }
{
    if flag_in(given, "show") {
        BundleCommand::Conform(Showing::Schedules)
    } else {
        BundleCommand::Conform(Showing::Count)
    }
}

/// Where a trace begins.
fn start_in(given: &ArgMatches<'_>) -> TraceStart
    ensures { result ≡ spec.start_in (rows_of (found_of given.now)) }
{
    if flag_in(given, "setup") {
        TraceStart::Setup
    } else {
        TraceStart::FirstMove
    }
}

/// Which steps it shows.
fn detail_in(given: &ArgMatches<'_>) -> Detail
    ensures { result ≡ spec.detail_in (rows_of (found_of given.now)) }
{
    if flag_in(given, "brief") {
        Detail::SharedSteps
    } else {
        Detail::EachStep
    }
}

/// A trace.
fn trace_in(given: &ArgMatches<'_>) -> BundleCommand
    ensures { result ≡ spec.trace_in (rows_of (found_of given.now)) }
{
    BundleCommand::Trace(Tracing {
        start: start_in(given),
        detail: detail_in(given),
    })
}

/// A picture, or one with an explanation.
fn draw_in(given: &ArgMatches<'_>) -> Option<BundleCommand>
    ensures { result ≡ spec.draw_in (rows_of (found_of given.now)) }
{
    let serial = number_named(given, "serial")?;
    let bounds = Bounds::new(0, serial)?;
    if flag_in(given, "explain") {
        Some(BundleCommand::DrawExplained(bounds))
    } else {
        Some(BundleCommand::Draw)
    }
}

/// An explanation by the serial runs, or one by a specification.
fn explain_in(given: &ArgMatches<'_>) -> Option<BundleCommand>
    ensures { result ≡ spec.explain_in (rows_of (found_of given.now)) }
{
    let serial = number_named(given, "serial")?;
    let bounds = Bounds::new(0, serial)?;
    if flag_in(given, "spec") {
        Some(BundleCommand::ExplainAgainst(marks_in(given)))
    } else {
        Some(BundleCommand::Explain(bounds))
    }
}

/// The request of a command's name and of what is given to the command.
fn command_by(name: &str, given: &ArgMatches<'_>) -> Option<BundleCommand>
    ensures { result ≡ spec.command_by name.now (rows_of (found_of given.now)) }
{
    match name {
        "replay" => Some(BundleCommand::Replay),
        "trace" => Some(trace_in(given)),
        "draw" => draw_in(given),
        "explain" => explain_in(given),
        "serial" => bounds_in(given).map(BundleCommand::Serial),
        "spec" => Some(BundleCommand::Spec),
        "check" => check_in(given),
        "witness" => witness_in(given),
        "conform" => Some(conform_in(given)),
        "certify" => certify_in(given),
        "refute" => Some(BundleCommand::Refute),
        "shrink" => bounds_in(given).map(BundleCommand::Shrink),
        "campaign" => campaign_in(given),
        "compile" => Some(BundleCommand::Compile),
        _ => None,
    }
}

/// How a bundle is linted. No schedule is bounded.
fn lint_in(given: &ArgMatches<'_>) -> Option<Request>
    ensures { result ≡ spec.lint_in (rows_of (found_of given.now)) }
{
    let serial = number_named(given, "serial")?;
    let bounds = Bounds::new(0, serial)?;
    let marks = marks_in(given);
    Some(Request::Lint(LintRequest { bounds, marks }))
}

/// A command over a bundle, which may begin with a source where `--source` says so.
fn over_bundle(given: &ArgMatches<'_>, command: BundleCommand) -> Request
    ensures { result ≡ spec.over_bundle (rows_of (found_of given.now)) command }
{
    if flag_in(given, "source") {
        Request::BundleWithSource(command)
    } else {
        Request::Bundle(command)
    }
}

/// What a command's name and what is given to the command ask for.
fn request_by(name: &str, given: &ArgMatches<'_>) -> Option<Request>
    ensures { result ≡ spec.request_by name.now (rows_of (found_of given.now)) }
{
    match name {
        "commands" => Some(Request::Commands),
        "lint" => lint_in(given),
        _ => {
            let command = command_by(name, given)?;
            Some(over_bundle(given, command))
        }
    }
}

/// What a parse asks for.
fn request_in(matches: &ArgMatches<'_>) -> Option<Request>
    ensures { result ≡ spec.request_in (subcommand_rows_of matches.now) }
{
    let (name, given) = matches.subcommand()?;
    request_by(name, given)
}

/// What the words after the program's name ask for. The definitions of the command line are those
/// of `clap`.
pub fn read_request<'a, S: AsStr>(alloc: Global, words: &'a [S]) -> Result<Request, ArgsFault>
    ensures found { IfOk result (λ request. request_said S.text words.entry.now ≡ Some request) }
    ensures refused { IsErrOf result Refused → request_said S.text words.entry.now ≡ None }
{
    let Ok(command) = lineup_command(alloc) else {
        return Err(ArgsFault::Memory);
    };
    let matches = match command.try_get_matches_from(words) {
        Ok(matches) => matches,
        Err(error) => {
            return Err(match error.kind() {
                ErrorKind::OutOfMemory => ArgsFault::Memory,
                _ => ArgsFault::Refused,
            });
        }
    };
    request_in(&matches).ok_or(ArgsFault::Refused)
}
