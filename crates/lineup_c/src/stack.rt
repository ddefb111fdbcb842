//! How much stack a command takes.

ghost use Rattle.std.specs.Prelude.{◌≡◌};
ghost use Rattle.lineup_c.specs.Stack as spec;

use lu_cli::{BundleCommand, Request};
use lu_report::MOST_MOVES;

/// How many bytes of stack a search takes at most: 128 KiB, and 2 KiB for each move of a schedule
/// up to the bound, or half a KiB for each move of 16 operations that run alone. So much was
/// measured.
fn stack_within(bound: u16, serial: u16) -> usize
    ensures { result ≡ spec.stack_within bound serial }
{
    131_072 + (2_048 * usize::from(bound)).max(8_192 * (usize::from(serial) + 1))
}

/// The same of a command: by the bounds that it is given, or by the greatest.
fn stack_of_command(command: &BundleCommand) -> usize
    ensures { result ≡ spec.stack_of_command command.now }
{
    match command {
        BundleCommand::Replay
        | BundleCommand::ExplainAgainst(_)
        | BundleCommand::WitnessAgainst(_)
        | BundleCommand::Conform(_)
        | BundleCommand::Spec => stack_within(0, 0),
        BundleCommand::Trace(_)
        | BundleCommand::Draw
        | BundleCommand::DrawExplained(_)
        | BundleCommand::Explain(_)
        | BundleCommand::Refute => stack_within(MOST_MOVES, MOST_MOVES),
        BundleCommand::Serial(bounds) | BundleCommand::Witness(bounds) => {
            stack_within(0, bounds.serial())
        }
        BundleCommand::Check(options) => stack_within(options.bound(), options.serial()),
        BundleCommand::CheckAgainst(options, _) => stack_within(options.bound(), 0),
        BundleCommand::Certify(asked) | BundleCommand::CertifyUnrolled(asked, _) => {
            stack_within(MOST_MOVES, asked.options.serial())
        }
        BundleCommand::Shrink(bounds) => stack_within(bounds.bound(), bounds.serial()),
        BundleCommand::Campaign(options) => stack_within(MOST_MOVES, options.bounds.serial()),
        BundleCommand::CampaignAgainst(options) => {
            stack_within(options.bounds.bound(), options.bounds.serial())
        }
        BundleCommand::Compile => stack_within(MOST_MOVES, 0),
    }
}

/// How many bytes of stack it takes at most to answer a request.
pub(crate) fn stack_for(request: &Request) -> usize
    ensures { result ≡ spec.stack_for request.now }
{
    match request {
        Request::Commands => stack_within(0, 0),
        Request::Lint(asked) => stack_within(0, asked.bounds.serial()),
        Request::Bundle(command) => stack_of_command(command),
        Request::BundleWithSource(command) => {
            stack_of_command(&BundleCommand::Compile).max(stack_of_command(command))
        }
    }
}
