//! What is answered to each command.

ghost use Rattle.lu_text.specs.Lines.{texts};
ghost use Rattle.lu_cli.specs.Refusals.{Answered};
ghost use Rattle.lu_cli.specs.Commands as spec;

use crate::answer::Answer;
use crate::by_matrix::ByMatrix;
use crate::campaign::answer_campaign;
use crate::campaign_against::answer_campaign_against;
use crate::certify::{answer_certify, answer_certify_alone};
use crate::check::{
    answer_check, answer_check_against, answer_check_against_alone, answer_check_alone,
};
use crate::compile::answer_compile;
use crate::conform::answer_conform;
use crate::explain::{answer_explain, answer_explain_against};
use crate::explanation::Presentation;
use crate::failing::RunView;
use crate::refusal::Refusal;
use crate::refute::answer_refute;
use crate::replay::answer_replay;
use crate::request::BundleCommand;
use crate::serial::answer_serial;
use crate::shown::answer_shown;
use crate::shrink::answer_shrink;
use crate::spec::answer_spec;
use crate::unrolled::answer_certify_unrolled;
use crate::witness::{answer_witness, answer_witness_against};
use lu_certify::{Progress, Silent};
use lu_refine::Unshown;
use std::alloc::Global;
use std::sync::Wait;
use std::thread::Threads;

/// The answer to a command and the parts of a bundle, or why it is refused, with all done on the
/// calling thread, however many workers are asked for.
pub(crate) fn carry_out_alone(
    alloc: Global,
    command: BundleCommand,
    parts: &[&[u8]],
) -> Result<Answer, Refusal>
    ensures { Answered (spec.IsAnswerToCommand command (texts parts.now)) result }
{
    match command {
        BundleCommand::Replay => answer_replay(alloc, parts),
        BundleCommand::Trace(tracing) => answer_shown(alloc, parts, RunView::Trace(tracing)),
        BundleCommand::Draw => answer_shown(alloc, parts, RunView::Picture),
        BundleCommand::DrawExplained(bounds) => {
            answer_explain(alloc, bounds, parts, Presentation::Picture)
        }
        BundleCommand::Explain(bounds) => answer_explain(alloc, bounds, parts, Presentation::Words),
        BundleCommand::ExplainAgainst(marks) => answer_explain_against(alloc, marks, parts),
        BundleCommand::Serial(bounds) => answer_serial(alloc, bounds, parts),
        BundleCommand::Witness(bounds) => answer_witness(alloc, bounds, parts),
        BundleCommand::WitnessAgainst(marks) => answer_witness_against(alloc, marks, parts),
        BundleCommand::Conform(showing) => answer_conform(alloc, showing, parts),
        BundleCommand::Spec => answer_spec(alloc, parts),
        BundleCommand::Check(options) => answer_check_alone(alloc, options, parts),
        BundleCommand::CheckAgainst(options, marks) => {
            answer_check_against_alone(alloc, options, marks, parts)
        },
        BundleCommand::Certify(asked) => answer_certify_alone(alloc, asked, parts),
        BundleCommand::CertifyUnrolled(asked, repetition) => {
            answer_certify_unrolled(alloc, &Silent, asked, repetition, parts)
        }
        BundleCommand::Refute => answer_refute(alloc, parts),
        BundleCommand::Shrink(bounds) => answer_shrink(alloc, bounds, parts),
        BundleCommand::Campaign(options) => answer_campaign(alloc, &Unshown, options, parts),
        BundleCommand::CampaignAgainst(options) => {
            answer_campaign_against(alloc, &Unshown, options, parts)
        }
        BundleCommand::Compile => answer_compile(alloc, parts),
    }
}

/// The answer to a command and the parts of a bundle, or why it is refused. Checks, certificates and
/// campaigns tell meanwhile how far they have come.
pub(crate) fn carry_out<X: AllocGlobal + Threads + Wait, P: Progress>(
    rt: &X,
    progress: &P,
    command: BundleCommand,
    parts: &[&[u8]],
) -> Result<Answer, Refusal>
    ensures { Answered (spec.IsAnswerToCommand command (texts parts.now)) result }
{
    match command {
        BundleCommand::Check(options) => answer_check(rt, progress, options, parts),
        BundleCommand::CheckAgainst(options, marks) => {
            answer_check_against(rt, progress, options, marks, parts)
        },
        BundleCommand::Certify(asked) => answer_certify(rt, progress, asked, parts),
        BundleCommand::CertifyUnrolled(asked, repetition) => {
            answer_certify_unrolled(rt.alloc(), progress, asked, repetition, parts)
        }
        BundleCommand::Campaign(options) => {
            answer_campaign(rt.alloc(), &ByMatrix { progress }, options, parts)
        }
        BundleCommand::CampaignAgainst(options) => {
            answer_campaign_against(rt.alloc(), &ByMatrix { progress }, options, parts)
        }
        _ => carry_out_alone(rt.alloc(), command, parts),
    }
}
