//! Bundles that may begin with a source.

ghost use Rattle.std.specs.Prelude.{◌≡◌, IfErr, IfOk, Ok};
ghost use Rattle.lu_text.specs.Lines.{texts};
ghost use Rattle.lu_source_text.specs.Readers.{component_meant};
ghost use Rattle.lu_cli.specs.Refusals.{Answered};
ghost use Rattle.lu_cli.specs.Sources.{IsAnswerWithSource, IsRefusalOfSource, bundle_meant, in_place};

use crate::answer::Answer;
use crate::commands::{carry_out, carry_out_alone};
use crate::compile::read_source;
use crate::lint::bundle_of;
use crate::refusal::Refusal;
use crate::request::BundleCommand;
use lu_certify::Progress;
use lu_source_text::is_source;
use lu_text::bundle_parts;
use std::alloc::Global;
use std::sync::Wait;
use std::thread::Threads;

/// The component of a source, with these parts after it.
fn compiled(alloc: Global, source: &[u8], parts: &[&[u8]]) -> Result<Vec<u8>, Refusal>
    ensures read { IfOk result (λ bundle.
        in_place (texts parts.now) (component_meant source.now) ≡ Ok bundle.items) }
    ensures refused { IfErr result
        (IsRefusalOfSource (in_place (texts parts.now) (component_meant source.now))) }
{
    let component = read_source(alloc, source)?;
    Ok(bundle_of(alloc, &component, parts)?)
}

/// The bundle, where it begins with a source with the source's component in its place.
fn without_source(alloc: Global, bundle: &[u8]) -> Result<Vec<u8>, Refusal>
    ensures read { IfOk result (λ meant. bundle_meant bundle.now ≡ Ok meant.items) }
    ensures refused { IfErr result (IsRefusalOfSource (bundle_meant bundle.now)) }
{
    let parts = bundle_parts(alloc, bundle)?;
    if let Some((first, rest)) = parts.split_first() {
        if is_source(alloc, first)? {
            return compiled(alloc, first, rest);
        }
    }
    Ok(bundle.to_vec(alloc)?)
}

/// The answer to a command and a bundle that may begin with a source, or why it is refused.
pub(crate) fn carry_out_with_source<X: AllocGlobal + Threads + Wait, P: Progress>(
    rt: &X,
    progress: &P,
    command: BundleCommand,
    bundle: &[u8],
) -> Result<Answer, Refusal>
    ensures { Answered (IsAnswerWithSource command bundle.now) result }
{
    let bundle = without_source(rt.alloc(), bundle)?;
    let parts = bundle_parts(rt.alloc(), &bundle)?;
    carry_out(rt, progress, command, &parts)
}

/// The same with all done on the calling thread, however many workers are asked for.
pub(crate) fn carry_out_with_source_alone(
    alloc: Global,
    command: BundleCommand,
    bundle: &[u8],
) -> Result<Answer, Refusal>
    ensures { Answered (IsAnswerWithSource command bundle.now) result }
{
    let bundle = without_source(alloc, bundle)?;
    let parts = bundle_parts(alloc, &bundle)?;
    carry_out_alone(alloc, command, &parts)
}
