//! What the calls of a matrix are judged by where its component has faults.

ghost use Rattle.std.specs.Prelude.{◌≡◌};
ghost use Rattle.lu_component.specs.declared.component.TheConstants.{MOST_OPS};
ghost use Rattle.lu_text.specs.Results.{HasItems};
ghost use Rattle.lu_lint.specs.Items.{Extends};
ghost use Rattle.lu_lint.specs.Signatures as spec;
ghost use Rattle.lu_lint.specs.Signatures.{signature_once};

use lu_component::{MOST_OPS, Op, operation_number};
use lu_lang::FaultyDraft;
use lu_test::Signature;
use lu_text::Name;
use std::alloc::{AllocError, Global};

/// Whether the operation that is open has this name.
fn is_open(faulty: &FaultyDraft, name: &[u8]) -> bool
    ensures { result ≡ spec.is_open faulty.now name.now }
{
    faulty
        .draft
        .begun
        .as_ref()
        .is_some_and(|op| op.name.is(name))
}

/// The signature of an operation. How many arguments it takes is not known where a line that begins
/// it has a fault.
fn signature_in<'a>(faulty: &FaultyDraft, name: &'a Name, args: u8) -> Signature<'a>
    ensures { result ≡ spec.signature_in faulty.now name.entry.now args }
{
    let arity = if faulty.is_unsure(name.as_bytes()) {
        None
    } else {
        Some(args)
    };
    Signature { name, arity }
}

/// The signatures with that of this operation, unless it is named again after.
fn with_once<'a>(
    mut signatures: Vec<Signature<'a>>,
    faulty: &FaultyDraft,
    op: &'a Op,
    after: &[Op],
) -> Result<Vec<Signature<'a>>, AllocError>
    ensures { Extends result signatures.entry (signature_once faulty.now op.entry.now after.now) }
{
    let name = op.name.as_bytes();
    if operation_number(after, name).is_some() || is_open(faulty, name) {
        return Ok(signatures);
    }
    signatures.push(signature_in(faulty, &op.name, op.args))?;
    Ok(signatures)
}

/// Those of these operations and of the open one: of each name the last.
fn signatures_from<'a>(
    alloc: Global,
    faulty: &'a FaultyDraft,
    ops: &'a [Op],
) -> Result<Vec<Signature<'a>>, AllocError>
    ensures { HasItems result (spec.signatures_from faulty.entry.now ops.entry.now) }
{
    let mut signatures = Vec::new(alloc);
    for (before, op) in ops.iter().enumerate() {
        let (_, after) = ops.split_at(before + 1);
        signatures = with_once(signatures, faulty, op, after)?;
    }
    match &faulty.draft.begun {
        None => Ok(signatures),
        Some(op) => {
            signatures.push(signature_in(faulty, &op.name, op.args))?;
            Ok(signatures)
        }
    }
}

/// The signatures of the operations that lines with faults were to declare: of the first sixteen
/// and of the open one, of each name the last.
///
/// # Errors
///
/// There is no memory for the list.
pub(crate) fn signatures_meant<'a>(
    alloc: Global,
    faulty: &'a FaultyDraft,
) -> Result<Vec<Signature<'a>>, AllocError>
    ensures { HasItems result (spec.signatures_meant faulty.entry.now) }
{
    let ops = &faulty.draft.operations;
    signatures_from(alloc, faulty, &ops[..MOST_OPS.min(ops.len())])
}
