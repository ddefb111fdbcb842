//! What calls see of operations.

ghost use Rattle.std.specs.Prelude.{◌≡◌};
ghost use Rattle.std.specs.Str.{bytes_eq};
ghost use Rattle.lu_test.specs.Signatures as spec;
ghost use Rattle.lu_text.specs.Results.{HasItems};

use lu_component::Op;
use lu_text::Name;
use std::alloc::{AllocError, Global};
use std::marker::Model;

/// What a call sees of an operation.
#[derive(Drop)]
pub struct Signature<'a> {
    /// The operation's name.
    pub name: &'a Name,

    /// How many arguments it takes. None where that is not known: the arguments of its calls are
    /// then not looked at.
    pub arity: Option<u8>,
}

impl<'a> Model for Signature<'a> {
    ghost use Rattle.lu_test.specs.Signatures.{Signature as ASignature};

    ghost Value = { ASignature };

    ghost view = { λ s. record { name = s.name.now; arity = s.arity } };
}

impl<'a> Signature<'a> {
    /// The signature of an operation.
    pub fn of(op: &'a Op) -> Signature<'a>
        ensures { result ≡ spec.signature op.entry.now }
    {
        Signature {
            name: &op.name,
            arity: Some(op.args),
        }
    }
}

impl Signature<'_> {
    /// Whether the operation is named so.
    pub fn is(&self, name: &[u8]) -> bool
        ensures { result ≡ bytes_eq self.now.name name.now }
    {
        self.name.is(name)
    }

    /// Whether a call may have this many arguments.
    pub fn takes(&self, count: usize) -> bool
        ensures { result ≡ spec.takes self.now.arity count }
    {
        match self.arity {
            None => true,
            Some(arity) => usize::from(arity) == count,
        }
    }
}

/// The number of the signature with this name, from 0, where there is one.
pub(crate) fn signature_number(signatures: &[Signature<'_>], name: &[u8]) -> Option<usize>
    ensures { result ≡ spec.signature_number signatures.now name.now }
{
    signatures.iter().position(|signature| signature.is(name))
}

/// The signatures of operations, in their order.
///
/// # Errors
///
/// There is no memory for the list.
pub fn signatures_of<'a>(
    alloc: Global,
    operations: &'a [Op],
) -> Result<Vec<Signature<'a>>, AllocError>
    ensures { HasItems result (spec.signatures operations.entry.now) }
{
    operations.iter().map(|op| Signature::of(op)).collect(alloc)
}
