//! Specifications that histories are judged by.

ghost use Rattle.std.specs.Prelude.{◌≡◌, IfErr, IfOk};
ghost use Rattle.lu_spec.specs.FreeSpecs.{IsGivenAs, IsGivenFault, is_marked};
ghost use Rattle.lu_spec.specs.Specs.{AreOf};

use crate::fault::SpecFault;
use crate::free::collect_free_spec;
use crate::free_spec::FreeSpec;
use crate::marked_line::has_free_entries;
use crate::reader::read_spec;
use lu_test::Matrix;
use std::alloc::{AllocError, Global};

/// Whether entries of a specification's text may have the mark `?`, which leaves other outcomes
/// free.
#[derive(Clone, Copy, Debug, PartialEq, Eq)]
pub enum Marks {
    /// A mark is a fault of form, as any other character that does not belong to an entry.
    Refused,

    /// A text with a mark is read as [`collect_free_spec`] reads it.
    Allowed,
}

/// Whether the text is one with marks, and these are allowed.
pub(crate) fn is_marked(alloc: Global, marks: Marks, text: &[u8]) -> Result<bool, AllocError>
    ensures { IfOk result (λ is. is ≡ is_marked marks text.now) }
{
    match marks {
        Marks::Refused => Ok(false),
        Marks::Allowed => has_free_entries(alloc, text),
    }
}

/// Reads a specification that histories are judged by. Where marks are allowed, a text with marks
/// is read by [`collect_free_spec`]; any other text is read by [`read_spec`].
///
/// # Errors
///
/// Those of [`collect_free_spec`] or [`read_spec`], whichever reads the text.
pub fn read_given_spec(
    alloc: Global,
    matrix: &Matrix,
    text: &[u8],
    marks: Marks,
) -> Result<FreeSpec, SpecFault>
    ensures read { IfOk result (IsGivenAs marks matrix.now text.now) }
    ensures fault { IfErr result (IsGivenFault marks matrix.now text.now) }
    ensures of { IfOk result (AreOf matrix.now) }
{
    if is_marked(alloc, marks, text)? {
        collect_free_spec(alloc, matrix, text)
    } else {
        let spec = read_spec(alloc, matrix, text)?;
        Ok(FreeSpec::of_spec(spec))
    }
}
