//! Where the cells of each array stand among all cells.

ghost use Rattle.std.specs.Prelude.{◌≡◌, ◌^◌, ◌<◌, ◌++◌, length, IfOk, OnOk};
ghost use Rattle.lu_machine.specs.Layout.{spans_of};
ghost use Rattle.lu_machine.specs.Starts.{cells_of, initial_cells};

use lu_component::Array;
use std::alloc::{AllocError, Global};

/// The cells of one array among those of all.
#[derive(Clone, Copy, Debug)]
pub(crate) struct Span {
    /// The number of its first cell among all.
    pub(crate) first: usize,

    /// The number of its cells.
    pub(crate) len: usize,
}

/// The cells of all arrays as they are at the start, one array after the other, and where they
/// stand.
pub(crate) fn lay_out(alloc: Global, arrays: &[Array]) -> Result<(Vec<Span>, Vec<u32>), AllocError>
    ensures spans { IfOk result (λ p. p.0.items ≡ spans_of 0 arrays.now) }
    ensures cells { IfOk result (λ p. p.1.items ≡ initial_cells arrays.now) }
    ensures fits { IfOk result (λ p. length p.1.items < 2 ^ 64) }
{
    let mut spans = Vec::with_capacity(alloc, arrays.len())?;
    let mut cells = Vec::new(alloc);
    for array in arrays {
        spans.push(Span {
            first: cells.len(),
            len: usize::from(array.len),
        })?;
        push_cells(&mut cells, array)?;
    }
    Ok((spans, cells))
}

/// Adds the cells of the array.
fn push_cells(cells: &mut Vec<u32>, array: &Array) -> Result<(), AllocError>
    ensures { OnOk result (cells.new.items ≡ cells.old.items ++ cells_of array.now) }
{
    for _cell in 0..array.len {
        cells.push(array.init)?;
    }
    Ok(())
}
