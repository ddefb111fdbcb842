//! The code of a component's operations.

ghost use Rattle.std.specs.Prelude.{◌≤◌, length};
ghost use Rattle.lu_component.specs.declared.component.TheConstants.{MOST_INSTRS};
ghost use Rattle.lu_horizon.specs.Tables.{IsCodeOf};

use lu_component::{Component, Instr};

/// The code of the operation with this number: none where there is no such operation.
pub fn code_of(component: &Component, op: u8) -> &[Instr]
    ensures code { IsCodeOf component.now op result.now }
    ensures few { length result.now ≤ MOST_INSTRS }
{
    match component.operations().get(usize::from(op)) {
        None => &[],
        Some(op) => op.code.instrs(),
    }
}
