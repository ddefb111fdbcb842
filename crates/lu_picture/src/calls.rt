//! Calls in words.

ghost use Rattle.lu_text.specs.Writing.{Writes};
ghost use Rattle.lu_picture.specs.Shapes as spec;

use lu_machine::Machine;
use std::alloc::AllocError;

/// Adds call `k` of thread `t`, as the matrix has it.
pub(crate) fn write_call(
    text: &mut String,
    machine: &Machine<'_>,
    t: u8,
    k: u8,
) -> Result<(), AllocError>
    ensures { Writes result text.old text.new (spec.machine_call machine.now t k) }
{
    let matrix = machine.matrix();
    if k < matrix.calls(t) {
        lu_test::write_call(text, machine.component().operations(), matrix.call(t, k))
    } else {
        Ok(())
    }
}
