//! Components with the same operations.

ghost use Rattle.std.specs.Prelude.{◌↔◌, IsTrue};
ghost use Rattle.lu_survey.specs.Comparing.{HasSameOperations, IsAlike};

use lu_component::{Component, Op};

/// Whether the two have the same name, and as many arguments.
fn is_alike(one: &Op, other: &Op) -> bool
    ensures { IsTrue result ↔ IsAlike one.now other.now }
{
    one.args == other.args && one.name.is(other.name.as_bytes())
}

/// Whether the components have operations of the same names in the same order, each with as many
/// arguments: so a matrix of one is a matrix of the other, and its calls mean the same.
pub fn have_same_operations(component: &Component, other: &Component) -> bool
    ensures { IsTrue result ↔ HasSameOperations component.now other.now }
{
    let ops = component.operations();
    let others = other.operations();
    if ops.len() != others.len() {
        return false;
    }
    for number in 0..ops.len() {
        if !is_alike(&ops[number], &others[number]) {
            return false;
        }
    }
    true
}
