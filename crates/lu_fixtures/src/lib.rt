//! What the tests of several crates share: components, and components with matrices that can run,
//! from their texts; histories; and walks down any tree of serial histories.
#![tactic(auto)]

ghost use Rattle.std.specs.Prelude.{◌≡◌, IfOk, Ok, OnOk};
ghost use Rattle.lu_text.specs.Results.{Builds};
ghost use Rattle.lu_test.specs.Matrix.{IsOf};
ghost use Rattle.lu_machine.specs.Starts.{CanRun};
ghost use Rattle.lu_fixtures.specs.Fixtures.{IsOfTexts};

use lu_history::History;
use lu_lang::{Component, read_component};
use lu_machine::{Event, settles};
use lu_test::{Matrix, read_matrix};
use std::test::Fail;

mod components;
mod walk;

pub use components::ROWS;
pub use walk::{contains, count, same_members};

/// A component and a matrix of it.
#[derive(Drop)]
pub struct Fixture {
    pub component: Component,
    pub matrix: Matrix,
}

/// Whether the setup of the matrix settles.
fn settled(rt: &impl AllocGlobal, component: &Component, matrix: &Matrix) -> Result<(), Fail>
    requires { IsOf matrix.now component.now }
    ensures { OnOk result (CanRun component.now matrix.now) }
{
    match settles(rt.alloc(), component, matrix)? {
        None => Ok(()),
        Some(_) => Err(Fail::from("a call of the setup does not end")),
    }
}

/// The component and the matrix of these texts, which can run.
///
/// # Errors
///
/// A text that has a fault, a setup that does not settle, and refused memory.
pub fn fixture_of(rt: &impl AllocGlobal, component: &[u8], matrix: &[u8]) -> Result<Fixture, Fail>
    ensures texts { IfOk result (IsOfTexts component.now matrix.now) }
    ensures runs { IfOk result (λ fixture. CanRun fixture.component fixture.matrix) }
{
    let component = read_component(rt.alloc(), component)?;
    let matrix = read_matrix(rt.alloc(), &component, matrix)?;
    settled(rt, &component, &matrix)?;
    Ok(Fixture { component, matrix })
}

/// The history of these events.
///
/// # Errors
///
/// An event that does not fit after those before it, and refused memory.
pub fn history_of(rt: &impl AllocGlobal, events: &[Event]) -> Result<History, Fail>
    ensures { Builds result events.now }
{
    let mut history = History::new(rt.alloc());
    for event in events {
        if !history.fits(*event) {
            return Err(Fail::from("an event does not fit"));
        }
        history.push(*event)?;
    }
    Ok(history)
}
