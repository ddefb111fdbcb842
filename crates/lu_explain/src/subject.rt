//! What a text speaks of.

use lu_component::Component;
use lu_history::History;
use lu_test::Matrix;
use std::marker::Model;

/// What an explanation is of: a history, and the component and the matrix that name its calls.
#[derive(Drop)]
pub(crate) struct Subject<'a> {
    pub component: &'a Component,
    pub matrix: &'a Matrix,
    pub history: &'a History,
}

impl<'a> Model for Subject<'a> {
    ghost use Rattle.lu_explain.specs.Runs.{Subject as ASubject, subject_of};

    ghost Value = { ASubject };

    ghost view = { λ s. subject_of s.component.now s.matrix.now s.history.now };
}

/// What the text for a run speaks of.
#[derive(Drop)]
pub(crate) struct Run<'a> {
    pub component: &'a Component,
    pub matrix: &'a Matrix,
    pub history: &'a History,

    /// The number of the move of each event.
    pub moves: &'a [usize],
}

impl<'a> Model for Run<'a> {
    ghost use Rattle.lu_explain.specs.Runs.{Run as ARun, run_of};

    ghost Value = { ARun };

    ghost view = { λ r. run_of r.component.now r.matrix.now r.history.now r.moves.now };
}
