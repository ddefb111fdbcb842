//! Laws of removals and of slices, for the crates above. Their functions do nothing.

ghost use Rattle.lu_refine.specs.Laws.{OneSliceAnswer, SlicesJoin};
ghost use Rattle.lu_refine.specs.Removals.{OneShrunk};

/// What is numbered in a slice: the choices of candidates.
pub use lu_choices::laws::choices_numbered;

/// A chain of least removals has one end: so a matrix that fails shrinks to one matrix.
pub fn one_shrunk()
    ensures { OneShrunk }
{}

/// Slices of a campaign that follow one another give together what one slice gives: the first
/// answer that names a matrix, or, where all pass, the sum of the counts. A slice of all matrices
/// gives what the campaign gives. A slice has one answer, so it does not matter who tries it.
pub fn slices_join()
    ensures join { SlicesJoin }
    ensures one_answer { OneSliceAnswer }
{}
