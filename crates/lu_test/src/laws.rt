//! Laws of the texts of matrices.

ghost use Rattle.lu_test.specs.Laws.{RoundTrip};

/// What is written of a component's matrix is read as it was. The function does nothing.
pub fn round_trip()
    ensures { RoundTrip }
{}
