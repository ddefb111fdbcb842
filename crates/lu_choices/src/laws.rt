//! Laws of the numbers of choices, for the crates above. Their functions do nothing.

ghost use Rattle.lu_choices.specs.Laws.{ChoicesNumbered};

/// Each choice has a number of its own, from 0 to the one before their count, and in lexicographic
/// order.
pub fn choices_numbered()
    ensures { ChoicesNumbered }
{}
