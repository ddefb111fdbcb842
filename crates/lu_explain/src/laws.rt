//! Laws of explanations.

ghost use Rattle.lu_explain.specs.Laws.{AllIsWitness, ClosedHasEnds, FullHasEnds, NoneGoesOn, NothingLeft, OneAnyOrder, OneExplanation, OneOutcomeAfter, OtherOutcome, StuckHasEnds, UnbrokenIsWitness};

/// A history has one explanation over a set, whatever test tells its members, and nothing can come
/// after its order. An outcome that a reason names is not the one in the history, and in a set
/// without conflicts it is the only one. The function does nothing.
pub fn explanation_laws()
    ensures one { OneExplanation }
    ensures none { NoneGoesOn }
    ensures other { OtherOutcome }
    ensures outcome { OneOutcomeAfter }
{}

/// Where a history has a witness nothing is left; and where nothing is left the order is a witness,
/// if what has all operations is in the set. That is so of a set that is closed under beginnings,
/// of a history with a pending call where `Stuck` stands only last, and of a history that has as
/// many operations of each thread as any member. The function does nothing.
pub fn witness_laws()
    ensures nothing { NothingLeft }
    ensures witness { AllIsWitness }
    ensures closed { ClosedHasEnds }
    ensures stuck { StuckHasEnds }
    ensures full { FullHasEnds }
{}

/// A history has one least order of its calls, precedence aside, with one first precedence that it
/// breaks, or none; and that breaks no precedence exactly where it is a witness. The function does
/// nothing.
pub fn any_order_laws()
    ensures one { OneAnyOrder }
    ensures witness { UnbrokenIsWitness }
{}
