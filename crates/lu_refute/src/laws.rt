//! Laws of specifications, for the crates above: what holds whatever deterministic specification
//! somebody has in mind. Their functions do nothing.

ghost use Rattle.lu_refute.specs.Laws.{AnswerRefutes, ConflictOutside, CutRefutes, FailingIsNotLinearizable, FailOutside, FailRefutes, LearntCloses, MadeCut, NoneLinearizable, NotLinearizable, OneAnswer, OutsideWhole, OwnWitness, SpecIsSerial, WholeCut};

/// Where no serial run offends and a specification has every serial history, it has no other whole
/// ones: each is run again, entry by entry.
pub fn spec_is_serial()
    ensures { SpecIsSerial }
{}

/// There a schedule that is not good for the serial histories is not good for the specification.
pub fn fail_refutes()
    ensures { FailRefutes }
{}

/// A serial schedule that ends with a whole entry has no other witness than its own entries.
pub fn own_witness()
    ensures { OwnWitness }
{}

/// The calls made in a serial schedule that ends with a whole entry make a cut of the matrix. Where
/// its entries are no member of a set, it is an ended schedule of that cut, and not good for the
/// set.
pub fn cut_refutes()
    ensures cut { MadeCut }
    ensures refutes { CutRefutes }
{}

/// Where nothing is outside a specification, a schedule that is not good for the serial histories
/// is not good for it.
pub fn fail_outside()
    ensures { FailOutside }
{}

/// Where the least serial offence is a conflict, some serial history is outside each deterministic
/// set.
pub fn conflict_outside()
    ensures { ConflictOutside }
{}

/// A serially ended schedule ends with a whole entry: so one that is outside a set has a shortest
/// beginning that is.
pub fn outside_whole()
    ensures { OutsideWhole }
{}

/// What is answered to a finding is a counterexample, also where it is a schedule of the whole
/// matrix, which is a cut of itself.
pub fn answer_refutes()
    ensures whole { WholeCut }
    ensures answer { AnswerRefutes }
{}

/// One thing is answered to a report and a specification.
pub fn one_answer()
    ensures { OneAnswer }
{}

/// Where there is a counterexample the component is not linearizable.
pub fn not_linearizable()
    ensures { NotLinearizable }
{}

/// A failure that a run confirms refutes every deterministic specification, whatever test tells it:
/// by none of them is the component linearizable on the matrix. That it is closed under beginnings
/// is not asked. So does a report of a check that is a failure, or nondeterministic.
pub fn none_linearizable()
    ensures confirmed { NoneLinearizable }
    ensures reported { FailingIsNotLinearizable }
{}

/// The set that [`lu_serial::learn`] returns may be closed to a specification:
/// [`lu_spec::Spec::closure`] asks for no more.
pub fn learnt_closes()
    ensures { LearntCloses }
{}
