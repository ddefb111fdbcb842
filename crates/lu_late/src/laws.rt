//! Laws of searches by steps. Their functions do nothing.

ghost use Rattle.lu_late.specs.LastCalls.{BlockedEndByCalls, JudgedBeforeLastCalls, StepsAreEnough};
ghost use Rattle.lu_late.specs.Rests.{StepsTellRests};
ghost use Rattle.lu_late.specs.Steps.{StepsTellAll};

/// Last calls need not be made. Calls alone lead to an end exactly where each open operation is
/// blocked, and so would be each operation that an idle thread may call next. Such a schedule can be
/// judged before these calls, each pending operation by itself.
pub fn last_call_laws()
    ensures ends { BlockedEndByCalls }
    ensures before { JudgedBeforeLastCalls }
{}

/// A search need take steps only: the move of an open operation, or a call with the move after it.
/// Where threads are at left movers, it takes the move of the first of them and no other. All
/// schedules that end are good exactly where the states are that are reached by steps and in which all
/// are blocked. The arrays that locks guard are given.
pub fn step_laws()
    ensures ends { StepsTellAll }
    ensures enough { StepsAreEnough }
{}

/// A search by steps finds livelocks. Suppose that from each state that is reached by steps, steps of
/// open operations lead to where all of these are blocked. Then a schedule leads there from each
/// state. The arrays that locks guard are given.
pub fn rest_law()
    ensures { StepsTellRests }
{}
