//! Laws of starts, steps and ends, for the crates above.

ghost use Rattle.lu_machine.specs.Laws.{OneStart, StartsWhereSettled, NeverBoth, OneUnsettled, SetupsAlike, OneOutcome, FeasibleOnly, AllFeasible, OneWithoutLocal, LocalUnseen, CompleteIsOver, CompleteOrNot, MoveOrNot, OneStatus};

/// What holds of every run: it has one start, and one exactly where the setup settles, of which
/// either all calls end or one is the first that does not; the start's cells and locks are the
/// setup's alone; a move has at most one outcome, and one exactly where it is feasible; no thread
/// of a complete state is enabled; and a state has one status, which is decided. The function does
/// nothing.
pub fn step_laws()
    ensures one_start { OneStart }
    ensures starts { StartsWhereSettled }
    ensures never_both { NeverBoth }
    ensures one_unsettled { OneUnsettled }
    ensures setups_alike { SetupsAlike }
    ensures one_outcome { OneOutcome }
    ensures feasible_only { FeasibleOnly }
    ensures all_feasible { AllFeasible }
    ensures complete_is_over { CompleteIsOver }
    ensures complete_or_not { CompleteOrNot }
    ensures move_or_not { MoveOrNot }
    ensures one_status { OneStatus }
{}

/// What `local L` changes: without it each call and each instruction is a move, and no other thread
/// could see the local instructions with which a move goes on. The function does nothing.
pub fn local_laws()
    ensures one_without { OneWithoutLocal }
    ensures unseen { LocalUnseen }
{}
