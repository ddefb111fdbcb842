//! Laws of stages and of histories. Their functions do nothing.

ghost use Rattle.lu_conform.specs.Laws.{AllAreAmong};
ghost use Rattle.lu_conform.specs.Stretching.{LessIsShown, LessIsStretched, StretchedIsPlayed};

/// Each schedule whose history is a beginning of the recorded one, of any length, leads to one of a
/// list of stages that has the start, and with each stage each to which a move of it leads that
/// follows the history.
pub fn stage_law()
    ensures { AllAreAmong }
{}

/// Precedence may be taken away: where a schedule leads to a state with a history, one with as many
/// moves leads there with each history in which calls stand earlier and returns later. These are
/// the histories with less precedence, which have the same events of each thread in the same order
/// (Herlihy and Wing, 1990). So where a schedule shows a recorded history, one shows each with less
/// precedence: a recorder may note calls early and returns late.
pub fn stretching_laws()
    ensures played { StretchedIsPlayed }
    ensures less { LessIsStretched }
    ensures shown { LessIsShown }
{}
