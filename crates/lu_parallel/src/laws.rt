//! What is true of all components and matrices. The functions do nothing: their contracts are the
//! laws.

ghost use Rattle.std.specs.Prelude.{List};
ghost use Rattle.lu_machine.specs.States.{State};
ghost use Rattle.lu_history.specs.declared.serial.SerialOp.{SerialOp};
ghost use Rattle.lu_serial.specs.Serial.{IsSerialHistory};
ghost use Rattle.lu_witness.specs.Witnesses.{IsMember};
ghost use Rattle.lu_tree.specs.Covers.{FirstOfCover, SumsOfCover};
ghost use Rattle.lu_parallel.specs.Laws.{Concludes, IsReported, IsReportedAgainst};

/// What the pieces of a cover say together. The first bad schedule below the first piece that has
/// one is the first of all. Where no piece has one, all schedules are good, and their numbers are
/// the sums of the pieces' numbers.
pub fn cover_sums()
    // For the set of a tree, and for that of all serial histories.
    ensures first { (members : List (List SerialOp)) → FirstOfCover (IsMember members) }
    ensures first_serially { (s : State) → FirstOfCover (IsSerialHistory s) }
    ensures sums { (members : List (List SerialOp)) → SumsOfCover (IsMember members) }
    ensures sums_serially { (s : State) → SumsOfCover (IsSerialHistory s) }
{}

/// What the works over the pieces of a cover conclude, on whatever threads they were done: the
/// least bad schedule of all, and why it is bad; or, where none is bad, the numbers of all
/// schedules.
pub fn works_conclude()
    ensures { Concludes }
{}

/// What a search of all schedules finds over a set is what the report against it says; over the set
/// of all serial histories it is what the report says. The function does nothing.
pub fn found_is_reported()
    ensures against { IsReportedAgainst }
    ensures serially { IsReported }
{}
