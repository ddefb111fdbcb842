//! Laws of serial schedules.

ghost use Rattle.lu_serial.specs.Offences.{OneConflict, SerialShort};

/// Where there is no serial offence, no operation of a serially ended schedule takes more moves
/// after its call than the bound allows. So the set of serial histories needs no bound of its own.
/// The function does nothing.
pub fn serial_short()
    ensures { SerialShort }
{}

/// The entry and the outcome of a conflict are determined by the schedule that is the least
/// offence. The function does nothing.
pub fn one_conflict()
    ensures { OneConflict }
{}
