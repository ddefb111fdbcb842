//! Laws of replays and reports, for the crates above.

ghost use Rattle.lu_replay.specs.Laws.{AllConfirmed, AllConfirmedAgainst, AllReplayed, EndedApart, OneFault, OneReplay, OneReport, OneReportAgainst, ReplayOrFault};

pub use lu_serial::serial_short;

/// Why a replay has one answer: a schedule shows a history and a status, and no others, or it is
/// infeasible at a move, and at no other. The function does nothing.
pub fn replay_laws()
    ensures one_replay { OneReplay }
    ensures replay_or_fault { ReplayOrFault }
    ensures one_fault { OneFault }
    ensures all_replayed { AllReplayed }
{}

/// No ended schedule is a beginning of another: so a search need not look past one. The function
/// does nothing.
pub fn ended_apart()
    ensures { EndedApart }
{}

/// A component and a matrix have one report with given bounds, and one against a set of serial
/// histories with a given bound: so it does not matter who finds it. The function does nothing.
pub fn one_report()
    ensures serially { OneReport }
    ensures against { OneReportAgainst }
{}

/// A report that is no pass is confirmed by a run, against the set that it is one against. The
/// function does nothing.
pub fn all_confirmed()
    ensures serially { AllConfirmed }
    ensures against { AllConfirmedAgainst }
{}
