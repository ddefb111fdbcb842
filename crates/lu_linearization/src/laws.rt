//! Laws of linearizations. Their functions do nothing.

ghost use Rattle.std.specs.Prelude.{List};
ghost use Rattle.lu_history.specs.declared.operation.OpId.{OpId};
ghost use Rattle.lu_history.specs.declared.serial.SerialOp.{SerialOp};
ghost use Rattle.lu_history.specs.declared.serial.SerialOutcome.{SerialOutcome};
ghost use Rattle.lu_linearization.specs.Configurations.{CompleteHasConfiguration, ConfigurationsAfterCall, ConfigurationsAfterEffect, ConfigurationsAfterReturn, ConfigurationsSuffice, InitialConfigurations, PendingAfterEvent, StuckHasConfiguration};
ghost use Rattle.lu_linearization.specs.Linearizations.{CompleteIsWitness, LinearizationsAfterCall, LinearizationsAfterReturn, PendingMayBeAppended, RestIsPending, StuckEnds, StuckIsWitness, WellFormedIsSequential};
ghost use Rattle.lu_linearization.specs.Monitors.{MonitorAfterCall, MonitorAfterReturn, MonitorAtStart, MonitorIsEmpty, MonitorOfComplete, MonitorOfStuck};
ghost use Rattle.lu_linearization.specs.Precedence.{PrecedenceGoesOn};

use crate::automaton::SerialReader;
use std::marker::Brand;

/// A set of serial histories.
pub trait SerialSet {
    ghost has: { List SerialOp → Type 0 };
}

impl SerialSet for Brand {
    ghost use Rattle.std.specs.Prelude.{List};
    ghost use Rattle.lu_history.specs.declared.serial.SerialOp.{SerialOp};

    ghost has = { λ q. Unit {0} };
}

/// A set of serial histories, and an automaton that reads their prefixes.
pub trait SerialAutomaton {
    type State;

    /// What an operation calls.
    type Call;

    ghost is_history: { List SerialOp → Type 0 };

    /// The states to which a list of operations leads.
    ghost leads_to: { List SerialOp → Self.State → Type 0 };

    /// The transitions: from a state, by a call with an outcome, to a state.
    ghost next: { Self.State → Self.Call → SerialOutcome → Self.State → Type 0 };

    /// The states in which a call is stuck.
    ghost is_stuck: { Self.State → Self.Call → Type 0 };

    /// The call of each operation.
    ghost call_of: { OpId → Self.Call };
}

/// The linearizations of a history after one more call, after one more return, and with one more
/// pending operation. The linearizations of a history that has ended are its witnesses. The number
/// of threads and calls is not limited.
pub fn linearization_laws<Z: SerialSet>()
    ensures precedence { PrecedenceGoesOn }
    ensures returns { LinearizationsAfterReturn Z.has }
    ensures calls { LinearizationsAfterCall Z.has }
    ensures append { PendingMayBeAppended Z.has }
    ensures rest { RestIsPending Z.has }
    ensures complete { CompleteIsWitness Z.has }
    ensures stuck { StuckIsWitness Z.has }
    ensures stuck_end { StuckEnds }
    ensures bounded { WellFormedIsSequential }
{}

/// The configurations after one more event, and what the configurations of a history that has ended
/// say of its witnesses. Two histories with the same configurations and the same pending calls
/// have the same configurations after each event.
pub fn configuration_laws<A: SerialAutomaton>()
    ensures initial { InitialConfigurations A.leads_to }
    ensures effect { ConfigurationsAfterEffect A.leads_to A.next A.call_of }
    ensures calls { ConfigurationsAfterCall A.leads_to A.next A.call_of }
    ensures returns { ConfigurationsAfterReturn A.leads_to }
    ensures pending { PendingAfterEvent A.call_of }
    ensures suffice { ConfigurationsSuffice A.leads_to A.next A.call_of }
    ensures complete { CompleteHasConfiguration A.is_history A.leads_to }
    ensures stuck { StuckHasConfiguration A.is_history A.leads_to A.is_stuck A.call_of }
{}

/// What [`Monitor`](crate::Monitor) answers at the start, after a call and after a return are
/// exactly the configurations of the history's linearizations.
pub fn monitor_laws<A: SerialReader>()
    ensures start { (it : A) → MonitorAtStart (A.leads_to it) }
    ensures calls { (it : A) → MonitorAfterCall (A.leads_to it) (A.next it) (A.call_of it) }
    ensures returns { (it : A) → MonitorAfterReturn (A.leads_to it) }
    ensures empty { (it : A) → MonitorIsEmpty (A.leads_to it) }
{}

/// What the monitor of a history that has ended says of its witnesses in a set whose prefixes the
/// automaton reads.
pub fn verdict_laws<A: SerialReader, S: SerialSet>()
    ensures complete { (it : A) → MonitorOfComplete S.has (A.leads_to it) }
    ensures stuck { (it : A) → MonitorOfStuck S.has (A.leads_to it) (A.next it) (A.call_of it) }
{}
