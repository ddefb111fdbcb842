//! Laws of traces, for the crates above.

ghost use Rattle.lu_trace.specs.Laws.{OneTrace, OneTraceFromSetup, TraceLeads, TraceOrFault};

/// A schedule that has a trace leads somewhere, and is infeasible nowhere; and it has one trace,
/// and one from the setup on. The function does nothing.
pub fn trace_laws()
    ensures leads { TraceLeads }
    ensures one_trace { OneTrace }
    ensures or_fault { TraceOrFault }
    ensures one_from_setup { OneTraceFromSetup }
{}
