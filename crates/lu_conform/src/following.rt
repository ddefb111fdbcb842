//! Which moves follow a recorded history.

ghost use Rattle.std.specs.Prelude.{◌≡◌, ◌↔◌, IsTrue, Some, slice_get};
ghost use Rattle.lu_conform.specs.Stages.{TellsFollowing};

use lu_machine::Event;

/// Whether this event comes next in the history, of which this many were seen.
fn comes_next(events: &[Event], seen: usize, event: Event) -> bool
    ensures { IsTrue result ↔ (slice_get events.now seen ≡ Some event) }
{
    match events.get(seen) {
        None => false,
        Some(next) => *next == event,
    }
}

/// How many events of the history are seen after a move with this event, or none, where this many
/// were seen before it; `None` where another event comes next.
pub(crate) fn seen_after(events: &[Event], seen: usize, event: Option<Event>) -> Option<usize>
    ensures { TellsFollowing events.now seen event result }
{
    match event {
        None => Some(seen),
        Some(event) => {
            if comes_next(events, seen, event) {
                Some(seen + 1)
            } else {
                None
            }
        }
    }
}
