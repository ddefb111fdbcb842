//! How calls end, by the marks.

ghost use Rattle.std.specs.Prelude.{◌≡◌, length};
ghost use Rattle.lu_picture.specs.Shapes as spec;

use crate::mark::{End, Mark};
use lu_machine::Event;

/// The mark, where it is the end of call `k` of thread `t`.
fn end_at(mark: &Mark, t: u8, k: u8) -> Option<End>
    ensures { result ≡ spec.end_at t k mark.now }
{
    match mark.event {
        Event::Call { t: _, k: _ } => None,
        Event::Return {
            t: u,
            k: j,
            outcome,
        } => {
            if u == t && j == k {
                Some(End {
                    top: mark.top,
                    outcome,
                })
            } else {
                None
            }
        }
    }
}

/// The end of call `k` of thread `t`, if it is among the marks.
pub(crate) fn end_of(marks: &[Mark], t: u8, k: u8) -> Option<End>
    ensures { result ≡ spec.end_of t k marks.now (length marks.now) }
{
    let mut found = None;
    for mark in marks {
        found = found.or(end_at(mark, t, k));
    }
    found
}
