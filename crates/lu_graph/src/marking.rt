//! Marks that spread back along edges.

ghost use Rattle.std.specs.Prelude.{◌≡◌, ◌<◌, true, false, not, length, count_by, All, position};
ghost use Rattle.lu_graph.specs.Marking.{AreMarkedBack, AreSettled, IsWithin, MarksAlong, MarksOn};

use crate::edge::Edge;

/// Marks the state where the edge begins, if the one where it ends is marked: whether that changes
/// anything.
fn mark_along(edge: Edge, marks: &mut [bool]) -> bool
    requires { IsWithin (length marks.old) edge }
    ensures { MarksAlong edge marks.old marks.new result }
{
    if marks[edge.from] {
        return false;
    }
    if marks[edge.to] {
        marks[edge.from] = true;
        return true;
    }
    false
}

/// Marks along each edge once, the last one first, since most lead to later states: whether that
/// changes anything.
fn mark_once(edges: &[Edge], marks: &mut [bool]) -> bool
    requires { All (IsWithin (length marks.old)) edges.now }
    ensures on { MarksOn edges.now marks.old marks.new }
    ensures settled { result ≡ false → AreSettled edges.now marks.old marks.new }
    ensures fewer { result ≡ true → count_by not marks.new < count_by not marks.old }
{
    let mut is_changed = false;
    for back in 0..edges.len() {
        if mark_along(edges[edges.len() - 1 - back], marks) {
            is_changed = true;
        }
    }
    is_changed
}

/// Marks each state from which edges lead to one that is marked.
pub(crate) fn mark_back(edges: &[Edge], marks: &mut [bool])
    requires { All (IsWithin (length marks.old)) edges.now }
    ensures { AreMarkedBack edges.now marks.old marks.new }
{
    let mut is_changed = true;
    while is_changed {
        is_changed = mark_once(edges, marks);
    }
}

/// The first state that is not marked.
pub(crate) fn first_unmarked(marks: &[bool]) -> Option<usize>
    ensures { result ≡ position not marks.now }
{
    marks.iter().position(|is_marked| !*is_marked)
}
