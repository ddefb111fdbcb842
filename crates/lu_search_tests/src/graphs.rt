//! The serial histories of small matrices as graphs.

use crate::serial_runs::assert_spelled;
use lu_fixtures::fixture_of;
use lu_serial_graph::{LearntGraph, SerialGraph, learn_graph};
use std::alloc::Global;
use std::process::Abort;
use std::test::Fail;

/// What the serial runs of the component and the matrix of these texts show.
fn learnt(
    rt: &(impl AllocGlobal + Abort),
    component: &[u8],
    matrix: &[u8],
) -> Result<LearntGraph<Global>, Fail> {
    let case = fixture_of(rt, component, matrix)?;
    Ok(learn_graph(rt.alloc(), rt.alloc(), &case.component, &case.matrix, 8)?)
}

/// The graph of their serial histories.
fn graph_of(
    rt: &(impl AllocGlobal + Abort),
    component: &[u8],
    matrix: &[u8],
) -> Result<SerialGraph<Global>, Fail> {
    match learnt(rt, component, matrix)? {
        LearntGraph::Set(graph) => Ok(graph),
        LearntGraph::Cut(_) | LearntGraph::Conflict { .. } => panic!(rt; "a serial offence"),
    }
}

/// The graph has this many members and nodes.
fn assert_counts(
    rt: &(impl AllocGlobal + Abort),
    component: &[u8],
    matrix: &[u8],
    members: u64,
    nodes: usize,
) -> Result<(), Fail> {
    let graph = graph_of(rt, component, matrix)?;
    assert!(rt; graph.member_count() == members, "{members}");
    assert!(rt; graph.node_count() == nodes, "{nodes}");
    Ok(())
}

/// A counter; a slot that a thread waits for; and two operations that leave the same two rests, which
/// they find in two orders.
const COMPONENT: &[u8] = b"component c
word x 1 0
op inc 0
load r0 x 0
add r0 r0 1
store x 0 r0
return r0
end
op take 0
await x 0 1
store x 0 0
return 0
end
op up 0
pick r0 2
store x 0 r0
return 0
end
op down 0
pick r0 2
lt r0 r0 1
store x 0 r0
return 0
end
op late 0
pick r0 2
jz r0 L3
return r0
L3: jump L3
end
op draw 0
pick r0 2
return r0
end
";

const FOUR_OF_FOUR: &[u8] = b"thread inc;inc;inc;inc
thread inc;inc;inc;inc
thread inc;inc;inc;inc
thread inc;inc;inc;inc
";

const EIGHT_OF_TWO: &[u8] = b"thread inc;inc
thread inc;inc
thread inc;inc
thread inc;inc
thread inc;inc
thread inc;inc
thread inc;inc
thread inc;inc
";

#[test]
fn histories_that_continue_alike_share_a_node(rt: HostRuntime) -> Result<(), Fail> {
    assert_counts(&rt, COMPONENT, FOUR_OF_FOUR, 63_063_000, 625)?;
    assert_counts(&rt, COMPONENT, EIGHT_OF_TWO, 81_729_648_000, 6_561)?;
    // After both calls the rests are found in two orders.
    assert_counts(&rt, COMPONENT, b"thread up\nthread down\n", 2, 4)
}

#[test]
fn the_least_offence_is_answered(rt: HostRuntime) -> Result<(), Fail> {
    match learnt(&rt, COMPONENT, b"thread inc\nthread late\n")? {
        LearntGraph::Cut(schedule) => {
            assert_spelled(&rt, &schedule, "schedule 0 0 0 0 0 1 1 1 1 1 1 1 1 1\n")?
        }
        LearntGraph::Set(_) | LearntGraph::Conflict { .. } => panic!(rt; "no cut"),
    }
    match learnt(&rt, COMPONENT, b"thread inc\nthread draw\n")? {
        LearntGraph::Conflict {
            schedule,
            before,
            ..
        } => {
            assert!(rt; before == 1);
            assert_spelled(&rt, &schedule, "schedule 0 0 0 0 0 1 1:1 1\n")
        }
        LearntGraph::Set(_) | LearntGraph::Cut(_) => panic!(rt; "no conflict"),
    }
}
