//! Vertices from which a path leads to a sink.

ghost use Rattle.std.specs.Prelude.{◌≡◌, ◌↔◌, IfOk, IsTrue, OnOk, Some, false, slice_get};
ghost use Rattle.lu_always.specs.Sinks.{IsFirstWithoutSink};
ghost use Rattle.lu_always.specs.Marking.{AddsEdge, AddsEdges, AreMarked, AreSinks, AreSources, IsBare, IsFirstUnmarked, IsUnmarked, MarksAll, MarksOne, Takes};

use std::alloc::{AllocError, Global};

/// The vertices that are marked, and those of them whose sources are still to be marked.
#[derive(Drop)]
struct Marking {
    marks: Vec<bool>,
    todo: Vec<usize>,
}

/// Whether there is such a vertex, and it is not marked.
fn is_unmarked(marks: &[bool], vertex: usize) -> bool
    ensures { IsTrue result ↔ (slice_get marks.now vertex ≡ Some false) }
{
    match marks.get(vertex) {
        None => false,
        Some(marked) => !*marked,
    }
}

impl Marking {
    /// This many vertices, none of them marked.
    fn new(alloc: Global, vertices: usize) -> Result<Marking, AllocError>
        ensures { IfOk result (IsUnmarked vertices) }
    {
        let mut marks = Vec::new(alloc);
        for _vertex in 0..vertices {
            marks.push(false)?;
        }
        Ok(Marking {
            marks,
            todo: Vec::new(alloc),
        })
    }

    /// Takes a vertex whose sources are still to be marked, if there is one.
    fn take(&mut self) -> Option<usize>
        ensures { Takes self.old self.new result }
    {
        self.todo.pop()
    }

    /// Marks this vertex, if there is such a vertex and it is not marked.
    fn mark(&mut self, vertex: usize) -> Result<(), AllocError>
        ensures { OnOk result (MarksOne vertex self.old self.new) }
    {
        if is_unmarked(self.marks.as_slice(), vertex) {
            self.marks[vertex] = true;
            self.todo.push(vertex)?;
        }
        Ok(())
    }

    /// Marks these vertices.
    fn mark_all(&mut self, vertices: &[usize]) -> Result<(), AllocError>
        ensures { OnOk result (MarksAll vertices.now self.old self.new) }
    {
        for vertex in vertices {
            self.mark(*vertex)?;
        }
        Ok(())
    }
}

/// A graph with this many vertices and no edges.
fn bare(alloc: Global, vertices: usize) -> Result<Vec<Vec<usize>>, AllocError>
    ensures { IfOk result (λ graph. IsBare vertices graph.items) }
{
    let mut graph = Vec::new(alloc);
    for _vertex in 0..vertices {
        graph.push(Vec::new(alloc))?;
    }
    Ok(graph)
}

/// Adds the edge between these vertices, if it leads from a vertex of the graph.
fn add_edge(graph: &mut Vec<Vec<usize>>, from: usize, to: usize) -> Result<(), AllocError>
    ensures { OnOk result (AddsEdge from to graph.old.items graph.new.items) }
{
    if from < graph.len() {
        graph[from].push(to)?;
    }
    Ok(())
}

/// Adds an edge to this vertex from each of the others that is a vertex of the graph.
fn add_edges(graph: &mut Vec<Vec<usize>>, from: &[usize], to: usize) -> Result<(), AllocError>
    ensures { OnOk result (AddsEdges from.now to graph.old.items graph.new.items) }
{
    for vertex in from {
        add_edge(graph, *vertex, to)?;
    }
    Ok(())
}

/// The edges of the graph backwards: for each vertex, those from which an edge leads to it.
fn sources_in(alloc: Global, graph: &[Vec<usize>]) -> Result<Vec<Vec<usize>>, AllocError>
    ensures { IfOk result (λ sources. AreSources graph.now sources.items) }
{
    let mut sources = bare(alloc, graph.len())?;
    for vertex in 0..graph.len() {
        add_edges(&mut sources, graph[vertex].as_slice(), vertex)?;
    }
    Ok(sources)
}

/// The sinks.
fn sinks_in(alloc: Global, graph: &[Vec<usize>]) -> Result<Vec<usize>, AllocError>
    ensures { IfOk result (λ sinks. AreSinks graph.now sinks.items) }
{
    let mut sinks = Vec::new(alloc);
    for vertex in 0..graph.len() {
        if graph[vertex].is_empty() {
            sinks.push(vertex)?;
        }
    }
    Ok(sinks)
}

/// For each vertex, whether some path leads from it to a sink.
fn marks_in(alloc: Global, graph: &[Vec<usize>]) -> Result<Vec<bool>, AllocError>
    ensures { IfOk result (λ marks. AreMarked graph.now marks.items) }
{
    let sources = sources_in(alloc, graph)?;
    let sinks = sinks_in(alloc, graph)?;
    let mut marking = Marking::new(alloc, graph.len())?;
    marking.mark_all(sinks.as_slice())?;
    while let Some(vertex) = marking.take() {
        marking.mark_all(sources[vertex].as_slice())?;
    }
    Ok(marking.marks)
}

/// The first vertex that is not marked, if there is one.
fn first_unmarked(marks: &[bool]) -> Option<usize>
    ensures { IsFirstUnmarked marks.now result }
{
    for vertex in 0..marks.len() {
        if !marks[vertex] {
            return Some(vertex);
        }
    }
    None
}

/// The first vertex from which no path leads to a sink, if there is one.
///
/// # Errors
///
/// Out of memory.
pub(crate) fn first_without_sink(
    alloc: Global,
    graph: &[Vec<usize>],
) -> Result<Option<usize>, AllocError>
    ensures { IfOk result (IsFirstWithoutSink graph.now) }
{
    let marks = marks_in(alloc, graph)?;
    Ok(first_unmarked(marks.as_slice()))
}
