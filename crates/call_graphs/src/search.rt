//! The search for the needs of bodies.

ghost use Rattle.std.specs.Prelude.{◌≡◌, map, slice_set, IfOk};
ghost use Rattle.call_graphs.specs.internal.Views.{body_view};
ghost use Rattle.call_graphs.specs.internal.Search.{mark_of};
ghost use Rattle.call_graphs.specs.internal.Needs.{Answers};

use crate::body::Body;
use crate::path::{Path, Visit};
use std::alloc::{AllocError, Global};

/// What a search knows of a body: nothing; that it is within it; or its need (4,294,967,295 if it is more).
#[derive(Clone, Copy)]
pub(crate) enum Mark {
    New,
    Open,
    Done(u32),
}

/// The progress of a search: it goes on, it has the need of the body that it began with, or it came to a cycle.
#[derive(Clone, Copy)]
pub(crate) enum Progress {
    Going,
    Finished(u32),
    Cyclic,
}

// What is known of a body.
fn mark_of(marks: &[Mark], body: usize) -> Mark
    ensures { result ≡ mark_of marks.now body }
{
    match marks.get(body) {
        Some(mark) => *mark,
        None => Mark::Done(0),
    }
}

// From now on this is known of a body.
fn set_mark(marks: &mut Vec<Mark>, body: usize, mark: Mark)
    ensures { marks.new.items ≡ slice_set marks.old.items body mark }
{
    if let Some(place) = marks.get_mut(body) {
        *place = mark;
    }
}

/// A search, depth first, with a path of its own in place of recursion.
#[derive(Drop)]
pub(crate) struct Search<'a> {
    graph: &'a [Body],
    marks: Vec<Mark>,
    path: Path,
}

impl<'a> Search<'a> {
    ghost use Rattle.std.specs.Prelude.{◌≡◌, ◌<◌, [], ◌∷◌, length, map, replicate, slice_get, Some, IfOk, IfSome, OnOk};
    ghost use Rattle.call_graphs.specs.Chains.{callees_of};
    ghost use Rattle.call_graphs.specs.internal.Views.{body_view};
    ghost use Rattle.call_graphs.specs.internal.Search.{begun, called, finished, graph_view, mark_of, need_shown, passed, search_view, stepped};
    ghost use Rattle.call_graphs.specs.internal.Searching.{Finds, IsTrueOf};

    /// A search that knows nothing yet.
    pub(crate) fn new(alloc: Global, graph: &'a [Body]) -> Result<Search<'a>, AllocError>
        ensures graph { IfOk result (λ search. graph_view search ≡ map body_view graph.now) }
        ensures state { IfOk result (λ search.
            search_view search ≡ record { marks = replicate (length graph.now) Mark.New; path = [] }) }
    {
        let marks = vec![in alloc; Mark::New; graph.len()]?;
        Ok(Search {
            graph,
            marks,
            path: Path::new(alloc),
        })
    }

    // The next call of a visit.
    fn next_call(&self, visit: Visit) -> Option<usize>
        ensures value { result ≡ slice_get (callees_of (graph_view self.now) visit.body) visit.next }
        ensures fits { IfSome result (λ _. visit.next < 18446744073709551615) }
    {
        let body = self.graph.get(visit.body)?;
        body.callees.get(visit.next).copied()
    }

    // The need of a body all whose calls were looked at.
    fn need_of_visit(&self, visit: Visit) -> u32
        ensures { result ≡ need_shown (graph_view self.now) visit }
    {
        match self.graph.get(visit.body) {
            Some(body) => body.charge.saturating_add(visit.greatest),
            None => visit.greatest,
        }
    }

    // Begins a body.
    fn begin(&mut self, body: usize) -> Result<(), AllocError>
        ensures graph { graph_view self.new ≡ graph_view self.old }
        ensures state { OnOk result (search_view self.new ≡ begun body (search_view self.old)) }
    {
        set_mark(&mut self.marks, body, Mark::Open);
        self.path.push(Visit {
            body,
            next: 0,
            greatest: 0,
        })?;
        Ok(())
    }

    // Continues a visit, which was taken from the path, after a call of a body whose need is known.
    fn pass(&mut self, visit: Visit, need: u32) -> Result<(), AllocError>
        requires { visit.next < 18446744073709551615 }
        ensures graph { graph_view self.new ≡ graph_view self.old }
        ensures state { OnOk result (search_view self.new
            ≡ record (search_view self.old) { path = passed visit need ∷ (search_view self.old).path }) }
    {
        self.path.push(Visit {
            body: visit.body,
            next: visit.next + 1,
            greatest: visit.greatest.max(need),
        })?;
        Ok(())
    }

    // Ends a visit, which was taken from the path.
    fn finish(&mut self, visit: Visit) -> Progress
        ensures graph { graph_view self.new ≡ graph_view self.old }
        ensures state { (search_view self.new, result) ≡ finished (graph_view self.old) visit
            (search_view self.old) }
    {
        let need = self.need_of_visit(visit);
        set_mark(&mut self.marks, visit.body, Mark::Done(need));
        if self.path.is_empty() {
            Progress::Finished(need)
        } else {
            Progress::Going
        }
    }

    // Continues a visit, which was taken from the path, at a call of a body.
    fn call(&mut self, visit: Visit, callee: usize) -> Result<Progress, AllocError>
        requires { visit.next < 18446744073709551615 }
        ensures graph { graph_view self.new ≡ graph_view self.old }
        ensures state { IfOk result (λ progress. (search_view self.new, progress)
            ≡ called (mark_of (search_view self.old).marks callee) visit callee (search_view self.old)) }
    {
        match mark_of(self.marks.as_slice(), callee) {
            Mark::Done(need) => {
                self.pass(visit, need)?;
                Ok(Progress::Going)
            }
            Mark::Open => Ok(Progress::Cyclic),
            Mark::New => {
                self.path.push(visit)?;
                self.begin(callee)?;
                Ok(Progress::Going)
            }
        }
    }

    // Continues a visit, which was taken from the path.
    fn step(&mut self, visit: Visit) -> Result<Progress, AllocError>
        ensures graph { graph_view self.new ≡ graph_view self.old }
        ensures state { IfOk result (λ progress. (search_view self.new, progress)
            ≡ stepped (graph_view self.old) visit (search_view self.old)) }
    {
        match self.next_call(visit) {
            Some(callee) => self.call(visit, callee),
            None => Ok(self.finish(visit)),
        }
    }

    /// The need of a body, or None if the graph has a cycle that is reached from it.
    pub(crate) fn need_of(&mut self, root: usize) -> Result<Option<u32>, AllocError>
        requires known { IsTrueOf (graph_view self.old) (search_view self.old) }
        requires path { (search_view self.old).path ≡ [] }
        ensures graph { graph_view self.new ≡ graph_view self.old }
        ensures found { IfOk result (λ found. Finds (graph_view self.old) root found (search_view self.new)) }
    {
        if let Mark::Done(need) = mark_of(self.marks.as_slice(), root) {
            return Ok(Some(need));
        }
        self.begin(root)?;
        while let Some(visit) = self.path.pop() {
            match self.step(visit)? {
                Progress::Going => {}
                Progress::Finished(need) => return Ok(Some(need)),
                Progress::Cyclic => return Ok(None),
            }
        }
        Ok(None)
    }
}

/// The need of the first body (4,294,967,295 if it is more), or None if the graph has a cycle. Fails only if memory runs out.
pub fn need_in(alloc: Global, graph: &[Body]) -> Result<Option<u32>, AllocError>
    ensures { IfOk result (λ found. Answers (map body_view graph.now) found) }
{
    let mut search = Search::new(alloc, graph)?;
    let Some(need) = search.need_of(0)? else {
        return Ok(None);
    };
    for body in 0..graph.len() {
        let Some(_) = search.need_of(body)? else {
            return Ok(None);
        };
    }
    Ok(Some(need))
}
