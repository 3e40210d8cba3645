//! The path of a search: the bodies that it is within.

use std::alloc::{AllocError, Global};
use std::marker::Model;

/// A body whose calls are looked at one by one: which one is the next, and the greatest need of those before it.
#[derive(Clone, Copy)]
pub(crate) struct Visit {
    pub(crate) body: usize,
    pub(crate) next: usize,
    pub(crate) greatest: u32,
}

/// Visits, the last one first.
#[derive(Drop)]
pub(crate) struct Path {
    visits: Vec<Visit>,
}

impl Model for Path {
    ghost use Rattle.std.specs.Prelude.{List, reverse};
    ghost use Rattle.call_graphs.specs.declared.path.Visit.{Visit};

    ghost Value = { List Visit };

    ghost view = { λ path. reverse path.visits.items };
}

impl Path {
    ghost use Rattle.std.specs.Prelude.{◌≡◌, [], ◌∷◌, OnOk, MatchOption};
    ghost use Rattle.call_graphs.specs.internal.Path.{is_ended};

    /// No visits.
    pub(crate) fn new(alloc: Global) -> Path
        ensures { result ≡ [] }
    {
        Path {
            visits: Vec::new(alloc),
        }
    }

    /// Adds a visit.
    #[tactic(auto, using(crate::proofs::Reversed::pushed))]
    pub(crate) fn push(&mut self, visit: Visit) -> Result<(), AllocError>
        ensures { OnOk result (self.new ≡ visit ∷ self.old) }
    {
        self.visits.push(visit)?;
        Ok(())
    }

    /// Takes the last visit.
    #[tactic(auto, using(crate::proofs::Reversed::popped, crate::proofs::Reversed::popped_none))]
    pub(crate) fn pop(&mut self) -> Option<Visit>
        ensures { MatchOption result (self.old ≡ []) (λ visit. self.old ≡ visit ∷ self.new) }
    {
        match self.visits.pop() {
            Some(visit) => Some(visit),
            None => None,
        }
    }

    /// Whether there are no visits.
    #[tactic(auto, using(crate::proofs::Reversed::ended_by_reversed_length))]
    pub(crate) fn is_empty(&self) -> bool
        ensures { result ≡ is_ended self.now }
    {
        self.visits.is_empty()
    }
}
