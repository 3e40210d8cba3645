//! Emission of planned code of statements.

ghost use Rattle.std.specs.Prelude.{◌≡◌, ◌+◌, true, [], ◌++◌, drop, take, length, slice_get, is_some, Some, IfOk, OnOk};
ghost use Rattle.treecode.specs.internal.Nodes.{item_of, nodes_of};
ghost use Rattle.treecode.specs.internal.Rising.{NumbersRise};
ghost use Rattle.steps8080.specs.internal.Step.{label_after};
ghost use Rattle.exprgen8080.specs.internal.Emitted.{IsEmpty};
ghost use Rattle.exprgen8080.specs.internal.Emission.{knowing};
ghost use Rattle.codegen8080.specs.internal.Driven.{AddsList, AddsPlanned, AddsStatement, AddsStep, here_of};
ghost use Rattle.codegen8080.specs.internal.Generated.{HoldsNoStatement, site_of};
ghost use Rattle.codegen8080.specs.internal.Standing.{ListStands, StatementStands, StepStands, StepsStand};
ghost use Rattle.codegen8080.specs.internal.Statements.{statement_labels, statement_steps};
ghost use Rattle.codegen8080.specs.internal.Carrying.{CarriesOut};

use crate::carrying::{carry, site_of};
use crate::marking::{Marks, OwnPart};
use crate::meeting::{Here, here_after, waiting_after};
use crate::statements::plan_statement;
use exprgen8080::{Emission, Facts};
use statements8080::{Body, Plan, Planned};
use std::alloc::{AllocError, Global};
use treecode::{Range, Statement, StatementNumber, TreeModule};

/// Code that is being emitted: that of a module, the planned steps, whether the end of the code can be reached, and where
/// the parts of the code begin.
pub(crate) struct Generator {
    pub emission: Emission,
    pub plan: Plan,
    pub goes_on: bool,
    pub marks: Marks,
}

// The statement at an index in a list, which has one there.
fn item_at(tree: &TreeModule, list: Range, index: u32) -> StatementNumber
    requires { is_some (item_of (nodes_of tree.now).lists list index) ≡ true }
    ensures { slice_get tree.now.lists.items (list.first + index) ≡ Some result }
{
    match tree.item(list, index) {
        Some(number) => number,
        None => unreachable!(),
    }
}

// The statement with a number, which is there.
fn statement_at(tree: &TreeModule, number: StatementNumber) -> Statement
    requires { is_some (slice_get (nodes_of tree.now).statements number.index) ≡ true }
    ensures { slice_get (nodes_of tree.now).statements number.index ≡ Some result }
{
    match tree.statement(number) {
        Some(statement) => statement,
        None => unreachable!(),
    }
}

impl Generator {
    /// No code of a module.
    pub(crate) fn new(alloc: Global, tree: &TreeModule) -> Result<Generator, AllocError>
        ensures emission { IfOk result (λ generator. IsEmpty tree.now generator.emission) }
        ensures plan { IfOk result (λ generator. generator.plan.list.items ≡ []) }
    {
        Ok(Generator {
            emission: Emission::new(alloc, tree)?,
            plan: Plan::new(alloc),
            goes_on: true,
            marks: Marks::new(alloc),
        })
    }

    /// Returns the code, and where its parts begin.
    pub(crate) fn into_parts(self) -> (Emission, Marks)
        ensures { result.0 ≡ self.emission }
    {
        let Generator {
            emission,
            plan: _,
            goes_on: _,
            marks,
        } = self;
        (emission, marks)
    }

    // The end of the code.
    fn here(&self) -> Here
        ensures { result ≡ here_of self.now }
    {
        Here {
            facts: self.emission.facts,
            goes_on: self.goes_on,
        }
    }

    // Sets the end of the code.
    fn arrive(&mut self, here: Here)
        ensures { self.new ≡ record self.old {
          emission = record (self.old.emission) { facts = here.facts };
          goes_on = here.goes_on;
        } }
    {
        self.emission.facts = here.facts;
        self.goes_on = here.goes_on;
    }

    // Carries out a step that holds no statement. Returns the facts at the label to which the code before `Jumped`
    // jumps.
    fn step(
        &mut self,
        body: &Body<'_>,
        step: Planned,
        waiting: Option<Facts>,
    ) -> Result<Option<Facts>, AllocError>
        requires rise { NumbersRise (nodes_of body.now.tree.now) }
        requires alone { HoldsNoStatement step }
        ensures { IfOk result (λ waits. AddsStep body.now step waiting self.old self.new waits) }
    {
        let here = self.here();
        carry(&mut self.emission, body, here.goes_on, step)?;
        let known = self.emission.facts;
        self.arrive(here_after(here, waiting, known, step));
        Ok(waiting_after(here, waiting, step))
    }

    // Plans a statement, with the next labels.
    #[tactic(auto, using(crate::proofs::Planning::next_is_free, crate::proofs::Planning::labels_are_taken))]
    fn plan_next(&mut self, body: &Body<'_>, statement: Statement) -> Result<(), AllocError>
        ensures plan { OnOk result (self.new.plan.list.items ≡ self.old.plan.list.items
            ++ statement_steps body.now (knowing (site_of body.now) self.old.emission.facts) statement
            self.old.emission.steps.labels) }
        ensures labels { OnOk result (self.new.emission.steps.labels
            ≡ label_after self.old.emission.steps.labels
            (statement_labels body.now (knowing (site_of body.now) self.old.emission.facts) statement)) }
        ensures emission { self.new.emission
            ≡ record (self.old.emission) { steps = self.new.emission.steps } }
        ensures goes_on { self.new.goes_on ≡ self.old.goes_on }
    {
        let site = self.emission.site(&site_of(body));
        let first = self.emission.steps.labels(0);
        self.plan.take_labels_from(first);
        plan_statement(body, &site, &mut self.plan, statement)?;
        let _ = self.emission.steps.labels(self.plan.taken());
        Ok(())
    }

    // Adds the code of a statement.
    #[cycle(statement)]
    fn statement(&mut self, body: &Body<'_>, number: StatementNumber) -> Result<(), AllocError>
        requires rise { NumbersRise (nodes_of body.now.tree.now) }
        requires stands { StatementStands (nodes_of body.now.tree.now) number.index }
        ensures code { OnOk result (AddsStatement body.now number self.old self.new) }
        ensures plan { OnOk result (self.new.plan.list.items ≡ self.old.plan.list.items) }
    {
        let statement = statement_at(body.tree, number);
        let part = OwnPart::Statement(number);
        self.marks.put(&self.emission.writer, part)?;
        let start = self.plan.count();
        self.plan_next(body, statement)?;
        self.goes_on = true;
        self.planned(body, start, number.index as usize)
    }

    // Carries out a step. The number of a statement in it is below a bound.
    #[cycle(statement)]
    fn carry_out(
        &mut self,
        body: &Body<'_>,
        step: Planned,
        waiting: Option<Facts>,
        bound: usize,
    ) -> Result<Option<Facts>, AllocError>
        requires rise { NumbersRise (nodes_of body.now.tree.now) }
        requires stands { StepStands (nodes_of body.now.tree.now) bound step }
        ensures { IfOk result (λ waits. CarriesOut body.now step waiting self.old self.new waits) }
    {
        match step {
            Planned::Statement(part) => {
                self.statement(body, part)?;
                Ok(waiting)
            }
            Planned::List(list) => {
                self.list(body, list, bound)?;
                Ok(waiting)
            }
            step => self.step(body, step, waiting),
        }
    }

    /// Adds the code of the planned steps from an index on, and removes them. The numbers of statements in them are below a
    /// bound.
    #[cycle(statement)]
    pub(crate) fn planned(
        &mut self,
        body: &Body<'_>,
        start: usize,
        bound: usize,
    ) -> Result<(), AllocError>
        requires rise { NumbersRise (nodes_of body.now.tree.now) }
        requires stand { StepsStand (nodes_of body.now.tree.now) bound (drop start self.old.plan.list.items) }
        ensures code { OnOk result
            (AddsPlanned body.now (drop start self.old.plan.list.items) self.old self.new) }
        ensures plan { OnOk result (self.new.plan.list.items ≡ take start self.old.plan.list.items) }
    {
        let end = self.plan.count();
        let mut waiting = None;
        for index in start..end {
            if let Some(step) = self.plan.get(index) {
                waiting = self.carry_out(body, step, waiting, bound)?;
            }
        }
        self.plan.truncate(start);
        Ok(())
    }

    /// Adds the code of the statements of a list, one after another. Their numbers are below a bound.
    #[cycle(statement)]
    pub(crate) fn list(
        &mut self,
        body: &Body<'_>,
        list: Range,
        bound: usize,
    ) -> Result<(), AllocError>
        requires rise { NumbersRise (nodes_of body.now.tree.now) }
        requires stands { ListStands (nodes_of body.now.tree.now) bound list }
        ensures code { OnOk result (AddsList body.now list self.old self.new) }
        ensures plan { OnOk result (self.new.plan.list.items ≡ self.old.plan.list.items) }
    {
        self.goes_on = true;
        for index in 0..list.count {
            let item = item_at(body.tree, list, index);
            self.statement(body, item)?;
        }
        Ok(())
    }
}

// Written out so that the fields are dropped in one place.
impl Drop for Generator {
    fn drop(self) {
        let Generator {
            emission: _,
            plan: _,
            goes_on: _,
            marks: _,
        } = self;
    }
}
