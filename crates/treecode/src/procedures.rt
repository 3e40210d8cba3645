//! Lowering of typed procedures to tree code.

ghost use Rattle.std.specs.Prelude.{◌≡◌, ◌++◌, map, zip, length, IfOk, OnOk};
ghost use Rattle.typed_trees.specs.Jumps.{BodyIsSound};
ghost use Rattle.typed_trees.specs.Views.{list_view, procedure_view};
ghost use Rattle.layout.specs.Views.{layout_view};
ghost use Rattle.treecode.specs.internal.Homes.{kind_with, parameter_at};
ghost use Rattle.treecode.specs.internal.Nodes.{nodes_of};
ghost use Rattle.treecode.specs.internal.Beside.{outside, walk_of};
ghost use Rattle.treecode.specs.internal.Completed.{AreComplete, BodiesAreSound, IsBody, MainIsComplete, completed, with_body, with_main};
ghost use Rattle.treecode.specs.internal.Placed.{heading_in, heading_of, headings_in, headings_of};
ghost use Rattle.treecode.specs.internal.Sound.{AreSound};

use crate::globals::Externals;
use crate::homes::location_of;
use crate::lists::Range;
use crate::lowering::Lowering;
use crate::module::TreeModule;
use crate::procedure::{Parameter, ProcedureKind, TreeProcedure};
use layout::Layout;
use std::alloc::{AllocError, Global};
use trees::{ScalarType, next_number};
use typed_trees::{TypedProcedure, Visibility};

// The kind of a procedure, from its index among the EXTERNAL names, if it has one.
fn kind_of(external: Option<u32>, typed: &TypedProcedure) -> ProcedureKind
    ensures { result ≡ kind_with external typed.now.visibility typed.now.is_reentrant }
{
    match (typed.visibility, typed.is_reentrant) {
        (Visibility::External, _) => ProcedureKind::External(external.unwrap_or(0)),
        (Visibility::Private | Visibility::Public, true) => ProcedureKind::Reentrant,
        (Visibility::Private | Visibility::Public, false) => ProcedureKind::Static,
    }
}

// A procedure with this number, with only its heading.
fn heading_of(
    alloc: Global,
    externals: &Externals,
    number: u32,
    typed: &TypedProcedure,
) -> TreeProcedure
    ensures { heading_of result
        ≡ heading_in externals.now.procedures.entries.items number (procedure_view typed.now) }
{
    let kind = kind_of(externals.procedures.get(number), typed);
    let mut procedure = TreeProcedure::new(alloc, kind, typed.result);
    procedure.frame_bytes = typed.frame_bytes;
    procedure
}

/// Adds the procedures of a module, with only their headings.
pub(crate) fn add_headings(
    alloc: Global,
    tree: &mut TreeModule,
    externals: &Externals,
    procedures: &[TypedProcedure],
) -> Result<(), AllocError>
    ensures kept { OnOk result (tree.new ≡ record tree.old { procedures = tree.new.procedures }) }
    ensures headings { OnOk result (headings_of tree.new ≡ headings_of tree.old
        ++ headings_in externals.now.procedures.entries.items 0 (map procedure_view procedures.now)) }
{
    let mut number: u32 = 0;
    let mut rest = procedures;
    while let [typed, more @ ..] = rest {
        tree.procedures
            .push(heading_of(alloc, externals, number, typed))?;
        number = next_number(number)?;
        rest = more;
    }
    Ok(())
}

// A parameter, from the number of its object.
fn parameter_at(tree: &TreeModule, scalar: ScalarType, object: u32) -> Parameter
    ensures { result ≡ parameter_at (nodes_of tree.now).homes (scalar, object) }
{
    Parameter {
        scalar,
        location: location_of(tree.home(object)),
    }
}

// The parameters of a procedure, each with the home of its object.
fn parameters_of(
    alloc: Global,
    tree: &TreeModule,
    scalars: &[ScalarType],
    objects: &[u32],
) -> Result<Vec<Parameter>, AllocError>
    ensures { IfOk result (λ parameters. parameters.items
        ≡ map (parameter_at (nodes_of tree.now).homes) (zip scalars.now objects.now)) }
{
    let mut parameters = Vec::with_capacity(alloc, scalars.len())?;
    let mut types = scalars;
    let mut places = objects;
    while let [scalar, more_types @ ..] = types {
        let [object, more_places @ ..] = places else {
            break;
        };
        parameters.push(parameter_at(tree, *scalar, *object))?;
        types = more_types;
        places = more_places;
    }
    Ok(parameters)
}

// The body of a procedure.
#[derive(Drop)]
struct Body {
    parameters: Vec<Parameter>,
    range: Range,
    reaches_its_end: bool,
    label_count: u32,
    height: u32,
}

impl TreeProcedure {
    // Completes a procedure, which has its heading, with its body.
    fn complete(&mut self, body: Body)
        ensures { self.new ≡ completed self.old body }
    {
        self.parameters = body.parameters;
        self.body = body.range;
        self.reaches_its_end = body.reaches_its_end;
        self.label_count = body.label_count;
        self.height = body.height;
    }
}

impl Lowering {
    // Adds the body of a procedure.
    fn body(&mut self, storage: &Layout, typed: &TypedProcedure) -> Result<Body, AllocError>
        ensures kept { OnOk result (outside self.new ≡ outside self.old) }
        ensures ok { IfOk result (λ body. IsBody (layout_view storage.now) (walk_of self.old)
            (walk_of self.new) body (procedure_view typed.now)) }
    {
        let parameters = parameters_of(
            self.alloc,
            &self.tree,
            typed.parameter_types.as_slice(),
            typed.parameters.as_slice(),
        )?;
        self.begin_body();
        let list = self.list(storage, &typed.body)?;
        Ok(Body {
            parameters,
            range: list.range,
            reaches_its_end: list.reaches_its_end,
            label_count: self.label_count(),
            height: self.height(),
        })
    }

    // Completes the procedure with this number, which has its heading, with its body.
    #[tactic(auto, unfolding(crate::specs::internal::Beside::beside))]
    fn put_body(&mut self, number: usize, body: Body)
        ensures walk { walk_of self.new ≡ walk_of self.old }
        ensures outside { outside self.new ≡ with_body (outside self.old) number body }
    {
        if let Some(procedure) = self.tree.procedures.get_mut(number) {
            procedure.complete(body);
        }
    }

    /// Adds the bodies of the procedures of a module, which have their headings.
    pub(crate) fn add_bodies(
        &mut self,
        storage: &Layout,
        procedures: &[TypedProcedure],
    ) -> Result<(), AllocError>
        requires sound { AreSound (nodes_of self.old.tree) }
        requires jumps { BodiesAreSound (map procedure_view procedures.now) }
        ensures { OnOk result (AreComplete (layout_view storage.now) (walk_of self.old)
            (walk_of self.new) (outside self.old) (outside self.new) (map procedure_view procedures.now)
            (length procedures.now)) }
    {
        for (number, typed) in procedures.iter().enumerate() {
            let body = self.body(storage, typed)?;
            self.put_body(number, body);
        }
        Ok(())
    }

    // Completes the main program with its body.
    #[tactic(auto, unfolding(crate::specs::internal::Beside::beside))]
    fn put_main(&mut self, body: Body)
        ensures walk { walk_of self.new ≡ walk_of self.old }
        ensures outside { outside self.new ≡ with_main (outside self.old) body }
    {
        self.tree.main.complete(body);
    }

    /// Adds the statements at the outer level of a module.
    pub(crate) fn add_main(
        &mut self,
        storage: &Layout,
        typed: &TypedProcedure,
    ) -> Result<(), AllocError>
        requires sound { AreSound (nodes_of self.old.tree) }
        requires jumps { BodyIsSound (list_view typed.now.body) }
        ensures { OnOk result (MainIsComplete (layout_view storage.now) (walk_of self.old)
            (walk_of self.new) (outside self.old) (outside self.new) (procedure_view typed.now)) }
    {
        let body = self.body(storage, typed)?;
        self.put_main(body);
        Ok(())
    }
}
