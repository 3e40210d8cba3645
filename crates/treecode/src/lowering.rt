//! Lowering of typed modules to tree code.

ghost use Rattle.std.specs.Prelude.{None, ◌≡◌, ◌+◌, ◌%◌, min, [], IfOk, OnOk};
ghost use Rattle.typed_trees.specs.Jumps.{JumpsAreSound};
ghost use Rattle.typed_trees.specs.Views.{module_view};
ghost use Rattle.layout.specs.Views.{layout_view};
ghost use Rattle.treecode.specs.internal.Known.{offset_of_list};
ghost use Rattle.treecode.specs.internal.Homes.{externals_of, homes_of};
ghost use Rattle.treecode.specs.internal.Lowered.{IsLowered};
ghost use Rattle.treecode.specs.declared.procedure.ProcedureKind.TheVariants.{Static};
ghost use Rattle.treecode.specs.internal.Beside.{outside, walk_of};
ghost use Rattle.treecode.specs.internal.Completed.{BodiesAreAdded};
ghost use Rattle.treecode.specs.internal.Placed.{HeadingsAre, headings_of};
ghost use Rattle.treecode.specs.internal.Walking.{begun, label_in, noted, numbered, with_label};

use crate::contents::{constants_of, variables_of};
use crate::globals::{Externals, externals_of, publics_of};
use crate::homes::add_homes;
use crate::module::TreeModule;
use crate::numbers::Numbers;
use crate::procedure::{ProcedureKind, TreeProcedure};
use crate::procedures::add_headings;
use layout::Layout;
use std::alloc::{AllocError, Global};
use typed_trees::Typed;

/// A module that is being lowered: its tree code so far, and what lowering needs beside it.
#[derive(Drop)]
pub(crate) struct Lowering {
    pub(crate) alloc: Global,
    pub(crate) tree: TreeModule,
    /// The number of each label in its procedure, by its number in the module.
    labels: Numbers,
    /// The number of labels in the body so far.
    label_count: u32,
    /// The greatest height of an expression, a target or a call in the body so far.
    height: u32,
}

// A module before anything is lowered.
#[tactic(auto, using(crate::proofs::HomeWords::no_homes, crate::proofs::TableNumbers::no_expressions))]
fn empty_module(alloc: Global, typed: &Typed) -> TreeModule
    ensures expressions { result.expressions.items ≡ [] }
    ensures name { result.name ≡ typed.now.name }
    ensures main_kind { result.main.kind ≡ Static }
    ensures main_frame { result.main.frame.items ≡ [] }
    ensures main_frame_bytes { result.main.frame_bytes ≡ 0 }
    ensures main_result { result.main.result ≡ None }
    ensures homes { result.homes.items ≡ [] }
    ensures procedures { result.procedures.items ≡ [] }
{
    TreeModule {
        name: typed.name,
        homes: Vec::new(alloc),
        expressions: Vec::new(alloc),
        statements: Vec::new(alloc),
        arguments: Vec::new(alloc),
        targets: Vec::new(alloc),
        lists: Vec::new(alloc),
        procedures: Vec::new(alloc),
        main: TreeProcedure::new(alloc, ProcedureKind::Static, None),
        constants: Vec::new(alloc),
        variables: Vec::new(alloc),
        publics: Vec::new(alloc),
        externals: Vec::new(alloc),
    }
}

/// An offset modulo the size of memory.
pub(crate) fn wrapped(offset: u32) -> u16
    ensures { result ≡ offset % 65536 }
{
    (offset % 65536) as u16
}

/// A size, saturated at 65535.
pub(crate) fn capped(size: u32) -> u16
    ensures { result ≡ min size 65535 }
{
    u16::try_from(size).unwrap_or(u16::MAX)
}

/// The address of a constant list, as an offset from the start of the code segment.
pub(crate) fn list_offset(storage: &Layout, list: u32) -> u16
    ensures { result ≡ offset_of_list (layout_view storage.now) list }
{
    match storage.lists.get(list as usize) {
        Some(slot) => wrapped(slot.offset),
        None => 0,
    }
}

impl Lowering {
    // Begins to lower the bodies of a module.
    fn new(alloc: Global, tree: TreeModule) -> Lowering
        ensures { result.tree ≡ tree }
    {
        Lowering {
            alloc,
            tree,
            labels: Numbers::new(alloc),
            label_count: 0,
            height: 0,
        }
    }

    // Returns the tree code.
    fn finish(self) -> TreeModule
        ensures { result ≡ self.tree }
    {
        let Lowering {
            alloc: _,
            tree,
            labels: _,
            label_count: _,
            height: _,
        } = self;
        tree
    }

    /// The number in its procedure of a label of the module, after its list has begun.
    #[tactic(auto, unfolding(crate::specs::internal::Beside::beside))]
    pub(crate) fn label(&self, label: u32) -> u32
        ensures { result ≡ label_in (walk_of self.now) label }
    {
        self.labels.get(label).unwrap_or(0)
    }

    // Gives the next number of the procedure to a label of the module.
    #[tactic(auto, unfolding(crate::specs::internal::Beside::beside))]
    fn number_label(&mut self, label: u32) -> Result<(), AllocError>
        ensures kept { OnOk result (outside self.new ≡ outside self.old) }
        ensures ok { OnOk result (walk_of self.new ≡ with_label (walk_of self.old) label) }
    {
        self.labels.insert(label, self.label_count)?;
        match self.label_count.checked_add(1) {
            Some(count) => {
                self.label_count = count;
                Ok(())
            }
            // No number of 32 bits is left for a label.
            None => Err(AllocError),
        }
    }

    /// Gives the next numbers of the procedure to `count` labels of the module, from the label `first` on.
    pub(crate) fn number_labels(&mut self, first: u32, count: usize) -> Result<(), AllocError>
        ensures kept { OnOk result (outside self.new ≡ outside self.old) }
        ensures ok { OnOk result (walk_of self.new ≡ numbered (walk_of self.old) first count) }
    {
        for index in 0..count {
            let label = label_after(first, index)?;
            self.number_label(label)?;
        }
        Ok(())
    }

    /// Notes the height of an expression, a target or a call in the body.
    #[tactic(auto, unfolding(crate::specs::internal::Beside::beside))]
    pub(crate) fn note_height(&mut self, height: u16)
        ensures kept { outside self.new ≡ outside self.old }
        ensures ok { walk_of self.new ≡ noted (walk_of self.old) height }
    {
        self.height = self.height.max(height as u32);
    }

    /// Begins a body, with no labels and the height 0.
    #[tactic(auto, unfolding(crate::specs::internal::Beside::beside))]
    pub(crate) fn begin_body(&mut self)
        ensures kept { outside self.new ≡ outside self.old }
        ensures ok { walk_of self.new ≡ begun (walk_of self.old) }
    {
        self.label_count = 0;
        self.height = 0;
    }

    /// The number of labels in the body so far.
    #[tactic(auto, unfolding(crate::specs::internal::Beside::beside))]
    pub(crate) fn label_count(&self) -> u32
        ensures { result ≡ (walk_of self.now).label_count }
    {
        self.label_count
    }

    /// The greatest height of an expression, a target or a call in the body so far.
    #[tactic(auto, unfolding(crate::specs::internal::Beside::beside))]
    pub(crate) fn height(&self) -> u32
        ensures { result ≡ (walk_of self.now).height }
    {
        self.height
    }
}

// The label `index` after the first one, or out of memory past the greatest number of 32 bits.
fn label_after(first: u32, index: usize) -> Result<u32, AllocError>
    ensures { IfOk result (λ label. label ≡ first + index) }
{
    match u32::try_from(index) {
        Ok(index) => match first.checked_add(index) {
            Some(label) => Ok(label),
            // The number of the label passes 32 bits.
            None => Err(AllocError),
        },
        // The index of the label passes 32 bits.
        Err(_) => Err(AllocError),
    }
}

// A module with the tables that come before its bodies: its EXTERNAL names, the headings of its procedures, and the
// homes of its objects.
fn with_declarations(
    alloc: Global,
    typed: &Typed,
    storage: &Layout,
) -> Result<TreeModule, AllocError>
    ensures expressions { IfOk result (λ tree. tree.expressions.items ≡ []) }
    ensures name { IfOk result (λ tree. tree.name ≡ typed.now.name) }
    ensures main_kind { IfOk result (λ tree. tree.main.kind ≡ Static) }
    ensures main_frame { IfOk result (λ tree. tree.main.frame.items ≡ []) }
    ensures main_frame_bytes { IfOk result (λ tree. tree.main.frame_bytes ≡ 0) }
    ensures main_result { IfOk result (λ tree. tree.main.result ≡ None) }
    ensures externals { IfOk result (λ tree. tree.externals.items ≡ externals_of (module_view typed.now)) }
    ensures homes { IfOk result (λ tree. tree.homes.items
        ≡ homes_of (module_view typed.now) (layout_view storage.now)) }
    ensures headings { IfOk result (λ tree. HeadingsAre (module_view typed.now) (headings_of tree)) }
{
    let mut tree = empty_module(alloc, typed);
    let externals = externals_of(alloc, typed)?;
    add_headings(alloc, &mut tree, &externals, typed.procedures.as_slice())?;
    add_homes(alloc, &mut tree, &externals, typed, storage)?;
    let Externals {
        names,
        objects: _,
        procedures: _,
    } = externals;
    tree.externals = names;
    Ok(tree)
}

// Adds the bodies of the procedures and the statements at the outer level to a module.
fn with_bodies(
    alloc: Global,
    tree: TreeModule,
    typed: &Typed,
    storage: &Layout,
) -> Result<TreeModule, AllocError>
    requires expressions { tree.expressions.items ≡ [] }
    requires jumps { JumpsAreSound (module_view typed.now) }
    ensures { IfOk result (BodiesAreAdded (module_view typed.now) (layout_view storage.now) tree) }
{
    let mut lowering = Lowering::new(alloc, tree);
    lowering.add_bodies(storage, typed.procedures.as_slice())?;
    lowering.add_main(storage, &typed.main)?;
    Ok(lowering.finish())
}

/// Lowers a typed module to tree code, with the storage of its objects.
pub fn lower(alloc: Global, typed: &Typed, storage: &Layout) -> Result<TreeModule, AllocError>
    requires jumps { JumpsAreSound (module_view typed.now) }
    ensures lowered { IfOk result (IsLowered (module_view typed.now) (layout_view storage.now)) }
{
    let tree = with_declarations(alloc, typed, storage)?;
    let mut tree = with_bodies(alloc, tree, typed, storage)?;
    tree.constants = constants_of(alloc, &tree, typed)?;
    tree.variables = variables_of(alloc, &tree, typed)?;
    tree.publics = publics_of(alloc, &tree, typed)?;
    Ok(tree)
}
