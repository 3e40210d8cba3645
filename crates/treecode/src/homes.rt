//! The places where the objects of a module begin.

ghost use Rattle.std.specs.Prelude.{◌≡◌, [], map, None, slice_index_or, IfOk, OnOk};
ghost use Rattle.typed_trees.specs.Views.{module_view, object_view, procedure_view};
ghost use Rattle.layout.specs.Views.{layout_view};
ghost use Rattle.treecode.specs.internal.Homes.{external_place, home_after, location_of, place_of_slot};
ghost use Rattle.treecode.specs.internal.Numbers.{number_in};
ghost use Rattle.treecode.specs.internal.Placed.{all_placed, headings_after, headings_of, home_in, placed_in, variable_of, with_all_parameters, with_parameters, with_placed};

use crate::globals::Externals;
use crate::lowering::{capped, wrapped};
use crate::module::TreeModule;
use crate::numbers::Numbers;
use crate::place::{Home, Location, Place};
use crate::procedure::{FrameVariable, TreeProcedure};
use layout::{Layout, Segment};
use std::alloc::{AllocError, Global};
use trees::next_number;
use typed_trees::{AtAddress, Home as TypedHome, Typed, TypedObject, TypedProcedure};

// The home of an object `distance` bytes further on. A BASED object has no place of its own.
fn home_after(home: Home, distance: u16) -> Home
    ensures { result ≡ home_after home distance }
{
    match home {
        Home::Static(place) => Home::Static(place.after(distance)),
        Home::Based(_) | Home::Frame(_) => Home::Static(Place::Number(distance)),
    }
}

/// The location of a scalar that is not BASED, by its home.
pub(crate) fn location_of(home: Home) -> Location
    ensures { result ≡ location_of home }
{
    match home {
        Home::Static(place) => Location::Static(place),
        Home::Frame(variable) => Location::Frame {
            variable,
            offset: 0,
        },
        Home::Based(location) => location,
    }
}

// Adds the index of each object that is a parameter in the heading of its procedure, counted from 0.
fn add_parameters(parameters: &mut Numbers, objects: &[u32]) -> Result<(), AllocError>
    ensures { OnOk result (parameters.new.entries.items
        ≡ with_parameters parameters.old.entries.items 0 objects.now) }
{
    let mut index: u32 = 0;
    let mut rest = objects;
    while let [object, more @ ..] = rest {
        parameters.insert(*object, index)?;
        index = next_number(index)?;
        rest = more;
    }
    Ok(())
}

// The index of each object that is a parameter in the heading of its procedure, counted from 0.
fn parameters_of(alloc: Global, procedures: &[TypedProcedure]) -> Result<Numbers, AllocError>
    ensures { IfOk result (λ parameters. parameters.entries.items
        ≡ with_all_parameters [] (map procedure_view procedures.now)) }
{
    let mut parameters = Numbers::new(alloc);
    let mut rest = procedures;
    while let [procedure, more @ ..] = rest {
        add_parameters(&mut parameters, procedure.parameters.as_slice())?;
        rest = more;
    }
    Ok(parameters)
}

// A variable or a parameter in the frame of a procedure.
fn frame_variable(object: &TypedObject, parameter: Option<u32>) -> FrameVariable
    ensures { result ≡ variable_of (object_view object.now) parameter }
{
    FrameVariable {
        size: capped(object.size()),
        parameter: match parameter {
            Some(parameter) => Some(wrapped(parameter)),
            None => None,
        },
    }
}

impl TreeProcedure {
    ghost use Rattle.std.specs.Prelude.{◌≡◌, length, min, IfOk, OnOk};
    ghost use Rattle.treecode.specs.internal.Placed.{heading_of, with_variable};

    // Adds a variable to its frame, and returns its number there.
    fn add_variable(&mut self, variable: FrameVariable) -> Result<u16, AllocError>
        ensures heading { OnOk result (heading_of self.new ≡ with_variable variable (heading_of self.old)) }
        ensures number { IfOk result (λ number. number ≡ min (length (heading_of self.old).frame) 65535) }
    {
        let number = u16::try_from(self.frame.len()).unwrap_or(u16::MAX);
        self.frame.push(variable)?;
        Ok(number)
    }
}

impl TreeModule {
    ghost use Rattle.std.specs.Prelude.{◌≡◌, IfOk, OnOk};
    ghost use Rattle.treecode.specs.internal.Placed.{headings_of, variable_number, with_variable_in};

    // Adds a variable to the frame of a procedure, and returns its number there.
    fn add_frame_variable(
        &mut self,
        procedure: u32,
        variable: FrameVariable,
    ) -> Result<u16, AllocError>
        ensures kept { self.new ≡ record self.old { procedures = self.new.procedures } }
        ensures headings { OnOk result (headings_of self.new
            ≡ with_variable_in (headings_of self.old) procedure variable) }
        ensures number { IfOk result (λ number. number ≡ variable_number (headings_of self.old) procedure) }
    {
        match self.procedures.get_mut(procedure as usize) {
            Some(procedure) => procedure.add_variable(variable),
            None => Ok(0),
        }
    }
}

// The place of an object in another module.
fn external_place(externals: &Externals, number: u32) -> Place
    ensures { result ≡ external_place (number_in externals.now.objects.entries.items number) }
{
    match externals.objects.get(number) {
        Some(name) => Place::External { name, offset: 0 },
        None => Place::Number(0),
    }
}

// The place of an object in its segment, by its number.
fn place_in_segment(storage: &Layout, number: u32) -> Place
    ensures { result ≡ place_of_slot (slice_index_or (layout_view storage.now).objects number None) }
{
    match storage.objects.get(number as usize) {
        Some(Some(slot)) => match slot.segment {
            Segment::Code => Place::Code(wrapped(slot.offset)),
            Segment::Data => Place::Data(wrapped(slot.offset)),
        },
        Some(None) | None => Place::Number(0),
    }
}

// The home of an object, by its number, if those before it have theirs. An object in a frame is added to that frame.
fn home_of(
    tree: &mut TreeModule,
    externals: &Externals,
    storage: &Layout,
    object: &TypedObject,
    number: u32,
    parameter: Option<u32>,
) -> Result<Home, AllocError>
    ensures kept { tree.new ≡ record tree.old { procedures = tree.new.procedures } }
    ensures headings { OnOk result (headings_of tree.new ≡ headings_after (headings_of tree.old)
        (variable_of (object_view object.now) parameter) (object_view object.now).home) }
    ensures home { IfOk result (λ home. home ≡ home_in externals.now.objects.entries.items
        (layout_view storage.now) (placed_in tree.old) number (object_view object.now).home) }
{
    match &object.home {
        TypedHome::Data(_) | TypedHome::Constant(_) => {
            Ok(Home::Static(place_in_segment(storage, number)))
        }
        TypedHome::At(AtAddress::AtNumber(number)) => Ok(Home::Static(Place::Number(*number))),
        // Objects that AT names come before.
        TypedHome::At(AtAddress::AtObject { object, offset }) => {
            Ok(home_after(tree.home(*object), *offset))
        }
        TypedHome::Based(base) => Ok(Home::Based(location_of(tree.home(*base)))),
        TypedHome::External => Ok(Home::Static(external_place(externals, number))),
        TypedHome::Absent => Ok(Home::Static(Place::Number(0))),
        TypedHome::Frame(procedure) => {
            let variable = frame_variable(object, parameter);
            Ok(Home::Frame(tree.add_frame_variable(*procedure, variable)?))
        }
    }
}

// Adds the home of an object, by its number.
#[tactic(auto, using(crate::proofs::HomeTables::home_kept, crate::proofs::HomeTables::home_placed))]
fn add_home(
    tree: &mut TreeModule,
    externals: &Externals,
    parameters: &Numbers,
    storage: &Layout,
    object: &TypedObject,
    number: u32,
) -> Result<(), AllocError>
    ensures kept { OnOk result (tree.new ≡ record tree.old {
      homes = tree.new.homes;
      procedures = tree.new.procedures;
      homes_are_words = tree.new.homes_are_words;
    }) }
    ensures placed { OnOk result (placed_in tree.new ≡ with_placed externals.now.objects.entries.items
        parameters.now.entries.items (layout_view storage.now) (placed_in tree.old) number
        (object_view object.now)) }
{
    let home = home_of(
        tree,
        externals,
        storage,
        object,
        number,
        parameters.get(number),
    )?;
    tree.add_home(home)?;
    Ok(())
}

/// Adds the homes of the objects of a module, and to each frame its variables. The procedures have been added before.
#[tactic(auto, using(crate::proofs::HomeTables::kept_again))]
pub(crate) fn add_homes(
    alloc: Global,
    tree: &mut TreeModule,
    externals: &Externals,
    typed: &Typed,
    storage: &Layout,
) -> Result<(), AllocError>
    ensures kept { OnOk result (tree.new ≡ record tree.old {
      homes = tree.new.homes;
      procedures = tree.new.procedures;
      homes_are_words = tree.new.homes_are_words;
    }) }
    ensures placed { OnOk result (placed_in tree.new ≡ all_placed externals.now.objects.entries.items
        (with_all_parameters [] (module_view typed.now).procedures) (layout_view storage.now)
        (placed_in tree.old) 0 (module_view typed.now).objects) }
{
    let parameters = parameters_of(alloc, typed.procedures.as_slice())?;
    let mut number: u32 = 0;
    let mut rest = typed.objects.as_slice();
    while let [object, more @ ..] = rest {
        add_home(tree, externals, &parameters, storage, object, number)?;
        number = next_number(number)?;
        rest = more;
    }
    Ok(())
}
