//! The PUBLIC and EXTERNAL names of a module.

ghost use Rattle.std.specs.Prelude.{◌≡◌, IfOk, OnOk};
ghost use Rattle.typed_trees.specs.Views.{module_view, object_view, procedure_view};
ghost use Rattle.treecode.specs.internal.Contents.{public_item, public_object, public_procedure, publics_of, static_place};
ghost use Rattle.treecode.specs.internal.Homes.{external_object, external_procedure};
ghost use Rattle.treecode.specs.internal.Nodes.{nodes_of};
ghost use Rattle.treecode.specs.internal.Gathered.{all_gathered, gathered_view, none_gathered, with_index_of_name, with_name};

use crate::module::{ExternalName, PublicName, PublicPlace, TreeModule, next_index};
use crate::numbers::Numbers;
use crate::place::{Home, Place};
use std::alloc::{AllocError, Global};
use typed_trees::{GlobalItem, Home as TypedHome, Typed, TypedObject, TypedProcedure, Visibility};

/// The EXTERNAL names of a module in the order of the text, and the index among them of each EXTERNAL object and
/// procedure, by its number.
#[derive(Drop)]
pub(crate) struct Externals {
    pub(crate) names: Vec<ExternalName>,
    pub(crate) objects: Numbers,
    pub(crate) procedures: Numbers,
}

// The name of an object, if it is EXTERNAL.
fn external_object(object: &TypedObject) -> Option<ExternalName>
    ensures { result ≡ external_object (object_view object.now).home (object_view object.now).name }
{
    match object.home {
        TypedHome::External => Some(ExternalName { name: object.name }),
        TypedHome::Data(_)
        | TypedHome::Constant(_)
        | TypedHome::At(_)
        | TypedHome::Based(_)
        | TypedHome::Absent
        | TypedHome::Frame(_) => None,
    }
}

// The name of a procedure, if it is EXTERNAL.
fn external_procedure(procedure: &TypedProcedure) -> Option<ExternalName>
    ensures { result ≡ external_procedure procedure.now.visibility procedure.now.name }
{
    match procedure.visibility {
        Visibility::External => Some(ExternalName {
            name: procedure.name,
        }),
        Visibility::Private | Visibility::Public => None,
    }
}

// Adds a name, if there is one, and its index to the numbers of the objects or the procedures.
fn add_name(
    names: &mut Vec<ExternalName>,
    numbers: &mut Numbers,
    number: u32,
    name: Option<ExternalName>,
) -> Result<(), AllocError>
    ensures names { OnOk result (names.new.items ≡ with_name names.old.items name) }
    ensures numbers { OnOk result (numbers.new.entries.items
        ≡ with_index_of_name numbers.old.entries.items number names.old.items name) }
{
    if let Some(name) = name {
        let index = next_index(names.len())?;
        names.push(name)?;
        numbers.insert(number, index)?;
    }
    Ok(())
}

impl Externals {
    ghost use Rattle.std.specs.Prelude.{◌≡◌, OnOk};
    ghost use Rattle.typed_trees.specs.Views.{module_view};
    ghost use Rattle.treecode.specs.internal.Gathered.{gathered_view, none_gathered, with_external};

    // No names.
    fn new(alloc: Global) -> Externals
        ensures { gathered_view result ≡ none_gathered }
    {
        Externals {
            names: Vec::new(alloc),
            objects: Numbers::new(alloc),
            procedures: Numbers::new(alloc),
        }
    }

    // Adds an object or a procedure, if it is EXTERNAL.
    fn add_item(&mut self, typed: &Typed, item: GlobalItem) -> Result<(), AllocError>
        ensures { OnOk result (gathered_view self.new
            ≡ with_external (module_view typed.now) (gathered_view self.old) item) }
    {
        match item {
            GlobalItem::GlobalObject(number) => match typed.objects.get(number as usize) {
                Some(object) => {
                    let name = external_object(object);
                    add_name(&mut self.names, &mut self.objects, number, name)
                }
                None => Ok(()),
            },
            GlobalItem::GlobalProcedure(number) => match typed.procedures.get(number as usize) {
                Some(procedure) => {
                    let name = external_procedure(procedure);
                    add_name(&mut self.names, &mut self.procedures, number, name)
                }
                None => Ok(()),
            },
        }
    }
}

/// The EXTERNAL names of a module.
pub(crate) fn externals_of(alloc: Global, typed: &Typed) -> Result<Externals, AllocError>
    ensures { IfOk result (λ externals. gathered_view externals
        ≡ all_gathered (module_view typed.now) none_gathered typed.now.globals.items) }
{
    let mut externals = Externals::new(alloc);
    let mut rest = typed.globals.as_slice();
    while let [item, more @ ..] = rest {
        externals.add_item(typed, *item)?;
        rest = more;
    }
    Ok(externals)
}

// The place in memory where an object begins.
fn static_place(home: Home) -> Place
    ensures { result ≡ static_place home }
{
    match home {
        Home::Static(place) => place,
        Home::Based(_) | Home::Frame(_) => Place::Number(0),
    }
}

// The PUBLIC name of an object and its place, if it is PUBLIC.
fn public_object(tree: &TreeModule, number: u32, object: &TypedObject) -> Option<PublicName>
    ensures { result ≡ public_object (nodes_of tree.now).homes number (object_view object.now) }
{
    match object.home {
        TypedHome::External => None,
        TypedHome::Data(_)
        | TypedHome::Constant(_)
        | TypedHome::At(_)
        | TypedHome::Based(_)
        | TypedHome::Absent
        | TypedHome::Frame(_) => Some(PublicName {
            name: object.name,
            place: PublicPlace::Object(static_place(tree.home(number))),
        }),
    }
}

// The PUBLIC name of a procedure and its place, if it is PUBLIC.
fn public_procedure(number: u32, procedure: &TypedProcedure) -> Option<PublicName>
    ensures { result ≡ public_procedure number (procedure_view procedure.now) }
{
    match procedure.visibility {
        Visibility::External => None,
        Visibility::Private | Visibility::Public => Some(PublicName {
            name: procedure.name,
            place: PublicPlace::Procedure(number),
        }),
    }
}

// The PUBLIC name of an object or a procedure and its place, if it is PUBLIC.
fn public_item(tree: &TreeModule, typed: &Typed, item: GlobalItem) -> Option<PublicName>
    ensures { result ≡ public_item (module_view typed.now) (nodes_of tree.now).homes item }
{
    match item {
        GlobalItem::GlobalObject(number) => match typed.objects.get(number as usize) {
            Some(object) => public_object(tree, number, object),
            None => None,
        },
        GlobalItem::GlobalProcedure(number) => match typed.procedures.get(number as usize) {
            Some(procedure) => public_procedure(number, procedure),
            None => None,
        },
    }
}

/// The PUBLIC names of a module, in the order of the text.
#[tactic(auto, unfolding(crate::specs::internal::Contents::publics_of))]
pub(crate) fn publics_of(
    alloc: Global,
    tree: &TreeModule,
    typed: &Typed,
) -> Result<Vec<PublicName>, AllocError>
    ensures { IfOk result (λ publics. publics.items
        ≡ publics_of (module_view typed.now) (nodes_of tree.now).homes) }
{
    let mut publics = Vec::new(alloc);
    let mut rest = typed.globals.as_slice();
    while let [item, more @ ..] = rest {
        if let Some(public) = public_item(tree, typed, *item) {
            publics.push(public)?;
        }
        rest = more;
    }
    Ok(publics)
}
