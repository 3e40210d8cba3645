//! The first PUBLIC of each name.

ghost use Rattle.std.specs.Prelude.{◌≡◌, [], map, OnOk, IfOk};
ghost use Rattle.std.specs.Map.{lookup};
ghost use Rattle.std.specs.Str.{bytes_eq};
ghost use Rattle.indexmap.specs.IndexMap.{insert_entry};
ghost use Rattle.typed_trees.specs.Views.{module_view, object_view, procedure_view};
ghost use Rattle.layout.specs.Joined.{is_public_procedure};
ghost use Rattle.resolving.specs.internal.PublicNames.{public_objects, public_procedures, with_all_objects, with_all_procedures, with_found, with_objects, with_procedures, with_public};

use indexmap::IndexMap;
use std::alloc::{AllocError, Global};
use trees::Name;
use typed_trees::{Typed, TypedObject, TypedProcedure, Visibility};

/// An object or a procedure of a program: by the number of its module and its own number there, both from 0 on.
#[derive(Clone, Copy)]
pub struct Found {
    pub number_of_module: usize,
    pub number: usize,
}

/// The entry of the table for a name.
#[tactic(auto, using(crate::proofs::PublicNames::found_some, crate::proofs::PublicNames::found_none))]
pub(crate) fn found_in(table: &IndexMap<Name, Found>, name: Name) -> Option<Found>
    ensures { result ≡ lookup (bytes_eq name) table.now.entries }
{
    match table.get(&name) {
        Some(found) => Some(*found),
        None => None,
    }
}

// A name has this entry from now on.
#[tactic(auto, using(symbols::proofs::Keys::same_keys))]
fn insert(table: &mut IndexMap<Name, Found>, name: Name, found: Found) -> Result<(), AllocError>
    ensures { OnOk result (table.new.entries ≡ insert_entry bytes_eq table.old.entries name found) }
{
    match table.insert(name, found) {
        Ok(_) => Ok(()),
        // A table fails only if memory runs out.
        Err(_) => Err(AllocError),
    }
}

// Takes in one more PUBLIC, if its name is new.
#[tactic(auto, using(crate::proofs::PublicNames::put_new, crate::proofs::PublicNames::put_again))]
fn put(table: &mut IndexMap<Name, Found>, name: Name, found: Found) -> Result<(), AllocError>
    ensures { OnOk result (table.new.entries ≡ with_found table.old.entries name found) }
{
    if found_in(table, name).is_some() {
        return Ok(());
    }
    insert(table, name, found)?;
    Ok(())
}

// Takes in one more name, if it is PUBLIC.
fn put_public(
    table: &mut IndexMap<Name, Found>,
    is_public: bool,
    name: Name,
    found: Found,
) -> Result<(), AllocError>
    ensures { OnOk result (table.new.entries ≡ with_public table.old.entries is_public name found) }
{
    if is_public {
        put(table, name, found)?;
    }
    Ok(())
}

// Whether a procedure is PUBLIC.
fn is_public_procedure(visibility: Visibility) -> bool
    ensures { result ≡ is_public_procedure visibility }
{
    match visibility {
        Visibility::Public => true,
        Visibility::Private | Visibility::External => false,
    }
}

// Takes in the PUBLIC objects of a module.
fn put_objects(
    table: &mut IndexMap<Name, Found>,
    number_of_module: usize,
    objects: &[TypedObject],
) -> Result<(), AllocError>
    ensures { OnOk result (table.new.entries
        ≡ with_objects table.old.entries number_of_module 0 (map object_view objects.now)) }
{
    for (number, object) in objects.iter().enumerate() {
        let found = Found {
            number_of_module,
            number,
        };
        put_public(table, object.is_public, object.name, found)?;
    }
    Ok(())
}

// Takes in the PUBLIC procedures of a module.
fn put_procedures(
    table: &mut IndexMap<Name, Found>,
    number_of_module: usize,
    procedures: &[TypedProcedure],
) -> Result<(), AllocError>
    ensures { OnOk result (table.new.entries
        ≡ with_procedures table.old.entries number_of_module 0 (map procedure_view procedures.now)) }
{
    for (number, procedure) in procedures.iter().enumerate() {
        let is_public = is_public_procedure(procedure.visibility);
        let found = Found {
            number_of_module,
            number,
        };
        put_public(table, is_public, procedure.name, found)?;
    }
    Ok(())
}

/// The first PUBLIC object of each name.
pub(crate) fn public_objects(
    alloc: Global,
    modules: &[Typed],
) -> Result<IndexMap<Name, Found>, AllocError>
    ensures { IfOk result (λ table. table.entries ≡ public_objects (map module_view modules.now)) }
{
    let mut table = IndexMap::new(alloc);
    for (number_of_module, typed) in modules.iter().enumerate() {
        put_objects(&mut table, number_of_module, typed.objects.as_slice())?;
    }
    Ok(table)
}

/// The first PUBLIC procedure of each name.
pub(crate) fn public_procedures(
    alloc: Global,
    modules: &[Typed],
) -> Result<IndexMap<Name, Found>, AllocError>
    ensures { IfOk result (λ table. table.entries ≡ public_procedures (map module_view modules.now)) }
{
    let mut table = IndexMap::new(alloc);
    for (number_of_module, typed) in modules.iter().enumerate() {
        put_procedures(&mut table, number_of_module, typed.procedures.as_slice())?;
    }
    Ok(table)
}
