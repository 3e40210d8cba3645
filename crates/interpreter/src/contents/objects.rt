//! The objects and the constant lists of a module.

ghost use Rattle.std.specs.Prelude.{◌≡◌, map, vec_items, zip};
ghost use Rattle.typed_trees.specs.Views.{object_view};
ghost use Rattle.layout.specs.StartingMemory.{contents_of_list, contents_of_object};
ghost use Rattle.meaning.specs.Access.{address_of};
ghost use Rattle.resolving.specs.internal.Views.{site_view};
ghost use Rattle.interpreter.specs.internal.Contents.{with_all, with_contents};

use crate::contents::bytes::put_bytes;
use crate::contents::values::put_values;
use mem80::Memory;
use resolving::Site;
use typed_trees::{Home, TypedObject};

// Puts what fills an object where the object lies.
fn put_object(site: &Site<'_>, memory: &mut Memory, object: &TypedObject, address: u16)
    ensures { memory.new ≡ with_contents memory.old
        (contents_of_object (address_of (site_view site.now)) (object_view object.now, address)) }
{
    match &object.home {
        Home::Data(values) => put_values(site, memory, address, values.as_slice()),
        Home::Constant(values) => put_values(site, memory, address, values.as_slice()),
        Home::At(_) | Home::Based(_) | Home::External | Home::Absent | Home::Frame(_) => (),
    }
}

/// Puts what fills objects where they lie.
pub(crate) fn put_objects(
    site: &Site<'_>,
    memory: &mut Memory,
    objects: &[TypedObject],
    addresses: &[u16],
)
    ensures { memory.new ≡ with_all memory.old (map (contents_of_object (address_of (site_view site.now)))
        (zip (map object_view objects.now) addresses.now)) }
{
    for (object, address) in objects.iter().zip(addresses) {
        put_object(site, memory, object, *address);
    }
}

/// Puts constant lists where they lie.
pub(crate) fn put_lists(memory: &mut Memory, lists: &[Vec<u8>], addresses: &[u16])
    ensures { memory.new ≡ with_all memory.old
        (map contents_of_list (zip (map vec_items lists.now) addresses.now)) }
{
    for (bytes, address) in lists.iter().zip(addresses) {
        put_bytes(memory, *address, bytes.as_slice());
    }
}
