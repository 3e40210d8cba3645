//! How many bytes the segments of a module have, and whether they fit.

ghost use Rattle.std.specs.Prelude.{◌≡◌, List, ℕ, min, map, vec_items};
ghost use Rattle.std.specs.List.{list_all};
ghost use Rattle.typed_trees.specs.Views.{module_view, object_view};
ghost use Rattle.typed_trees.specs.Weight.{constant_bytes, size_of_constant};
ghost use Rattle.layout.specs.Storage.{bytes_in_constants, bytes_in_data, constants_fit, data_bytes, fits_as_list, fits_as_object};

use crate::slot::SEGMENT_LIMIT;
use typed_trees::{ConstantItem, Home, Typed, TypedObject};

/// The bytes of the data segment that an object takes (4,294,967,295 if it takes more).
pub(crate) fn size_in_data(object: &TypedObject) -> u32
    ensures { result ≡ min (bytes_in_data (object_view object.now).home (object_view object.now)) 4294967295 }
{
    match object.home {
        Home::Data(_) => object.size(),
        _ => 0,
    }
}

/// The bytes of the data segment (4,294,967,295 if it has more).
#[tactic(auto, using(crate::proofs::Sums::data_more, crate::proofs::Sums::data_end))]
pub(crate) fn data_size(typed: &Typed) -> u32
    ensures { result ≡ min (data_bytes (module_view typed.now).objects) 4294967295 }
{
    let mut total: u32 = 0;
    for object in &typed.objects {
        total = total.saturating_add(size_in_data(object));
    }
    total
}

/// The bytes of a constant (4,294,967,295 if it has more).
pub(crate) fn size_of(typed: &Typed, item: ConstantItem) -> u32
    ensures { result ≡ min (size_of_constant (module_view typed.now) item) 4294967295 }
{
    match item {
        ConstantItem::ConstantObject(number) => match typed.objects.get(number as usize) {
            Some(object) => object.size(),
            None => 0,
        },
        ConstantItem::ConstantList(number) => match typed.lists.get(number as usize) {
            Some(bytes) => capped(bytes.len()),
            None => 0,
        },
    }
}

// A number that stops at the greatest of 32 bits.
fn capped(count: usize) -> u32
    ensures { result ≡ min count 4294967295 }
{
    if count < 4_294_967_295 {
        count as u32
    } else {
        4_294_967_295
    }
}

/// The bytes of the constants (4,294,967,295 if they have more).
#[tactic(auto, using(crate::proofs::Sums::constants_more, crate::proofs::Sums::constants_end))]
pub(crate) fn constant_size(typed: &Typed) -> u32
    ensures { result ≡ min (constant_bytes (module_view typed.now)) 4294967295 }
{
    let mut total: u32 = 0;
    for item in &typed.constants {
        total = total.saturating_add(size_of(typed, *item));
    }
    total
}

// Whether an object with DATA fits into a segment.
fn fits_as_object(object: &TypedObject) -> bool
    ensures { result ≡ fits_as_object (object_view object.now) }
{
    match object.home {
        Home::Constant(_) => object.size() <= SEGMENT_LIMIT,
        _ => true,
    }
}

// Whether each object with DATA fits into a segment.
#[tactic(auto, using(crate::proofs::Sums::objects_fit_first))]
fn objects_fit(objects: &[TypedObject]) -> bool
    ensures { result ≡ list_all fits_as_object (map object_view objects.now) }
{
    for object in objects {
        if !fits_as_object(object) {
            return false;
        }
    }
    true
}

// Whether each constant list fits into a segment.
#[tactic(auto, using(crate::proofs::Sums::lists_fit_first))]
fn lists_fit(lists: &[Vec<u8>]) -> bool
    ensures { result ≡ list_all fits_as_list (map vec_items lists.now) }
{
    for bytes in lists {
        if bytes.len() > SEGMENT_LIMIT as usize {
            return false;
        }
    }
    true
}

/// Whether the constants of a module, which have `constant_size` bytes, fit into a segment.
pub(crate) fn constants_fit(typed: &Typed, constant_size: u32) -> bool
    requires size { constant_size ≡ min (constant_bytes (module_view typed.now)) 4294967295 }
    ensures { result ≡ constants_fit (module_view typed.now) }
{
    constant_size <= SEGMENT_LIMIT
        && objects_fit(typed.objects.as_slice())
        && lists_fit(typed.lists.as_slice())
}
