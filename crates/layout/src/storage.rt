//! Where the objects and the constant lists of a module lie in its segments.

ghost use Rattle.std.specs.Prelude.{◌≡◌, ◌≤◌, map, vec_items, Ok, Err, IfOk, IsTrue};
ghost use Rattle.std.specs.List.{list_all};
ghost use Rattle.failure.specs.Failure.{IfFault};
ghost use Rattle.typed_trees.specs.Views.{module_view, object_view};
ghost use Rattle.layout.specs.Storage.{bytes_in_data, data_bytes, fits_as_list, fits_as_object, storage_of};
ghost use Rattle.layout.specs.Views.{layout_view};
ghost use Rattle.layout.specs.internal.Offsets.{list_slots_from, slot_at, slots_from};

use crate::fault::Fault;
use crate::offsets::{Offsets, offsets_of};
use crate::sizes::{constant_size, constants_fit, data_size, size_in_data};
use crate::slot::{Layout, SEGMENT_LIMIT, Segment, Slot};
use failure::Failure;
use std::alloc::Global;
use typed_trees::{Home, Typed, TypedObject};

// Where an object lies in its segment, for each segment that it may be in.
fn slot_at(object: &TypedObject, in_data: u32, in_constants: u32) -> Option<Slot>
    requires data { bytes_in_data (object_view object.now).home (object_view object.now) ≤ SEGMENT_LIMIT }
    requires constants { IsTrue (fits_as_object (object_view object.now)) }
    ensures { result ≡ slot_at in_data in_constants (object_view object.now) (object_view object.now).home }
{
    match object.home {
        Home::Data(_) => Some(Slot {
            segment: Segment::Data,
            offset: in_data,
            size: object.size(),
        }),
        Home::Constant(_) => Some(Slot {
            segment: Segment::Code,
            offset: in_constants,
            size: object.size(),
        }),
        _ => None,
    }
}

// The slots of the objects. An object that does not stand among the constants has the offset after all of them.
#[tactic(auto, using(crate::proofs::Sums::objects_first))]
fn object_slots(
    alloc: Global,
    typed: &Typed,
    offsets: &Offsets,
    constant_size: u32,
) -> Result<Vec<Option<Slot>>, Failure<Fault>>
    requires data { data_bytes (module_view typed.now).objects ≤ SEGMENT_LIMIT }
    requires constants { IsTrue (list_all fits_as_object (module_view typed.now).objects) }
    ensures ok { IfOk result (λ slots.
        slots.items ≡ slots_from (offsets.now).objects constant_size 0 0 (module_view typed.now).objects) }
    ensures err { IfFault result (λ _. ⊥) }
{
    let mut slots = Vec::with_capacity(alloc, typed.objects.len())?;
    let mut number: usize = 0;
    let mut in_data: u32 = 0;
    for object in &typed.objects {
        slots.push(slot_at(object, in_data, offsets.object(number, constant_size)))?;
        in_data += size_in_data(object);
        number += 1;
    }
    Ok(slots)
}

// The slots of the constant lists.
#[tactic(auto, using(crate::proofs::Sums::lists_first))]
fn list_slots(
    alloc: Global,
    typed: &Typed,
    offsets: &Offsets,
    constant_size: u32,
) -> Result<Vec<Slot>, Failure<Fault>>
    requires { IsTrue (list_all fits_as_list (module_view typed.now).constants.lists) }
    ensures ok { IfOk result (λ slots.
        slots.items ≡ list_slots_from (offsets.now).lists constant_size 0 (module_view typed.now).constants.lists) }
    ensures err { IfFault result (λ _. ⊥) }
{
    let mut slots = Vec::with_capacity(alloc, typed.lists.len())?;
    let mut number: usize = 0;
    for bytes in &typed.lists {
        slots.push(Slot {
            segment: Segment::Code,
            offset: offsets.list(number, constant_size),
            size: bytes.len() as u32,
        })?;
        number += 1;
    }
    Ok(slots)
}

/// Where the objects and the constant lists of a module lie in its segments. Refuses a module with over 65535 bytes in its
/// data segment or in its constants.
#[tactic(auto, using(crate::proofs::Slots::data_too_large, crate::proofs::Slots::constants_too_large))]
pub fn layout(alloc: Global, typed: &Typed) -> Result<Layout, Failure<Fault>>
    ensures ok { IfOk result (λ found. storage_of (module_view typed.now) ≡ Ok (layout_view found)) }
    ensures fault { IfFault result (λ fault. storage_of (module_view typed.now) ≡ Err fault) }
{
    let data_size = data_size(typed);
    if data_size > SEGMENT_LIMIT {
        return Err(Failure::Fault(Fault::DataTooLarge));
    }
    let constant_size = constant_size(typed);
    if !constants_fit(typed, constant_size) {
        return Err(Failure::Fault(Fault::ConstantsTooLarge));
    }
    let offsets = offsets_of(alloc, typed)?;
    let objects = object_slots(alloc, typed, &offsets, constant_size)?;
    let lists = list_slots(alloc, typed, &offsets, constant_size)?;
    Ok(Layout {
        objects,
        lists,
        data_size,
        constant_size,
    })
}
