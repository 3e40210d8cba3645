//! The addresses of the objects and the constant lists of a program.

ghost use Rattle.std.specs.Prelude.{◌≡◌, ◌+◌, ◌≤◌, [], map, sum, zip, IfOk};
ghost use Rattle.failure.specs.Failure.{IfFault};
ghost use Rattle.typed_trees.specs.Views.{home_view, module_view, object_view};
ghost use Rattle.layout.specs.Following.{address_of_slot, base_of};
ghost use Rattle.layout.specs.Placement.{address_at};
ghost use Rattle.layout.specs.Placing.{address_by_home, addresses_after, module_placement_by};
ghost use Rattle.layout.specs.Views.{layout_view};
ghost use Rattle.placing.specs.Views.{module_placement_view};
ghost use Rattle.placing.specs.internal.Placings.{bases_after, bases_view, code_placements, layout_sizes};

use crate::fault::Fault;
use crate::placement::ModulePlacement;
use failure::Failure;
use layout::{Layout, Segment, Slot};
use mem80::MEMORY_SIZE;
use std::alloc::Global;
use typed_trees::{AtAddress, Home, Typed, TypedObject};

/// Where the segments of a module begin, from 0 to 65536.
#[derive(Clone, Copy)]
pub(crate) struct Bases {
    pub(crate) code_base: u32,
    pub(crate) data_base: u32,
}

// Where a segment begins.
fn base_of(bases: Bases, segment: Segment) -> u32
    ensures { result ≡ base_of (bases_view bases) segment }
{
    match segment {
        Segment::Code => bases.code_base,
        Segment::Data => bases.data_base,
    }
}

// The address of a slot.
fn address_of_slot(bases: Bases, slot: Slot) -> u16
    ensures { result ≡ address_of_slot (bases_view bases) slot }
{
    let address = base_of(bases, slot.segment) as u64 + slot.offset as u64;
    (address % MEMORY_SIZE as u64) as u16
}

// The address that AT gives, with these addresses of the objects before.
fn address_at(before: &[u16], at: AtAddress) -> u16
    ensures { result ≡ address_at before.now at }
{
    match at {
        AtAddress::AtNumber(address) => address,
        AtAddress::AtObject { object, offset } => match before.get(object as usize) {
            Some(address) => address.wrapping_add(offset),
            None => offset,
        },
    }
}

// The address of an object, with these addresses of the objects before it.
fn address_by_home(bases: Bases, before: &[u16], slot: Option<Slot>, home: &Home) -> u16
    ensures { result ≡ address_by_home (bases_view bases) before.now slot (home_view home.now) }
{
    match slot {
        Some(slot) => address_of_slot(bases, slot),
        None => match home {
            Home::At(at) => address_at(before, *at),
            _ => 0,
        },
    }
}

// The addresses of objects that have those slots.
fn object_addresses(
    alloc: Global,
    bases: Bases,
    objects: &[TypedObject],
    slots: &[Option<Slot>],
) -> Result<Vec<u16>, Failure<Fault>>
    ensures ok { IfOk result (λ addresses. addresses.items
        ≡ addresses_after (bases_view bases) [] (zip (map object_view objects.now) slots.now)) }
    ensures err { IfFault result (λ _. ⊥) }
{
    let mut addresses = Vec::with_capacity(alloc, objects.len())?;
    let mut rest = objects;
    let mut places = slots;
    while let [object, more @ ..] = rest {
        let [slot, more_places @ ..] = places else {
            break;
        };
        let address = address_by_home(bases, addresses.as_slice(), *slot, &object.home);
        addresses.push(address)?;
        rest = more;
        places = more_places;
    }
    Ok(addresses)
}

// The addresses of constant lists that have those slots.
fn list_addresses(alloc: Global, bases: Bases, slots: &[Slot]) -> Result<Vec<u16>, Failure<Fault>>
    ensures ok { IfOk result (λ addresses.
        addresses.items ≡ map (address_of_slot (bases_view bases)) slots.now) }
    ensures err { IfFault result (λ _. ⊥) }
{
    let mut addresses = Vec::with_capacity(alloc, slots.len())?;
    let mut rest = slots;
    while let [slot, more @ ..] = rest {
        addresses.push(address_of_slot(bases, *slot))?;
        rest = more;
    }
    Ok(addresses)
}

// Where the objects and the constant lists of a module lie.
fn module_placement(
    alloc: Global,
    bases: Bases,
    typed: &Typed,
    layout: &Layout,
) -> Result<ModulePlacement, Failure<Fault>>
    ensures ok { IfOk result (λ placed. module_placement_view placed
        ≡ module_placement_by (bases_view bases) (module_view typed.now) (layout_view layout.now)) }
    ensures err { IfFault result (λ _. ⊥) }
{
    let objects = object_addresses(
        alloc,
        bases,
        typed.objects.as_slice(),
        layout.objects.as_slice(),
    )?;
    let lists = list_addresses(alloc, bases, layout.lists.as_slice())?;
    Ok(ModulePlacement { objects, lists })
}

// Where the segments of the next module begin.
fn bases_after(bases: Bases, layout: &Layout, length: u32) -> Bases
    requires code { bases.code_base + length ≤ MEMORY_SIZE }
    requires variables { bases.data_base + layout.now.data_size ≤ MEMORY_SIZE }
    ensures { bases_view result ≡ bases_after (bases_view bases) (layout_view layout.now) length }
{
    Bases {
        code_base: bases.code_base + length,
        data_base: bases.data_base + layout.data_size,
    }
}

/// The placements of modules, with the segments of the first at these bases.
pub(crate) fn module_placements(
    alloc: Global,
    first: Bases,
    modules: &[Typed],
    layouts: &[Layout],
    code_lengths: &[u32],
) -> Result<Vec<ModulePlacement>, Failure<Fault>>
    requires code { first.code_base + sum code_lengths.now ≤ MEMORY_SIZE }
    requires variables { first.data_base + layout_sizes layouts.now ≤ MEMORY_SIZE }
    ensures ok { IfOk result (λ placements. map module_placement_view placements.items
        ≡ code_placements first modules.now layouts.now code_lengths.now) }
    ensures err { IfFault result (λ _. ⊥) }
{
    let mut placements = Vec::with_capacity(alloc, modules.len())?;
    let mut bases = first;
    let mut rest = modules;
    let mut storages = layouts;
    let mut lengths = code_lengths;
    while let [typed, more @ ..] = rest {
        let [layout, more_storages @ ..] = storages else {
            break;
        };
        let [length, more_lengths @ ..] = lengths else {
            break;
        };
        let placed = module_placement(alloc, bases, typed, layout)?;
        placements.push(placed)?;
        bases = bases_after(bases, layout, *length);
        rest = more;
        storages = more_storages;
        lengths = more_lengths;
    }
    Ok(placements)
}
