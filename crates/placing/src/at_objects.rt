//! Whether the objects with AT may lie where they do, and have their addresses.

ghost use Rattle.std.specs.Prelude.{◌≡◌, ◌+◌, ◌≤◌, length, map, max, min};
ghost use Rattle.mem80.specs.declared.memory.TheConstants.{MEMORY_SIZE};
ghost use Rattle.typed_trees.specs.Views.{module_view, object_view};
ghost use Rattle.layout.specs.Placement.{EndsInMemory, address_at};
ghost use Rattle.placing.specs.Views.{module_placement_view};
ghost use Rattle.placing.specs.internal.Claims.{claimed_between, may_lie_at, module_fits, modules_fit, object_fits, objects_fit};

use crate::claims::{ends_in_memory, ranges_meet};
use crate::placement::ModulePlacement;
use mem80::Range;
use typed_trees::{AtAddress, Home, Typed, TypedObject};

// Whether all bytes from an address up to another are claimed.
#[tactic(auto, using(crate::proofs::Claiming::claimed_next, crate::proofs::Claiming::claimed_gap, crate::proofs::Claiming::claimed_end))]
fn claimed_between(table: &[bool; 65536], start: u32, end: u32) -> bool
    requires { end ≤ MEMORY_SIZE }
    ensures { result ≡ claimed_between start end table.now }
{
    for address in start as usize..end as usize {
        if !table[address] {
            return false;
        }
    }
    true
}

// Whether the part of a range that lies in the code is claimed.
fn is_claimed_in(table: &[bool; 65536], code: Range, range: Range) -> bool
    requires range { EndsInMemory range }
    requires code { EndsInMemory code }
    ensures { result ≡ claimed_between (max range.start code.start)
        (min (range.start + range.len) (code.start + code.len)) table.now }
{
    let range_end = range.start + range.len;
    let code_end = code.start + code.len;
    let start = if range.start < code.start {
        code.start
    } else {
        range.start
    };
    let end = if range_end < code_end {
        range_end
    } else {
        code_end
    };
    claimed_between(table, start, end)
}

// Whether an object with AT may lie in a range.
#[tactic(auto, using(crate::proofs::Claiming::ends_in_memory_holds), unfolding(crate::specs::internal::Claims::may_lie_at))]
fn may_lie_at(table: &[bool; 65536], code: Range, stack: Range, range: Range) -> bool
    requires { EndsInMemory code }
    ensures { result ≡ may_lie_at code stack table.now range }
{
    ends_in_memory(range) && !ranges_meet(range, stack) && is_claimed_in(table, code, range)
}

// The address that AT says.
fn address_at(addresses: &[u16], at: AtAddress) -> u16
    ensures { result ≡ address_at addresses.now at }
{
    match at {
        AtAddress::AtNumber(address) => address,
        AtAddress::AtObject { object, offset } => match addresses.get(object as usize) {
            Some(address) => address.wrapping_add(offset),
            None => offset,
        },
    }
}

// Whether an object lies where its AT says, if it has one, and may lie there.
#[tactic(auto, using(crate::proofs::Claiming::capped_at), unfolding(crate::specs::internal::Claims::object_fits))]
fn object_fits(
    table: &[bool; 65536],
    code: Range,
    stack: Range,
    all: &[u16],
    object: &TypedObject,
    address: u16,
) -> bool
    requires { EndsInMemory code }
    ensures { result ≡ object_fits code stack table.now all.now (object_view object.now) address }
{
    match object.home {
        Home::At(at) => {
            let range = Range {
                start: address as u32,
                len: object.size(),
            };
            address == address_at(all, at) && may_lie_at(table, code, stack, range)
        }
        _ => true,
    }
}

// The same of each object.
fn objects_fit(
    table: &[bool; 65536],
    code: Range,
    stack: Range,
    objects: &[TypedObject],
    addresses: &[u16],
) -> bool
    requires { EndsInMemory code }
    ensures { result
        ≡ objects_fit code stack table.now addresses.now (map object_view objects.now) addresses.now }
{
    let mut rest = objects;
    let mut places = addresses;
    while let [object, more @ ..] = rest {
        let [address, more_places @ ..] = places else {
            return true;
        };
        if !object_fits(table, code, stack, addresses, object, *address) {
            return false;
        }
        rest = more;
        places = more_places;
    }
    true
}

// Whether a module has an address for each object and each constant list, and its objects with AT lie where they may.
#[tactic(auto, unfolding(crate::specs::internal::Claims::module_fits))]
fn module_fits(
    table: &[bool; 65536],
    code: Range,
    stack: Range,
    typed: &Typed,
    placed: &ModulePlacement,
) -> bool
    requires { EndsInMemory code }
    ensures { result
        ≡ module_fits code stack table.now (module_view typed.now) (module_placement_view placed.now) }
{
    placed.objects.len() == typed.objects.len()
        && placed.lists.len() == typed.lists.len()
        && objects_fit(
            table,
            code,
            stack,
            typed.objects.as_slice(),
            placed.objects.as_slice(),
        )
}

/// Whether each module has an address for each object and each constant list, and its objects with AT lie where that says,
/// in memory, outside the stack and, in the code, at claimed bytes alone.
pub(crate) fn modules_fit(
    table: &[bool; 65536],
    code: Range,
    stack: Range,
    modules: &[Typed],
    placements: &[ModulePlacement],
) -> bool
    requires { EndsInMemory code }
    ensures { result ≡ modules_fit code stack table.now (map module_view modules.now)
        (map module_placement_view placements.now) }
{
    let mut rest = modules;
    let mut places = placements;
    while let [typed, more @ ..] = rest {
        let [placed, more_places @ ..] = places else {
            return true;
        };
        if !module_fits(table, code, stack, typed, placed) {
            return false;
        }
        rest = more;
        places = more_places;
    }
    true
}
