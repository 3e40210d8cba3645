//! Claiming the bytes of memory for the pieces of a program, in a table.

ghost use Rattle.std.specs.Prelude.{◌≡◌, ◌↔◌, ◌+◌, ◌≤◌, length, map, vec_items};
ghost use Rattle.typed_trees.specs.Views.{module_view, object_view};
ghost use Rattle.layout.specs.Placement.{ConstantPiece, EndsInMemory, StaticPiece, range_of, list_piece};
ghost use Rattle.placing.specs.Views.{module_placement_view};
ghost use Rattle.placing.specs.internal.Claims.{claim_between, claim_by_kind, claim_lists, claim_module, claim_modules, claim_object, claim_objects, claim_piece, claimed_as, ends_in_memory, is_within, ranges_meet};

use crate::placement::ModulePlacement;
use mem80::{Range, overlap};
use typed_trees::{Home, Typed, TypedObject};

/// Whether a range ends in memory.
#[tactic(auto, unfolding(crate::specs::internal::Claims::ends_in_memory))]
pub(crate) fn ends_in_memory(range: Range) -> bool
    ensures { result ≡ ends_in_memory range }
{
    range.start as u64 + range.len as u64 <= 65536
}

/// Whether two ranges have an address in common.
pub(crate) fn ranges_meet(left: Range, right: Range) -> bool
    ensures { result ≡ ranges_meet left right }
{
    overlap(&left, &right)
}

// Whether each address of a range is one of another.
#[tactic(auto, unfolding(crate::specs::internal::Claims::is_within))]
fn is_within(outer: Range, inner: Range) -> bool
    ensures { result ≡ is_within outer inner }
{
    let outer_end = outer.start as u64 + outer.len as u64;
    let inner_end = inner.start as u64 + inner.len as u64;
    inner.len == 0 || (outer.start <= inner.start && inner_end <= outer_end)
}

// Claims the bytes of a range that ends in memory. Refuses one that is claimed already.
#[tactic(auto, using(crate::proofs::Claiming::claim_next, crate::proofs::Claiming::claim_twice, crate::proofs::Claiming::claim_end))]
fn claim_range(table: &mut [bool; 65536], range: Range) -> bool
    requires { EndsInMemory range }
    ensures { claimed_as result table.new
        ≡ claim_between range.start (range.start + range.len) table.old }
{
    let end = (range.start + range.len) as usize;
    for address in range.start as usize..end {
        if table[address] {
            return false;
        }
        table[address] = true;
    }
    true
}

// Claims the bytes of variables.
#[tactic(auto, using(crate::proofs::Claiming::ends_in_memory_holds))]
fn claim_variables(table: &mut [bool; 65536], code: Range, stack: Range, range: Range) -> bool
    ensures { claimed_as result table.new ≡ claim_by_kind code stack StaticPiece range table.old }
{
    if !ends_in_memory(range) || ranges_meet(range, code) || ranges_meet(range, stack) {
        return false;
    }
    claim_range(table, range)
}

// Claims the bytes of constants.
#[tactic(auto, using(crate::proofs::Claiming::ends_in_memory_holds))]
fn claim_constants(table: &mut [bool; 65536], code: Range, stack: Range, range: Range) -> bool
    ensures { claimed_as result table.new ≡ claim_by_kind code stack ConstantPiece range table.old }
{
    if !ends_in_memory(range) || !is_within(code, range) {
        return false;
    }
    claim_range(table, range)
}

// Claims the bytes of an object, if it has a place of its own.
#[tactic(auto, using(crate::proofs::Claiming::capped_variables, crate::proofs::Claiming::capped_constants), unfolding(crate::specs::internal::Claims::claim_object, crate::specs::internal::Claims::claim_piece))]
fn claim_object(
    table: &mut [bool; 65536],
    code: Range,
    stack: Range,
    object: &TypedObject,
    address: u16,
) -> bool
    ensures { claimed_as result table.new
        ≡ claim_object code stack (object_view object.now) address table.old }
{
    let range = Range {
        start: address as u32,
        len: object.size(),
    };
    match object.home {
        Home::Data(_) => claim_variables(table, code, stack, range),
        Home::Constant(_) => claim_constants(table, code, stack, range),
        _ => true,
    }
}

// Claims the bytes of objects.
fn claim_objects(
    table: &mut [bool; 65536],
    code: Range,
    stack: Range,
    objects: &[TypedObject],
    addresses: &[u16],
) -> bool
    ensures { claimed_as result table.new
        ≡ claim_objects code stack (map object_view objects.now) addresses.now table.old }
{
    let mut rest = objects;
    let mut places = addresses;
    while let [object, more @ ..] = rest {
        let [address, more_places @ ..] = places else {
            return true;
        };
        if !claim_object(table, code, stack, object, *address) {
            return false;
        }
        rest = more;
        places = more_places;
    }
    true
}

// Claims the bytes of a constant list.
#[tactic(auto, using(crate::proofs::Claiming::long_list), unfolding(crate::specs::internal::Claims::claim_piece))]
fn claim_list(
    table: &mut [bool; 65536],
    code: Range,
    stack: Range,
    bytes: &[u8],
    address: u16,
) -> bool
    ensures { claimed_as result table.new
        ≡ claim_piece code stack (list_piece (bytes.now, address)) table.old }
{
    if bytes.len() > 65536 {
        return false;
    }
    let range = Range {
        start: address as u32,
        len: bytes.len() as u32,
    };
    claim_constants(table, code, stack, range)
}

// Claims the bytes of constant lists.
fn claim_lists(
    table: &mut [bool; 65536],
    code: Range,
    stack: Range,
    lists: &[Vec<u8>],
    addresses: &[u16],
) -> bool
    ensures { claimed_as result table.new
        ≡ claim_lists code stack (map vec_items lists.now) addresses.now table.old }
{
    let mut rest = lists;
    let mut places = addresses;
    while let [bytes, more @ ..] = rest {
        let [address, more_places @ ..] = places else {
            return true;
        };
        if !claim_list(table, code, stack, bytes.as_slice(), *address) {
            return false;
        }
        rest = more;
        places = more_places;
    }
    true
}

// Claims the bytes of a module.
#[tactic(auto, unfolding(crate::specs::internal::Claims::claim_module))]
fn claim_module(
    table: &mut [bool; 65536],
    code: Range,
    stack: Range,
    typed: &Typed,
    placed: &ModulePlacement,
) -> bool
    ensures { claimed_as result table.new
        ≡ claim_module code stack (module_view typed.now) (module_placement_view placed.now) table.old }
{
    claim_objects(
        table,
        code,
        stack,
        typed.objects.as_slice(),
        placed.objects.as_slice(),
    ) && claim_lists(
        table,
        code,
        stack,
        typed.lists.as_slice(),
        placed.lists.as_slice(),
    )
}

/// Claims the bytes of each piece with a place of its own in a program. Refuses a byte that is claimed twice, a piece past
/// the end of memory, variables that lie in the code or in the stack, and constants that lie outside the code.
pub(crate) fn claim_modules(
    table: &mut [bool; 65536],
    code: Range,
    stack: Range,
    modules: &[Typed],
    placements: &[ModulePlacement],
) -> bool
    ensures { claimed_as result table.new
        ≡ claim_modules code stack (map module_view modules.now)
        (map module_placement_view placements.now) table.old }
{
    let mut rest = modules;
    let mut places = placements;
    while let [typed, more @ ..] = rest {
        let [placed, more_places @ ..] = places else {
            return true;
        };
        if !claim_module(table, code, stack, typed, placed) {
            return false;
        }
        rest = more;
        places = more_places;
    }
    true
}
