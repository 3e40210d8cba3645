//! Objects with AT that may not lie where they do.

ghost use Rattle.std.specs.Prelude.{◌≡◌, map, zip};
ghost use Rattle.typed_trees.specs.Views.{module_view, object_view};
ghost use Rattle.layout.specs.Placing.{is_misplaced, may_not_lie, placed_objects};
ghost use Rattle.placing.specs.Views.{module_placement_view};
ghost use Rattle.placing.specs.internal.Placings.{name_of_misplaced};

use crate::placement::ModulePlacement;
use crate::ranges::{Ranges, overlaps, passes_memory};
use mem80::Range;
use trees::Name;
use typed_trees::{Home, Typed, TypedObject};

// Whether an object that lies there meets the code or the stack or passes the end of memory.
fn may_not_lie(ranges: Ranges, object: Range) -> bool
    ensures { result ≡ may_not_lie ranges.code ranges.stack object }
{
    passes_memory(object) || overlaps(object, ranges.code) || overlaps(object, ranges.stack)
}

// Whether an object has AT and may not lie at its address.
#[tactic(auto, using(crate::proofs::RangeTests::capped_object))]
fn is_misplaced(ranges: Ranges, object: &TypedObject, address: u16) -> bool
    ensures { result ≡ is_misplaced ranges.code ranges.stack (object_view object.now, address) }
{
    match object.home {
        Home::At(_) => {
            let range = Range {
                start: address as u32,
                len: object.size(),
            };
            may_not_lie(ranges, range)
        }
        _ => false,
    }
}

// The name of the first misplaced object of a module that lies there.
fn misplaced_in(ranges: Ranges, typed: &Typed, placed: &ModulePlacement) -> Option<Name>
    ensures { result ≡ name_of_misplaced ranges.code ranges.stack
        (zip (module_view typed.now).objects (module_placement_view placed.now).objects) }
{
    let mut rest = typed.objects.as_slice();
    let mut places = placed.objects.as_slice();
    while let [object, more @ ..] = rest {
        let [address, more_places @ ..] = places else {
            return None;
        };
        if is_misplaced(ranges, object, *address) {
            return Some(object.name);
        }
        rest = more;
        places = more_places;
    }
    None
}

/// The name of the first misplaced object of modules that lie there.
#[tactic(auto, using(crate::proofs::MisplacedLoops::module_found, crate::proofs::MisplacedLoops::module_passed, crate::proofs::MisplacedLoops::modules_ended, crate::proofs::MisplacedLoops::placements_ended))]
pub(crate) fn first_misplaced(
    ranges: Ranges,
    modules: &[Typed],
    placements: &[ModulePlacement],
) -> Option<Name>
    ensures { result ≡ name_of_misplaced ranges.code ranges.stack
        (placed_objects (map module_view modules.now) (map module_placement_view placements.now)) }
{
    let mut number: usize = 0;
    for typed in modules {
        let Some(placed) = placements.get(number) else {
            return None;
        };
        if let Some(name) = misplaced_in(ranges, typed, placed) {
            return Some(name);
        }
        number += 1;
    }
    None
}
