//! Whether a program can run where it lies.

ghost use Rattle.std.specs.Prelude.{◌≡◌, ◌↔◌, map, IsTrue};
ghost use Rattle.typed_trees.specs.Views.{module_view};
ghost use Rattle.layout.specs.Lawful.{IsLawful};
ghost use Rattle.layout.specs.Placement.{EndsInMemory};
ghost use Rattle.join.specs.Views.{modules_of};
ghost use Rattle.placing.specs.Views.{module_placement_view, placement_view};
ghost use Rattle.placing.specs.internal.Claims.{all_fit, is_lawful, ranges_fit};

use crate::at_objects::modules_fit;
use crate::claims::{claim_modules, ends_in_memory, ranges_meet};
use crate::placement::{ModulePlacement, Placement};
use join::Joined;
use mem80::Range;
use typed_trees::Typed;

// Whether the code and the stack end in memory, and do not meet.
#[tactic(auto, unfolding(crate::specs::internal::Claims::ranges_fit))]
fn ranges_fit(code: Range, stack: Range) -> bool
    ensures { result ≡ ranges_fit code stack }
{
    ends_in_memory(code) && ends_in_memory(stack) && !ranges_meet(code, stack)
}

// Whether all that is placed may lie where it does.
#[tactic(auto, unfolding(crate::specs::internal::Claims::all_fit, crate::specs::internal::Claims::unclaimed))]
fn all_fit(code: Range, stack: Range, modules: &[Typed], placements: &[ModulePlacement]) -> bool
    requires { EndsInMemory code }
    ensures { result ≡ all_fit code stack (map module_view modules.now)
        (map module_placement_view placements.now) }
{
    let mut table = [false; 65536];
    claim_modules(&mut table, code, stack, modules, placements)
        && modules_fit(&table, code, stack, modules, placements)
}

// The test of a placement.
#[tactic(auto, using(crate::proofs::Claiming::code_ends), unfolding(crate::specs::internal::Claims::is_lawful))]
fn is_lawful(joined: &Joined, placement: &Placement) -> bool
    ensures { result ≡ is_lawful (map module_view (modules_of joined.now)) (placement_view placement.now) }
{
    let modules = joined.modules();
    let placements = placement.modules();
    let code = placement.code();
    let stack = placement.stack();
    placements.len() == modules.len()
        && ranges_fit(code, stack)
        && all_fit(code, stack, modules, placements)
}

/// Whether a program can run at a placement. Each piece lies in memory, and those with a place of their own
/// have no byte in common. AT objects lie where that says, and constants lie in the code. Code and stack do not meet, and no
/// byte that may be written lies in either. Takes no memory.
pub fn lawful(joined: &Joined, placement: &Placement) -> bool
    ensures { IsTrue result
        ↔ IsLawful (map module_view (modules_of joined.now)) (placement_view placement.now) }
{
    is_lawful(joined, placement)
}
