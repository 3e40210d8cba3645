//! Main modules.

ghost use Rattle.std.specs.Prelude.{◌≡◌, ◌==◌, length, slice_get};
ghost use Rattle.std.specs.Option.{option_map};
ghost use Rattle.object_modules.specs.Displacements.{linked_modules};
ghost use Rattle.object_modules.specs.Merge.{main_modules};
ghost use Rattle.object_laws.proofs.Merges.MergeValid.{main_of};
ghost use Rattle.link_modules.specs.internal.Views.{main_view};

use crate::inputs::Input;
use crate::linkable::{Linkable, Named};
use crate::names::name_of;
use crate::placed::Placed;
use object_modules::{Name, Segment};

/// The name of a main module, and its start in a merge.
#[derive(Clone, Copy)]
pub(crate) struct MainModule {
    pub(crate) name: Name,
    pub(crate) start: u16,
}

/// Whether just one module has a start.
#[tactic(auto, using(link_laws::proofs::MainPasses::mains_begun, link_laws::proofs::MainPasses::main_passed, link_laws::proofs::MainPasses::main_first, link_laws::proofs::MainPasses::main_again, link_laws::proofs::MainPasses::mains_ended))]
pub(crate) fn has_one_main<L: Linkable>(inputs: &[Input<L>]) -> bool
    ensures { result ≡ (length (main_modules (linked_modules inputs.now)) == 1) }
{
    let mut found = false;
    for input in inputs {
        if input.start().is_some() {
            if found {
                return false;
            }
            found = true;
        }
    }
    found
}

// A module as a main module, if it is one.
fn main_in<'a, L: Named<'a>>(placed: &Placed<'_, L>) -> Option<MainModule>
    ensures { option_map main_view result ≡ main_of placed.now }
{
    let item = placed.item();
    let start = item.start()?;
    Some(MainModule {
        name: name_of(item.name()),
        start: start.wrapping_add(placed.start(Segment::Code)),
    })
}

/// The first main module.
pub(crate) fn first_main<'a, L: Named<'a>>(placed: &[Placed<'_, L>]) -> Option<MainModule>
    ensures { option_map main_view result ≡ slice_get (main_modules placed.now) 0 }
{
    for one in placed {
        if let Some(main) = main_in(one) {
            return Some(main);
        }
    }
    None
}
