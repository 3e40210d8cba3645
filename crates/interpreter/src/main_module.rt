//! The main module of a program.

ghost use Rattle.std.specs.Prelude.{◌≡◌, map, option_map};
ghost use Rattle.typed_trees.specs.Views.{module_view};
ghost use Rattle.layout.specs.Joined.{is_main};
ghost use Rattle.interpreter.specs.internal.MainModules.{found_from, found_view};

use typed_trees::Typed;

/// A main module, with its number among the modules.
#[derive(Clone, Copy)]
pub(crate) struct MainModule<'a> {
    pub(crate) number: usize,
    pub(crate) typed: &'a Typed,
}

// Whether a module has statements at its outer level.
fn is_main(typed: &Typed) -> bool
    ensures { result ≡ is_main (module_view typed.now) }
{
    !typed.main.body.statements.as_slice().is_empty()
}

/// The first module with statements at its outer level.
#[tactic(auto, using(crate::proofs::MainModules::main_found, crate::proofs::MainModules::main_passed, crate::proofs::MainModules::no_main))]
pub(crate) fn main_module<'a>(modules: &'a [Typed]) -> Option<MainModule<'a>>
    ensures { option_map found_view result ≡ found_from 0 (map module_view modules.entry.now) }
{
    for (number, typed) in modules.iter().enumerate() {
        if is_main(typed) {
            return Some(MainModule { number, typed });
        }
    }
    None
}
