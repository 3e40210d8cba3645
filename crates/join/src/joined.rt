//! Modules joined into a program.

ghost use Rattle.std.specs.Prelude.{◌≡◌, ◌==◌, None, Some, count_by, map, option_map, IfOk};
ghost use Rattle.failure.specs.Failure.{IfFault};
ghost use Rattle.typed_trees.specs.Views.{module_view};
ghost use Rattle.layout.specs.Joined.{globals_of, is_main, join_refusal};
ghost use Rattle.join.specs.Views.{modules_of, refusal_of};
ghost use Rattle.join.specs.internal.PublicTables.{no_publics, publics_view, with_publics};
ghost use Rattle.join.specs.internal.Shared.{globals_view};

use crate::fault::Fault;
use crate::publics::{Publics, publics_among};
use crate::shared::{Shared, shared_by};
use failure::Failure;
use std::alloc::Global;
use typed_trees::Typed;

/// A program: modules in which each EXTERNAL stands for the PUBLIC of its name.
pub struct Joined {
    modules: Vec<Typed>,
}

impl Joined {
    /// Its modules.
    pub fn modules(&self) -> &[Typed]
        ensures { result.now ≡ modules_of self.now }
    {
        self.modules.as_slice()
    }
}

// Whether a module has statements at its outer level.
#[tactic(auto, using(crate::proofs::MainModules::statements_stand))]
fn is_main(typed: &Typed) -> bool
    ensures { result ≡ is_main (module_view typed.now) }
{
    !typed.main.body.statements.as_slice().is_empty()
}

// Whether just one module is a main module.
#[tactic(auto, using(crate::proofs::MainModules::other_module, crate::proofs::MainModules::main_module, crate::proofs::MainModules::second_main, crate::proofs::MainModules::mains_ended))]
fn has_one_main(modules: &[Typed]) -> bool
    ensures { result ≡ (count_by is_main (map module_view modules.now) == 1) }
{
    let mut found = false;
    for typed in modules {
        if is_main(typed) {
            if found {
                return false;
            }
            found = true;
        }
    }
    found
}

// Why modules make no program that share these globals, with these PUBLICs among them.
#[tactic(auto, using(crate::proofs::Refusals::without_found, crate::proofs::Refusals::twice_found, crate::proofs::Refusals::nothing_found))]
fn fault_among(modules: &[Typed], globals: &[Shared<'_>], publics: &Publics<'_>) -> Option<Fault>
    requires globals { globals_view globals.now ≡ globals_of (map module_view modules.now) }
    requires publics { publics_view publics.now ≡ with_publics no_publics (globals_view globals.now) }
    ensures { join_refusal (map module_view modules.now) ≡ option_map refusal_of result }
{
    if let Some(name) = publics.first_without(globals) {
        return Some(Fault::NoPublic { name });
    }
    if let Some(name) = publics.repeated {
        return Some(Fault::PublicTwice { name });
    }
    if let Some(name) = publics.first_different(globals) {
        return Some(Fault::DeclarationsDiffer { name });
    }
    if has_one_main(modules) {
        None
    } else {
        Some(Fault::NotOneMain)
    }
}

// Why modules make no program that share these globals.
fn fault_by(
    alloc: Global,
    modules: &[Typed],
    globals: &[Shared<'_>],
) -> Result<Option<Fault>, Failure<Fault>>
    requires { globals_view globals.now ≡ globals_of (map module_view modules.now) }
    ensures ok { IfOk result (λ found.
        join_refusal (map module_view modules.now) ≡ option_map refusal_of found) }
    ensures err { IfFault result (λ _. ⊥) }
{
    let publics = publics_among(alloc, globals)?;
    Ok(fault_among(modules, globals, &publics))
}

// Why modules make no program.
fn fault_of(alloc: Global, modules: &[Typed]) -> Result<Option<Fault>, Failure<Fault>>
    ensures ok { IfOk result (λ found.
        join_refusal (map module_view modules.now) ≡ option_map refusal_of found) }
    ensures err { IfFault result (λ _. ⊥) }
{
    let globals = shared_by(alloc, modules)?;
    fault_by(alloc, modules, globals.as_slice())
}

/// Joins modules into a program.
pub fn join(alloc: Global, modules: Vec<Typed>) -> Result<Joined, Failure<Fault>>
    ensures kept { IfOk result (λ joined. modules_of joined ≡ modules.items) }
    ensures ok { IfOk result (λ _. join_refusal (map module_view modules.items) ≡ None) }
    ensures fault { IfFault result (λ fault.
        join_refusal (map module_view modules.items) ≡ Some (refusal_of fault)) }
{
    match fault_of(alloc, modules.as_slice())? {
        Some(fault) => Err(Failure::Fault(fault)),
        None => Ok(Joined { modules }),
    }
}

// Written out, so that what it holds is let go here, and each crate that lets one go calls this.
impl Drop for Joined {
    fn drop(self) {
        let Joined { modules: _ } = self;
    }
}
