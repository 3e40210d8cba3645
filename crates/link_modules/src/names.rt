//! The public names of modules, by which external names are found. Their characters stay where they are.

ghost use Rattle.std.specs.Prelude.{◌≡◌, ◌++◌, ◌∷◌, [], IsTrue, length, map, not, position, if◌then◌else◌, IfOk, OnOk, Ok, Err};
ghost use Rattle.std.specs.Str.{bytes_eq};
ghost use Rattle.failure.specs.Failure.{IfFault};
ghost use Rattle.symbols.specs.Names.{is_name};
ghost use Rattle.object_modules.specs.Merge.{public_names};
ghost use Rattle.object_modules.specs.Module.{is_among};
ghost use Rattle.link_laws.specs.Faults.{refusal_of};
ghost use Rattle.link_laws.specs.internal.Passes.{externals_of, gathered, missing_in};
ghost use Rattle.link_laws.specs.internal.Growing.{public_name};

use crate::inputs::Input;
use crate::linkable::Named;
use failure::Failure;
use indexmap::IndexSet;
use link_laws::LinkFault;
use object_modules::Name;
use std::alloc::Global;
use std::marker::Model;

/// Names, each of them once, with numbers from 0 in the order in which they came.
#[derive(Drop)]
pub(crate) struct NameTable<'a> {
    names: IndexSet<&'a [u8]>,
}

impl<'a> Model for NameTable<'a> {
    ghost use Rattle.std.specs.Prelude.{ℕ, List, map};

    ghost Value = { List (List ℕ) };

    ghost view = { λ table. map (λ key. key.now) table.names.keys };
}

impl<'a> NameTable<'a> {
    // No names.
    fn new(alloc: Global) -> NameTable<'a>
        ensures { result ≡ [] }
    {
        NameTable {
            names: IndexSet::new(alloc),
        }
    }

    /// How many names there are.
    pub(crate) fn count(&self) -> usize
        ensures { result ≡ length self.now }
    {
        self.names.len()
    }

    /// Whether a name is among them.
    pub(crate) fn contains(&self, name: &'a [u8]) -> bool
        ensures { result ≡ is_among name.now self.now }
    {
        self.names.contains(&name)
    }

    /// The number of a name.
    pub(crate) fn number_of(&self, name: &'a [u8]) -> Option<usize>
        ensures { result ≡ position (bytes_eq name.now) self.now }
    {
        self.names.get_index_of(&name)
    }

    // Adds a name. Returns whether it is new.
    fn insert(&mut self, name: &'a [u8]) -> Result<bool, Failure<LinkFault>>
        ensures new { IfOk result (λ is_new. is_new ≡ not (is_among name.now self.old)) }
        ensures names { IfOk result (λ is_new. self.new
            ≡ (if is_new then self.old ++ name.now ∷ [] else self.old)) }
        ensures err { IfFault result (λ _. ⊥) }
    {
        let is_new = self.names.insert(name)?;
        Ok(is_new)
    }

    // Adds the names of the publics that a module has not handed out yet, each of them new.
    #[tactic(auto, using(link_laws::proofs::NameWalks::name_repeated, link_laws::proofs::NameWalks::name_added))]
    fn add<L: Named<'a>>(&mut self, walk: &mut L) -> Result<(), Failure<LinkFault>>
        ensures ok { OnOk result
            (gathered self.old (map public_name (L.told walk.old).publics) ≡ Ok self.new) }
        ensures fault { IfFault result (λ fault.
            gathered self.old (map public_name (L.told walk.old).publics) ≡ Err (refusal_of fault)) }
    {
        while let Some(public) = walk.next_public() {
            let is_new = self.insert(public.name)?;
            if !is_new {
                return Err(Failure::Fault(LinkFault::DuplicatePublic {
                    name: name_of(public.name),
                }));
            }
        }
        Ok(())
    }
}

/// The public names of modules, module by module; the first that stood already is a fault.
pub(crate) fn public_names_of<'a, L: Named<'a>>(
    alloc: Global,
    inputs: &[Input<L>],
) -> Result<NameTable<'a>, Failure<LinkFault>>
    ensures ok { IfOk result (λ table. gathered [] (public_names inputs.now) ≡ Ok table) }
    ensures fault { IfFault result (λ fault.
        gathered [] (public_names inputs.now) ≡ Err (refusal_of fault)) }
{
    let mut table = NameTable::new(alloc);
    for input in inputs {
        table.add(&mut input.walk())?;
    }
    Ok(table)
}

/// The name of these characters.
#[tactic(auto, using(objmod::proofs::ValidNames::still_name, objmod::proofs::ValidNames::valid_name))]
pub(crate) fn name_of(characters: &[u8]) -> Name
    requires { IsTrue (is_name characters.now) }
    ensures { result ≡ characters.now }
{
    match Name::from_text(characters) {
        Some(name) => name,
        None => unreachable!(),
    }
}

// The first of the external names that a module has not handed out yet that a table lacks.
#[tactic(auto, using(link_laws::proofs::NameWalks::missing_found, link_laws::proofs::NameWalks::missing_passed))]
fn first_missing<'a, L: Named<'a>>(table: &NameTable<'a>, walk: &mut L) -> Option<Name>
    ensures { result ≡ missing_in table.now (L.told walk.old).externals }
{
    while let Some(name) = walk.next_external() {
        if !table.contains(name) {
            return Some(name_of(name));
        }
    }
    None
}

/// The first external name of modules, module by module, that a table lacks.
#[tactic(auto, using(link_laws::proofs::NameLoops::unresolved_found, link_laws::proofs::NameLoops::unresolved_passed, link_laws::proofs::NameLoops::unresolved_ended))]
pub(crate) fn unresolved_in<'a, L: Named<'a>>(
    table: &NameTable<'a>,
    inputs: &[Input<L>],
) -> Option<Name>
    ensures { result ≡ missing_in table.now (externals_of inputs.now) }
{
    for input in inputs {
        if let Some(name) = first_missing(table, &mut input.walk()) {
            return Some(name);
        }
    }
    None
}
