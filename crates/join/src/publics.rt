//! The PUBLICs of modules by their names.

ghost use Rattle.std.specs.Prelude.{◌≡◌, option_map, OnOk, IfOk};
ghost use Rattle.std.specs.Str.{bytes_eq};
ghost use Rattle.indexmap.specs.IndexMap.{insert_entry};
ghost use Rattle.failure.specs.Failure.{IfFault};
ghost use Rattle.join.specs.internal.PublicTables.{differs_in, lacks_in, named_in, no_publics, publics_view, with_public, with_publics};
ghost use Rattle.join.specs.internal.Shared.{first_external, global_view, globals_view};

use crate::fault::Fault;
use crate::shared::Shared;
use failure::Failure;
use indexmap::IndexMap;
use std::alloc::Global;
use trees::Name;

/// The first PUBLIC of each name, and the first name of a PUBLIC that stood before.
#[derive(Drop)]
pub(crate) struct Publics<'a> {
    table: IndexMap<Name, Shared<'a>>,
    pub(crate) repeated: Option<Name>,
}

impl<'a> Publics<'a> {
    // No PUBLICs.
    fn new(alloc: Global) -> Publics<'a>
        ensures { publics_view result ≡ no_publics }
    {
        Publics {
            table: IndexMap::new(alloc),
            repeated: None,
        }
    }

    // The PUBLIC of a name.
    #[tactic(auto, using(crate::proofs::PublicTables::found_some, crate::proofs::PublicTables::found_none))]
    fn named(&self, name: Name) -> Option<Shared<'a>>
        ensures { option_map global_view result ≡ named_in (publics_view self.now) name }
    {
        match self.table.get(&name) {
            Some(global) => Some(*global),
            None => None,
        }
    }

    // A name has this PUBLIC from now on.
    #[tactic(auto, using(symbols::proofs::Keys::same_keys))]
    fn insert(&mut self, name: Name, global: Shared<'a>) -> Result<(), Failure<Fault>>
        ensures entries { OnOk result
            (self.new.table.entries ≡ insert_entry bytes_eq self.old.table.entries name global.entry) }
        ensures repeated { OnOk result (self.new.repeated ≡ self.old.repeated) }
        ensures err { IfFault result (λ _. ⊥) }
    {
        match self.table.insert(name, global) {
            Ok(_) => Ok(()),
            Err(_) => Err(Failure::Memory),
        }
    }

    // Takes in one more PUBLIC.
    fn put(&mut self, global: Shared<'a>) -> Result<(), Failure<Fault>>
        ensures ok { OnOk result
            (publics_view self.new ≡ with_public (publics_view self.old) (global_view global.entry)) }
        ensures err { IfFault result (λ _. ⊥) }
    {
        let name = global.name();
        if self.named(name).is_some() {
            self.repeated = self.repeated.or(Some(name));
            return Ok(());
        }
        self.insert(name, global)?;
        Ok(())
    }

    // Takes in the PUBLICs among more globals.
    fn put_all(&mut self, globals: &[Shared<'a>]) -> Result<(), Failure<Fault>>
        ensures ok { OnOk result
            (publics_view self.new ≡ with_publics (publics_view self.old) (globals_view globals.now)) }
        ensures err { IfFault result (λ _. ⊥) }
    {
        let mut rest = globals;
        while let [global, more @ ..] = rest {
            if global.is_public() {
                self.put(*global)?;
            }
            rest = more;
        }
        Ok(())
    }

    // Whether an EXTERNAL has no PUBLIC.
    fn lacks(&self, external: Shared<'_>) -> bool
        ensures { result ≡ lacks_in (publics_view self.now) (global_view external.entry) }
    {
        self.named(external.name()).is_none()
    }

    // Whether an EXTERNAL is declared otherwise than its PUBLIC.
    fn differs(&self, external: Shared<'_>) -> bool
        ensures { result ≡ differs_in (publics_view self.now) (global_view external.entry) }
    {
        match self.named(external.name()) {
            Some(public) => !external.agrees(public),
            None => false,
        }
    }

    /// The first EXTERNAL without PUBLIC.
    #[tactic(auto, using(crate::proofs::GlobalLoops::external_found, crate::proofs::GlobalLoops::external_passed, crate::proofs::GlobalLoops::public_passed, crate::proofs::GlobalLoops::no_external))]
    pub(crate) fn first_without(&self, globals: &[Shared<'_>]) -> Option<Name>
        ensures { result ≡ first_external (lacks_in (publics_view self.now)) (globals_view globals.now) }
    {
        for global in globals {
            if !global.is_public() && self.lacks(*global) {
                return Some(global.name());
            }
        }
        None
    }

    /// The first EXTERNAL that is declared otherwise than its PUBLIC.
    #[tactic(auto, using(crate::proofs::GlobalLoops::external_found, crate::proofs::GlobalLoops::external_passed, crate::proofs::GlobalLoops::public_passed, crate::proofs::GlobalLoops::no_external))]
    pub(crate) fn first_different(&self, globals: &[Shared<'_>]) -> Option<Name>
        ensures { result ≡ first_external (differs_in (publics_view self.now)) (globals_view globals.now) }
    {
        for global in globals {
            if !global.is_public() && self.differs(*global) {
                return Some(global.name());
            }
        }
        None
    }
}

/// The PUBLICs among globals.
pub(crate) fn publics_among<'a>(
    alloc: Global,
    globals: &[Shared<'a>],
) -> Result<Publics<'a>, Failure<Fault>>
    ensures ok { IfOk result (λ publics.
        publics_view publics ≡ with_publics no_publics (globals_view globals.now)) }
    ensures err { IfFault result (λ _. ⊥) }
{
    let mut publics = Publics::new(alloc);
    publics.put_all(globals)?;
    Ok(publics)
}
