//! The publics of a merge, by their names.

ghost use Rattle.std.specs.Prelude.{◌≡◌, ◌++◌, map, slice_get, IfOk, OnOk};
ghost use Rattle.std.specs.Option.{option_map};
ghost use Rattle.object_modules.specs.Displacements.{all_publics, public_moved, public_named};
ghost use Rattle.object_modules.specs.internal.Views.{owned_public_view};
ghost use Rattle.link_laws.specs.internal.Passes.{name_of as name_in};

use crate::linkable::Named;
use crate::names::{NameTable, name_of};
use crate::placed::Placed;
use object_modules::OwnedPublic;
use std::alloc::{AllocError, Global};
use std::marker::Model;

/// Publics that are found by their names. Contracts see the publics.
#[derive(Drop)]
pub(crate) struct Publics<'n, 'a> {
    names: &'n NameTable<'a>,
    publics: Vec<OwnedPublic>,
}

impl<'n, 'a> Model for Publics<'n, 'a> {
    ghost use Rattle.std.specs.Prelude.{◌≡◌, List, map};
    ghost use Rattle.object_modules.specs.Module.{Public};
    ghost use Rattle.object_modules.specs.internal.Views.{owned_public_view};
    ghost use Rattle.link_laws.specs.internal.Passes.{name_of as name_in};

    ghost Value = { List Public };

    ghost view = { λ table. map owned_public_view table.publics.items };

    ghost invariant = { λ table. table.names.now ≡ map name_in table.publics.items };
}

// The public of a number, counted from 0.
fn public_at(publics: &[OwnedPublic], number: usize) -> Option<OwnedPublic>
    ensures { result ≡ slice_get publics.now number }
{
    publics.get(number).copied()
}

impl<'n, 'a> Publics<'n, 'a> {
    /// Publics with these names, in the same order.
    pub(crate) fn new(names: &'n NameTable<'a>, publics: Vec<OwnedPublic>) -> Publics<'n, 'a>
        requires { names.now ≡ map name_in publics.items }
        ensures { result ≡ map owned_public_view publics.items }
    {
        Publics { names, publics }
    }

    /// The public with a name.
    #[tactic(auto, using(link_laws::proofs::PublicNames::named_found, link_laws::proofs::PublicNames::named_none))]
    pub(crate) fn named(&self, name: &'a [u8]) -> Option<OwnedPublic>
        ensures { option_map owned_public_view result ≡ public_named self.now name.now }
    {
        match self.names.number_of(name) {
            Some(number) => public_at(self.publics.as_slice(), number),
            None => None,
        }
    }

    /// The publics by themselves, in their order.
    pub(crate) fn into_publics(self) -> Vec<OwnedPublic>
        ensures { map owned_public_view result.items ≡ self.entry }
    {
        let Publics { names: _, publics } = self;
        publics
    }
}

// Adds the publics that a module has not handed out yet, moved with its pieces.
#[tactic(auto, using(link_laws::proofs::PublicWalks::view_handed))]
fn add_publics<'a, L: Named<'a>>(
    publics: &mut Vec<OwnedPublic>,
    placed: &Placed<'_, L>,
    walk: &mut L,
) -> Result<(), AllocError>
    ensures { OnOk result (map owned_public_view publics.new.items
        ≡ map owned_public_view publics.old.items ++ map (public_moved placed.now) (L.told walk.old).publics) }
{
    while let Some(public) = walk.next_public() {
        publics.push(OwnedPublic {
            segment: public.segment,
            offset: public.offset.wrapping_add(placed.start(public.segment)),
            name: name_of(public.name),
        })?;
    }
    Ok(())
}

/// The publics of modules, moved with their pieces, module by module. Reserves memory for `count` of them.
pub(crate) fn publics_of<'a, L: Named<'a>>(
    alloc: Global,
    count: usize,
    placed: &[Placed<'_, L>],
) -> Result<Vec<OwnedPublic>, AllocError>
    ensures { IfOk result (λ publics. map owned_public_view publics.items ≡ all_publics placed.now) }
{
    let mut publics = Vec::with_capacity(alloc, count)?;
    for one in placed {
        add_publics(&mut publics, one, &mut one.walk())?;
    }
    Ok(publics)
}
