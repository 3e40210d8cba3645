//! The PUBLIC and EXTERNAL names of a module in its object module.

ghost use Rattle.std.specs.Prelude.{◌≡◌, ◌+◌, ◌<◌, ◌≤◌, [], ◌++◌, false, length, set, IfNone, IfOk, IfSome, IsTrue};
ghost use Rattle.std.specs.List.{AllByRecursion};
ghost use Rattle.steps8080.specs.internal.Externals.{IsNumbering};
ghost use Rattle.object_modules.specs.Module.{are_new, is_among, may_have_publics};
ghost use Rattle.object_modules.specs.internal.Views.{owned_public_view};
ghost use Rattle.codegen8080.specs.internal.Modules.{IsAtPlace, used_names};
ghost use Rattle.codegen8080.specs.internal.Listing.{AreListed, ArePublicsIn, FollowPlaces, IsPublicIn, used_name};
ghost use Rattle.codegen8080.specs.internal.Names.{HasOwnPlace, IsOwnPlace, IsPublicHere, names_of, names_of_externals, names_of_publics};

use crate::linkage::LinkageNames;
use exprgen8080::{Externals, Finished, LabelNumber};
use object_modules::{Name, OwnedPublic, Segment};
use std::alloc::{AllocError, Global};
use treecode::{ExternalName, Place, PublicName, PublicPlace, TreeModule};

/// The EXTERNAL names that code refers to, and the place of each among them, by its number in the code.
pub(crate) struct ListedNames {
    pub names: LinkageNames,
    pub numbers: Vec<u16>,
}

impl ListedNames {
    /// The names, and the numbers.
    pub(crate) fn into_parts(self) -> (LinkageNames, Vec<u16>)
        ensures names { result.0 ≡ self.names }
        ensures numbers { result.1 ≡ self.numbers }
    {
        let ListedNames { names, numbers } = self;
        (names, numbers)
    }
}

// Sets the place of a name by its number, if the code has one for it. Returns the next place.
fn with_place(places: &mut Vec<u16>, number: Option<u16>, place: u16) -> u16
    requires known { IfSome number (λ number. number < length places.old.items) }
    requires more { IfSome number (λ number. place + 1 < 65536) }
    ensures none { IfNone number (places.new.items ≡ places.old.items) }
    ensures same { IfNone number (result ≡ place) }
    ensures placed { IfSome number (λ number. places.new.items ≡ set places.old.items number place) }
    ensures next { IfSome number (λ number. result ≡ place + 1) }
{
    match number {
        Some(number) => {
            places[number as usize] = place;
            place + 1
        }
        None => place,
    }
}

// The place of each EXTERNAL name that code refers to, by its number in the code.
fn places_of(alloc: Global, numbers: &[Option<u16>], count: u16) -> Result<Vec<u16>, AllocError>
    requires { IsNumbering count numbers.now }
    ensures { IfOk result (λ places. FollowPlaces places.items 0 numbers.now) }
{
    let mut places = vec![in alloc; 0; count as usize]?;
    let mut left = numbers;
    let mut place = 0;
    while let [number, more @ ..] = left {
        place = with_place(&mut places, *number, place);
        left = more;
    }
    Ok(places)
}

// Adds a name, which is new, if code refers to it.
fn with_used(
    names: LinkageNames,
    external: ExternalName,
    number: Option<u16>,
) -> Result<LinkageNames, AllocError>
    requires first { names.publics ≡ [] }
    requires new { is_among external.name (names_of names) ≡ false }
    ensures publics { IfOk result (λ after. after.publics ≡ []) }
    ensures externals { IfOk result
        (λ after. after.externals ≡ names.externals ++ used_name number external) }
{
    match number {
        Some(_) => names.with_external(external.name),
        None => Ok(names),
    }
}

// The names that code refers to.
fn names_with(
    alloc: Global,
    externals: &[ExternalName],
    numbers: &[Option<u16>],
) -> Result<LinkageNames, AllocError>
    requires within { length numbers.now ≤ length externals.now }
    requires new { IsTrue (are_new (names_of_externals externals.now) []) }
    ensures names { IfOk result (λ names. names.externals ≡ used_names numbers.now externals.now) }
    ensures publics { IfOk result (λ names. names.publics ≡ []) }
{
    let mut names = LinkageNames::new(alloc);
    let mut left = numbers;
    let mut rest = externals;
    while let [number, more @ ..] = left {
        let [external, others @ ..] = rest else {
            unreachable!()
        };
        names = with_used(names, *external, *number)?;
        left = more;
        rest = others;
    }
    Ok(names)
}

/// The names that code refers to, of all EXTERNAL names of a module. Fails if more are in use than there are numbers.
pub(crate) fn listed_names(
    alloc: Global,
    externals: &[ExternalName],
    numbered: &Externals,
) -> Result<ListedNames, AllocError>
    requires within { length numbered.now ≤ length externals.now }
    requires new { IsTrue (are_new (names_of_externals externals.now) []) }
    ensures { IfOk result (λ listed. AreListed externals.now numbered.now listed.numbers.items listed.names) }
{
    let Some(count) = numbered.count() else {
        // A counter ends: code numbers 65535 names at most. Code and data within their segments refer to fewer, but no law
        // counts them.
        return Err(AllocError);
    };
    let numbers = numbered.numbers();
    let places = places_of(alloc, numbers, count)?;
    let names = names_with(alloc, externals, numbers)?;
    Ok(ListedNames {
        names,
        numbers: places,
    })
}

// A public name of an object, which is in this module.
fn public_object(name: Name, place: Place) -> OwnedPublic
    requires { IsOwnPlace place }
    ensures may { IsTrue (may_have_publics result.segment) }
    ensures is { IsAtPlace name place (owned_public_view result) }
{
    match place {
        Place::Number(offset) => OwnedPublic {
            segment: Segment::Absolute,
            offset,
            name,
        },
        Place::Code(offset) => OwnedPublic {
            segment: Segment::Code,
            offset,
            name,
        },
        Place::Data(offset) => OwnedPublic {
            segment: Segment::Data,
            offset,
            name,
        },
        Place::External { .. } => unreachable!(),
    }
}

// A public name, with its place in code.
fn public_of(name: Name, place: PublicPlace, code: &Finished) -> OwnedPublic
    requires { HasOwnPlace place }
    ensures may { IsTrue (may_have_publics result.segment) }
    ensures is { IsPublicIn code.now.labels.items code.now.bytes name place (owned_public_view result) }
{
    match place {
        PublicPlace::Object(place) => public_object(name, place),
        PublicPlace::Procedure(number) => OwnedPublic {
            segment: Segment::Code,
            offset: code.place(LabelNumber { index: number }),
            name,
        },
    }
}

// Adds PUBLIC names, which are new.
fn with_all_publics(
    names: LinkageNames,
    publics: &[PublicName],
    code: &Finished,
) -> Result<LinkageNames, AllocError>
    requires first { names.publics ≡ [] }
    requires new { IsTrue (are_new (names_of_publics publics.now) (names_of names)) }
    requires here { AllByRecursion IsPublicHere publics.now }
    ensures externals { IfOk result (λ after. after.externals ≡ names.externals) }
    ensures publics { IfOk result
        (λ after. ArePublicsIn code.now.labels.items code.now.bytes publics.now after.publics) }
{
    let mut names = names;
    let mut left = publics;
    while let [public, others @ ..] = left {
        names = names.with_public(public_of(public.name, public.place, code))?;
        left = others;
    }
    Ok(names)
}

/// Adds the PUBLIC names of a module.
pub(crate) fn with_publics(
    listed: ListedNames,
    tree: &TreeModule,
    code: &Finished,
) -> Result<ListedNames, AllocError>
    requires first { listed.names.publics ≡ [] }
    requires new { IsTrue (are_new (names_of_publics tree.now.publics.items) (names_of listed.names)) }
    requires here { AllByRecursion IsPublicHere tree.now.publics.items }
    ensures names { IfOk result (λ after. after.names.externals ≡ listed.names.externals) }
    ensures numbers { IfOk result (λ after. after.numbers ≡ listed.numbers) }
    ensures publics { IfOk result
        (λ after. ArePublicsIn code.now.labels.items code.now.bytes tree.now.publics.items after.names.publics) }
{
    let (names, numbers) = listed.into_parts();
    let names = with_all_publics(names, tree.publics.as_slice(), code)?;
    Ok(ListedNames { names, numbers })
}

// Written out so that the fields are dropped in one place.
impl Drop for ListedNames {
    fn drop(self) {
        let ListedNames {
            names: _,
            numbers: _,
        } = self;
    }
}
