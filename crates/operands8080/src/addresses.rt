//! Code that puts addresses of objects and their parts into HL.

ghost use Rattle.std.specs.Prelude.{◌≡◌, OnOk};
ghost use Rattle.steps8080.specs.internal.Step.{Adds};
ghost use Rattle.operands8080.specs.internal.Addresses.{addition_steps, address_steps, base_added_steps, base_steps, frame_word_steps, note_address_steps, note_word_steps, location_address_steps, location_word_steps, new_address_steps, number_added_steps, second_steps, word_at_hl_steps};

use crate::products::plan_product;
use asm8080::WordForm;
use isa8080::{Instr, Pair, Register, StackPair};
use std::alloc::AllocError;
use steps8080::{Base, Facts, Site, Step, Steps, before, copy, is_at, load, repeat};
use treecode::{Location, Place, Reference, Subscript};

// Adds a number to HL. A and DE are kept.
fn plan_number_added(number: u16, steps: &mut Steps) -> Result<(), AllocError>
    ensures { OnOk result (Adds steps.old steps.new (number_added_steps number)) }
{
    let negated = 0_u16.wrapping_sub(number);
    if number <= 3 {
        repeat(Instr::Inx(Pair::Hl), number, steps)
    } else if negated <= 3 {
        repeat(Instr::Dcx(Pair::Hl), negated, steps)
    } else {
        steps.all(&[Instr::Lxi(Pair::Bc, number), Instr::Dad(Pair::Bc)])
    }
}

/// Adds a known word to HL. A and DE are kept.
pub fn plan_addition(place: Place, steps: &mut Steps) -> Result<(), AllocError>
    ensures { OnOk result (Adds steps.old steps.new (addition_steps place)) }
{
    match place.number() {
        Some(number) => plan_number_added(number, steps),
        None => {
            steps.word(WordForm::LoadPair(Pair::Bc), place)?;
            steps.plain(Instr::Dad(Pair::Bc))
        }
    }
}

// Notes that HL holds the address of a location.
fn note_address(location: Location, steps: &mut Steps) -> Result<(), AllocError>
    ensures { OnOk result (Adds steps.old steps.new (note_address_steps location)) }
{
    steps.push(Step::Holds(Facts {
        address_in_hl: Some(location),
        ..Facts::none()
    }))
}

/// Notes that HL holds the word at a location.
pub fn note_word(location: Location, steps: &mut Steps) -> Result<(), AllocError>
    ensures { OnOk result (Adds steps.old steps.new (note_word_steps location)) }
{
    steps.push(Step::Holds(Facts {
        word_in_hl: Some(location),
        ..Facts::none()
    }))
}

// Puts the address of a location into HL, whatever the registers hold.
fn plan_new_address(
    site: &Site<'_>,
    location: Location,
    pushed: u16,
    steps: &mut Steps,
) -> Result<(), AllocError>
    ensures { OnOk result (Adds steps.old steps.new (new_address_steps site.now location pushed)) }
{
    match location {
        Location::Static(place) => steps.word(WordForm::LoadPair(Pair::Hl), place),
        Location::Frame { variable, offset } => steps.all(&[
            Instr::Lxi(Pair::Hl, site.distance(variable, offset, pushed)),
            Instr::Dad(Pair::Sp),
        ]),
    }
}

/// Puts the address of a location into HL, if these steps come first. A and DE are kept.
pub fn plan_location_address(
    site: &Site<'_>,
    location: Location,
    pushed: u16,
    steps: &mut Steps,
) -> Result<(), AllocError>
    ensures { OnOk result (Adds steps.old steps.new (location_address_steps site.now location pushed)) }
{
    let held = site.facts.address_in_hl;
    if is_at(held, location) {
        return Ok(());
    }
    if is_at(held, before(location)) {
        steps.plain(Instr::Inx(Pair::Hl))?;
    } else if is_at(held, location.after(1)) {
        steps.plain(Instr::Dcx(Pair::Hl))?;
    } else {
        plan_new_address(site, location, pushed, steps)?;
    }
    note_address(location, steps)
}

/// Loads HL with the word at the address that it holds. DE is kept.
pub fn plan_word_at_hl(steps: &mut Steps) -> Result<(), AllocError>
    ensures { OnOk result (Adds steps.old steps.new word_at_hl_steps) }
{
    steps.all(&[
        load(Register::A),
        Instr::Inx(Pair::Hl),
        load(Register::H),
        copy(Register::L, Register::A),
    ])
}

// Puts the word at a location of the frame into HL, if these steps come first. DE is kept.
fn plan_frame_word(
    site: &Site<'_>,
    location: Location,
    distance: u16,
    pushed: u16,
    steps: &mut Steps,
) -> Result<(), AllocError>
    ensures { OnOk result (Adds steps.old steps.new (frame_word_steps site.now location distance pushed)) }
{
    let take = Instr::Pop(StackPair::StackHl);
    let give = Instr::Push(StackPair::StackHl);
    if distance == 0 {
        steps.all(&[take, give])?;
        return note_word(location, steps);
    }
    if distance == 2 {
        let lift = Instr::Pop(StackPair::StackBc);
        let lower = Instr::Push(StackPair::StackBc);
        steps.all(&[lift, take, give, lower])?;
        return note_word(location, steps);
    }
    plan_location_address(site, location, pushed, steps)?;
    plan_word_at_hl(steps)?;
    note_word(location, steps)
}

/// Puts the word at a location into HL, if these steps come first. DE is kept; so is A, if the location is static.
pub fn plan_location_word(
    site: &Site<'_>,
    location: Location,
    pushed: u16,
    steps: &mut Steps,
) -> Result<(), AllocError>
    ensures { OnOk result (Adds steps.old steps.new (location_word_steps site.now location pushed)) }
{
    if is_at(site.facts.word_in_hl, location) {
        return Ok(());
    }
    match location {
        Location::Static(place) => { steps.word(WordForm::LoadHl, place) }
        Location::Frame { variable, offset } => {
            let distance = site.distance(variable, offset, pushed);
            plan_frame_word(site, location, distance, pushed, steps)
        }
    }
}

// Puts the address of a base without computed subscripts into HL.
fn plan_base(site: &Site<'_>, base: Base, pushed: u16, steps: &mut Steps) -> Result<(), AllocError>
    ensures { OnOk result (Adds steps.old steps.new (base_steps site.now base pushed)) }
{
    match base {
        Base::Static(place) => {
            plan_location_address(site, Location::Static(place), pushed, steps)
        }
        Base::Frame { variable, offset } => {
            let location = Location::Frame { variable, offset };
            plan_location_address(site, location, pushed, steps)
        }
        Base::Based { pointer, offset } => {
            plan_location_word(site, pointer, pushed, steps)?;
            plan_addition(Place::Number(offset), steps)
        }
    }
}

// Adds the address of a base to the computed subscripts in HL.
fn plan_base_added(
    site: &Site<'_>,
    base: Base,
    pushed: u16,
    steps: &mut Steps,
) -> Result<(), AllocError>
    ensures { OnOk result (Adds steps.old steps.new (base_added_steps site.now base pushed)) }
{
    match base {
        Base::Static(place) => plan_addition(place, steps),
        Base::Frame { variable, offset } => steps.all(&[
            Instr::Lxi(Pair::Bc, site.distance(variable, offset, pushed)),
            Instr::Dad(Pair::Bc),
            Instr::Dad(Pair::Sp),
        ]),
        Base::Based { pointer, offset } => {
            steps.plain(Instr::Xchg)?;
            plan_location_word(&site.unknown(), pointer, pushed, steps)?;
            steps.plain(Instr::Dad(Pair::De))?;
            plan_addition(Place::Number(offset), steps)
        }
    }
}

// Adds a second subscript to the first one, which is in HL.
fn plan_second(
    site: &Site<'_>,
    second: Subscript,
    pushed: u16,
    steps: &mut Steps,
) -> Result<(), AllocError>
    ensures { OnOk result (Adds steps.old steps.new (second_steps site.now second pushed)) }
{
    if site.keeps(second.index).de {
        steps.plain(Instr::Xchg)?;
        plan_product(second.index, second.stride, pushed, steps)?;
        return steps.plain(Instr::Dad(Pair::De));
    }
    steps.plain(Instr::Push(StackPair::StackHl))?;
    plan_product(second.index, second.stride, pushed.wrapping_add(2), steps)?;
    steps.all(&[Instr::Pop(StackPair::StackDe), Instr::Dad(Pair::De)])
}

/// Puts the address of an object or a part of it into HL.
pub fn plan_address(
    site: &Site<'_>,
    reference: &Reference,
    pushed: u16,
    steps: &mut Steps,
) -> Result<(), AllocError>
    ensures { OnOk result (Adds steps.old steps.new (address_steps site.now reference.now pushed)) }
{
    let located = site.located(reference);
    let Some(first) = located.first else {
        return plan_base(site, located.base, pushed, steps);
    };
    plan_product(first.index, first.stride, pushed, steps)?;
    if let Some(second) = located.second {
        plan_second(site, second, pushed, steps)?;
    }
    plan_base_added(site, located.base, pushed, steps)
}
