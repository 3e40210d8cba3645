//! Code that loads values from memory.

ghost use Rattle.std.specs.Prelude.{◌≡◌, OnOk};
ghost use Rattle.steps8080.specs.internal.Step.{Adds};
ghost use Rattle.operands8080.specs.internal.Loads.{byte_in_memory_steps, byte_to_l_steps, extended_byte_in_memory_steps, frame_byte_steps, frame_byte_to_l_steps, location_byte_steps, top_word_steps, word_in_memory_steps};

use crate::addresses::{note_word, plan_location_address, plan_location_word, plan_word_at_hl};
use asm8080::WordForm;
use isa8080::{Instr, Register, StackPair};
use std::alloc::AllocError;
use steps8080::{Site, Steps, Task, before, copy, is_at, load, set};
use treecode::{Location, Reference};

// Puts the word at the stack pointer into HL.
fn plan_top_word(steps: &mut Steps) -> Result<(), AllocError>
    ensures { OnOk result (Adds steps.old steps.new top_word_steps) }
{
    steps.all(&[
        Instr::Pop(StackPair::StackHl),
        Instr::Push(StackPair::StackHl),
    ])
}

// Puts the byte at a location of the frame into A, if these steps come first.
fn plan_frame_byte(
    site: &Site<'_>,
    location: Location,
    distance: u16,
    pushed: u16,
    steps: &mut Steps,
) -> Result<(), AllocError>
    ensures { OnOk result (Adds steps.old steps.new (frame_byte_steps site.now location distance pushed)) }
{
    match distance {
        0 => {
            plan_top_word(steps)?;
            note_word(location, steps)?;
            steps.plain(copy(Register::A, Register::L))
        }
        1 => {
            plan_top_word(steps)?;
            note_word(before(location), steps)?;
            steps.plain(copy(Register::A, Register::H))
        }
        _ => {
            plan_location_address(site, location, pushed, steps)?;
            steps.plain(load(Register::A))
        }
    }
}

// Puts the byte at a location into A, if these steps come first. For a static location, only A changes.
fn plan_location_byte(
    site: &Site<'_>,
    location: Location,
    pushed: u16,
    steps: &mut Steps,
) -> Result<(), AllocError>
    ensures { OnOk result (Adds steps.old steps.new (location_byte_steps site.now location pushed)) }
{
    if is_at(site.facts.byte_in_a, location) {
        return Ok(());
    }
    if let Some(instruction) = site.facts.byte_from_hl(location) {
        return steps.plain(instruction);
    }
    match location {
        Location::Static(place) => { steps.word(WordForm::LoadA, place) }
        Location::Frame { variable, offset } => {
            let distance = site.distance(variable, offset, pushed);
            plan_frame_byte(site, location, distance, pushed, steps)
        }
    }
}

/// Puts the byte of a part of memory into A, if these steps come first.
pub fn plan_byte_in_memory(
    site: &Site<'_>,
    reference: &Reference,
    pushed: u16,
    steps: &mut Steps,
) -> Result<(), AllocError>
    ensures { OnOk result (Adds steps.old steps.new (byte_in_memory_steps site.now reference.now pushed)) }
{
    match site.location_of(reference) {
        Some(location) => plan_location_byte(site, location, pushed, steps),
        None => {
            steps.part(Task::Address(*reference), pushed)?;
            steps.plain(load(Register::A))
        }
    }
}

// Puts the byte at a location of the frame into L, if these steps come first. A and DE are kept.
fn plan_frame_byte_to_l(
    site: &Site<'_>,
    location: Location,
    distance: u16,
    pushed: u16,
    steps: &mut Steps,
) -> Result<(), AllocError>
    ensures { OnOk result (Adds steps.old steps.new
        (frame_byte_to_l_steps site.now location distance pushed)) }
{
    match distance {
        0 => plan_top_word(steps),
        1 => {
            plan_top_word(steps)?;
            steps.plain(copy(Register::L, Register::H))
        }
        _ => {
            plan_location_address(site, location, pushed, steps)?;
            steps.plain(load(Register::L))
        }
    }
}

// Puts the byte at a location into L, if these steps come first. A and DE are kept.
fn plan_byte_to_l(
    site: &Site<'_>,
    location: Location,
    pushed: u16,
    steps: &mut Steps,
) -> Result<(), AllocError>
    ensures { OnOk result (Adds steps.old steps.new (byte_to_l_steps site.now location pushed)) }
{
    if is_at(site.facts.word_in_hl, location) {
        return Ok(());
    }
    if let Some(instruction) = site.facts.byte_for_l(location) {
        return steps.plain(instruction);
    }
    match location {
        Location::Static(place) => steps.word(WordForm::LoadHl, place),
        Location::Frame { variable, offset } => {
            let distance = site.distance(variable, offset, pushed);
            plan_frame_byte_to_l(site, location, distance, pushed, steps)
        }
    }
}

/// Puts the byte of a part of memory into HL, zero-extended, if these steps come first. A and DE are kept if the code
/// for the address keeps them.
pub fn plan_extended_byte_in_memory(
    site: &Site<'_>,
    reference: &Reference,
    pushed: u16,
    steps: &mut Steps,
) -> Result<(), AllocError>
    ensures { OnOk result (Adds steps.old steps.new
        (extended_byte_in_memory_steps site.now reference.now pushed)) }
{
    match site.location_of(reference) {
        Some(location) => {
            plan_byte_to_l(site, location, pushed, steps)?;
            steps.plain(set(Register::H, 0))
        }
        None => {
            steps.part(Task::Address(*reference), pushed)?;
            steps.all(&[load(Register::L), set(Register::H, 0)])
        }
    }
}

/// Puts the word of a part of memory into HL, if these steps come first. DE is kept if the code for the address keeps
/// it.
pub fn plan_word_in_memory(
    site: &Site<'_>,
    reference: &Reference,
    pushed: u16,
    steps: &mut Steps,
) -> Result<(), AllocError>
    ensures { OnOk result (Adds steps.old steps.new (word_in_memory_steps site.now reference.now pushed)) }
{
    match site.location_of(reference) {
        Some(location) => plan_location_word(site, location, pushed, steps),
        None => {
            steps.part(Task::Address(*reference), pushed)?;
            plan_word_at_hl(steps)
        }
    }
}
