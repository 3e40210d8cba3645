//! Code that stores a value from A or HL.

ghost use Rattle.std.specs.Prelude.{◌≡◌, OnOk};
ghost use Rattle.steps8080.specs.internal.Step.{Adds};
ghost use Rattle.operands8080.specs.internal.Stores.{address_beside_a_steps, address_beside_de_steps, byte_is_here_steps, goal_of, send_steps, store_a_at_steps, store_a_steps, store_extended_steps, store_hl_at_steps, store_low_byte_steps, store_near_steps, store_steps, store_word_steps, word_is_here_steps, word_near};

use asm8080::WordForm;
use isa8080::{Instr, Operand, Pair, Register, StackPair};
use std::alloc::AllocError;
use steps8080::{Facts, Site, Step, Steps, Task, copy, plan_extension};
use treecode::{Keeps, Location, Reference, Target};
use trees::ScalarType;

/// A scalar to store in: its type, its place, and its location if its address has no computed part.
#[derive(Clone, Copy)]
pub struct Goal {
    pub to: ScalarType,
    pub reference: Reference,
    pub location: Option<Location>,
    pub keeps: Keeps,
}

/// A variable in the frame that is next to the stack pointer.
#[derive(Clone, Copy)]
pub enum Near {
    /// It is the first word.
    First,
    /// It is the second word.
    Second,
}

// The scalar that a value is stored in.
fn goal_of(site: &Site<'_>, to: ScalarType, reference: Reference) -> Goal
    ensures { result ≡ goal_of site.now to reference }
{
    Goal {
        to,
        reference,
        location: site.location_of(&reference),
        keeps: site.keeps_of_address(&reference),
    }
}

// The word next to the stack pointer that is at a location, if any.
fn word_near(site: &Site<'_>, location: Location, pushed: u16) -> Option<Near>
    ensures { result ≡ word_near site.now location pushed }
{
    let Location::Frame { variable, offset } = location else {
        return None;
    };
    match site.distance(variable, offset, pushed) {
        0 => Some(Near::First),
        2 => Some(Near::Second),
        _ => None,
    }
}

// Notes that HL holds the word that was stored from it.
fn word_is_here(location: Option<Location>, steps: &mut Steps) -> Result<(), AllocError>
    ensures { OnOk result (Adds steps.old steps.new (word_is_here_steps location)) }
{
    steps.push(Step::Holds(Facts {
        word_in_hl: location,
        ..Facts::none()
    }))
}

// Notes that A holds the byte that was stored from it.
fn byte_is_here(location: Option<Location>, steps: &mut Steps) -> Result<(), AllocError>
    ensures { OnOk result (Adds steps.old steps.new (byte_is_here_steps location)) }
{
    steps.push(Step::Holds(Facts {
        byte_in_a: location,
        ..Facts::none()
    }))
}

// The steps that store HL in a word next to the stack pointer.
fn store_near(near: Near, location: Location, steps: &mut Steps) -> Result<(), AllocError>
    ensures { OnOk result (Adds steps.old steps.new (store_near_steps near location)) }
{
    match near {
        Near::First => steps.all(&[
            Instr::Pop(StackPair::StackBc),
            Instr::Push(StackPair::StackHl),
        ])?,
        Near::Second => steps.all(&[
            Instr::Pop(StackPair::StackBc),
            Instr::Pop(StackPair::StackDe),
            Instr::Push(StackPair::StackHl),
            Instr::Push(StackPair::StackBc),
        ])?,
    }
    steps.push(Step::MemoryChanged)?;
    word_is_here(Some(location), steps)
}

// The steps that put an address into HL while A keeps its value.
fn address_beside_a(goal: &Goal, pushed: u16, steps: &mut Steps) -> Result<(), AllocError>
    ensures { OnOk result (Adds steps.old steps.new (address_beside_a_steps goal.now pushed)) }
{
    let task = Task::Address(goal.reference);
    if goal.keeps.a {
        return steps.part(task, pushed);
    }
    steps.plain(Instr::Push(StackPair::Psw))?;
    steps.part(task, pushed.wrapping_add(2))?;
    steps.plain(Instr::Pop(StackPair::Psw))
}

// The steps that put an address into HL and the value that was in HL into DE.
fn address_beside_de(goal: &Goal, pushed: u16, steps: &mut Steps) -> Result<(), AllocError>
    ensures { OnOk result (Adds steps.old steps.new (address_beside_de_steps goal.now pushed)) }
{
    let task = Task::Address(goal.reference);
    if goal.keeps.de {
        steps.plain(Instr::Xchg)?;
        return steps.part(task, pushed);
    }
    steps.plain(Instr::Push(StackPair::StackHl))?;
    steps.part(task, pushed.wrapping_add(2))?;
    steps.plain(Instr::Pop(StackPair::StackDe))
}

// The steps that store A at a computed address. The value stays in A.
fn store_a_at(goal: &Goal, pushed: u16, steps: &mut Steps) -> Result<(), AllocError>
    ensures { OnOk result (Adds steps.old steps.new (store_a_at_steps goal.now pushed)) }
{
    address_beside_a(goal, pushed, steps)?;
    steps.plain(Instr::MovToMemory(Register::A))?;
    match goal.to {
        ScalarType::Byte => Ok(()),
        ScalarType::Address => {
            steps.all(&[Instr::Inx(Pair::Hl), Instr::Mvi(Operand::M, 0)])?;
            byte_is_here(goal.location, steps)
        }
    }
}

// The steps that store A. The value stays in A.
fn store_a(site: &Site<'_>, goal: &Goal, pushed: u16, steps: &mut Steps) -> Result<(), AllocError>
    ensures { OnOk result (Adds steps.old steps.new (store_a_steps site.now goal.now pushed)) }
{
    match (goal.to, goal.location) {
        (ScalarType::Byte, Some(Location::Static(place))) => { steps.word(WordForm::StoreA, place) }
        (ScalarType::Address, Some(location)) => store_extended(
            site, goal, location, pushed, steps,
        ),
        (ScalarType::Byte, _) | (ScalarType::Address, None) => store_a_at(goal, pushed, steps),
    }
}

// The steps that store A in an ADDRESS at a location. The value stays in A.
fn store_extended(
    site: &Site<'_>,
    goal: &Goal,
    location: Location,
    pushed: u16,
    steps: &mut Steps,
) -> Result<(), AllocError>
    ensures { OnOk result (Adds steps.old steps.new
        (store_extended_steps site.now goal.now location pushed)) }
{
    match (location, word_near(site, location, pushed)) {
        (Location::Static(place), _) => {
            plan_extension(steps)?;
            steps.word(WordForm::StoreHl, place)?;
            byte_is_here(Some(location), steps)
        }
        (Location::Frame { .. }, Some(near)) => {
            plan_extension(steps)?;
            store_near(near, location, steps)?;
            byte_is_here(Some(location), steps)
        }
        (Location::Frame { .. }, None) => store_a_at(goal, pushed, steps),
    }
}

// The steps that store the value in HL, or its low byte, at a computed address. If the value is wanted, they put it
// back into HL.
fn store_hl_at(
    goal: &Goal,
    is_wanted: bool,
    pushed: u16,
    steps: &mut Steps,
) -> Result<(), AllocError>
    ensures { OnOk result (Adds steps.old steps.new (store_hl_at_steps goal.now is_wanted pushed)) }
{
    address_beside_de(goal, pushed, steps)?;
    steps.plain(Instr::MovToMemory(Register::E))?;
    if matches!(goal.to, ScalarType::Address) {
        steps.all(&[Instr::Inx(Pair::Hl), Instr::MovToMemory(Register::D)])?;
    }
    if !is_wanted {
        return Ok(());
    }
    steps.plain(Instr::Xchg)?;
    match goal.to {
        ScalarType::Byte => Ok(()),
        ScalarType::Address => word_is_here(goal.location, steps),
    }
}

// The steps that store the low byte of HL.
fn store_low_byte(
    goal: &Goal,
    is_wanted: bool,
    pushed: u16,
    steps: &mut Steps,
) -> Result<(), AllocError>
    ensures { OnOk result (Adds steps.old steps.new (store_low_byte_steps goal.now is_wanted pushed)) }
{
    let to_a = copy(Register::A, Register::L);
    match goal.location {
        Some(Location::Static(place)) => {
            steps.plain(to_a)?;
            steps.word(WordForm::StoreA, place)
        }
        _ if goal.keeps.a && !is_wanted => {
            steps.plain(to_a)?;
            store_a_at(goal, pushed, steps)
        }
        _ => store_hl_at(goal, is_wanted, pushed, steps),
    }
}

// The steps that store HL in an ADDRESS.
fn store_word(
    site: &Site<'_>,
    goal: &Goal,
    is_wanted: bool,
    pushed: u16,
    steps: &mut Steps,
) -> Result<(), AllocError>
    ensures { OnOk result (Adds steps.old steps.new (store_word_steps site.now goal.now is_wanted pushed)) }
{
    let Some(location) = goal.location else {
        return store_hl_at(goal, is_wanted, pushed, steps);
    };
    match (location, word_near(site, location, pushed)) {
        (Location::Static(place), _) => steps.word(WordForm::StoreHl, place),
        (Location::Frame { .. }, Some(near)) => store_near(near, location, steps),
        (Location::Frame { .. }, None) => store_hl_at(goal, is_wanted, pushed, steps),
    }
}

// The steps that send the low byte of a value to a port.
fn send(from: ScalarType, port: u8, steps: &mut Steps) -> Result<(), AllocError>
    ensures { OnOk result (Adds steps.old steps.new (send_steps from port)) }
{
    match from {
        ScalarType::Byte => {}
        ScalarType::Address => { steps.plain(copy(Register::A, Register::L))? }
    }
    steps.plain(Instr::Out(port))
}

/// The steps that store A (from a BYTE) or HL (from an ADDRESS) in a target. If the value `is_wanted` afterwards, it is
/// still in that register.
pub fn plan_store(
    site: &Site<'_>,
    target: Target,
    is_wanted: bool,
    pushed: u16,
    steps: &mut Steps,
) -> Result<(), AllocError>
    ensures { OnOk result (Adds steps.old steps.new (store_steps site.now target is_wanted pushed)) }
{
    match target {
        Target::Sent { from, port } => send(from, port, steps),
        Target::Stored {
            from,
            to,
            reference,
        } => {
            let goal = goal_of(site, to, reference);
            match (from, to) {
                (ScalarType::Byte, _) => store_a(site, &goal, pushed, steps),
                (ScalarType::Address, ScalarType::Byte) => {
                    store_low_byte(&goal, is_wanted, pushed, steps)
                }
                (ScalarType::Address, ScalarType::Address) => {
                    store_word(site, &goal, is_wanted, pushed, steps)
                }
            }
        }
    }
}
