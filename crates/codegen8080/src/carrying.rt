//! Emission of planned steps that hold no statement.

ghost use Rattle.std.specs.Prelude.{◌≡◌, ◌∷◌, ◌++◌, [], OnOk};
ghost use Rattle.treecode.specs.internal.Nodes.{nodes_of};
ghost use Rattle.treecode.specs.internal.Rising.{NumbersRise};
ghost use Rattle.steps8080.specs.declared.step.Step.TheVariants.{Holds, Mark};
ghost use Rattle.steps8080.specs.declared.step.Task.TheVariants as tasks;
ghost use Rattle.steps8080.specs.internal.Step.{part};
ghost use Rattle.exprgen8080.specs.internal.Emission.{knowing};
ghost use Rattle.exprgen8080.specs.internal.Emitted.{EmitsSteps};
ghost use Rattle.codegen8080.specs.internal.Generated.{HoldsNoStatement, byte_at_address_steps, byte_at_steps, byte_in_a, carried_steps, frame_word_steps, jump_on_steps, load_byte_steps, load_word_steps, site_of, word_at_steps, word_in_hl};

use asm8080::WordForm;
use exprgen8080::{Emission, Facts, LabelNumber, Part, Site, Step, Task};
use isa8080::{Instr, Operand, Pair, Register};
use statements8080::{Body, Planned};
use std::alloc::AllocError;
use steps8080::is_at;
use treecode::{Location, Reference};

/// The site of a body, without facts about the registers.
pub(crate) fn site_of<'a>(body: &Body<'a>) -> Site<'a>
    ensures { result ≡ site_of body.now }
{
    Site {
        tree: body.tree,
        frame: body.frame,
        facts: Facts::none(),
    }
}

// Adds the code of an expression step.
fn add(emission: &mut Emission, body: &Body<'_>, step: Step) -> Result<(), AllocError>
    requires { NumbersRise (nodes_of body.now.tree.now) }
    ensures { OnOk result (EmitsSteps (site_of body.now) (step ∷ []) emission.old emission.new) }
{
    emission.add(&site_of(body), step)
}

// The step that puts the address of a reference into HL.
fn address(reference: Reference) -> Step
    ensures { result ≡ part (tasks.Address reference) 0 }
{
    Step::Part(Part {
        task: Task::Address(reference),
        pushed: 0,
    })
}

// Puts the byte at the address of a reference into A.
fn byte_at_address(
    emission: &mut Emission,
    body: &Body<'_>,
    reference: Reference,
) -> Result<(), AllocError>
    requires { NumbersRise (nodes_of body.now.tree.now) }
    ensures { OnOk result (EmitsSteps (site_of body.now)
        (byte_at_address_steps reference) emission.old emission.new) }
{
    add(emission, body, address(reference))?;
    add(
        emission,
        body,
        Step::Plain(Instr::Mov(Register::A, Operand::M)),
    )
}

// Puts the BYTE at a location into A.
fn byte_at(
    emission: &mut Emission,
    body: &Body<'_>,
    reference: Reference,
    location: Location,
) -> Result<(), AllocError>
    requires { NumbersRise (nodes_of body.now.tree.now) }
    ensures { OnOk result (EmitsSteps (site_of body.now)
        (byte_at_steps emission.old.facts reference location) emission.old emission.new) }
{
    match location {
        Location::Static(place) => {
            if is_at(emission.facts.address_in_hl, location) {
                byte_at_address(emission, body, reference)
            } else {
                add(emission, body, Step::Word(WordForm::LoadA, place))
            }
        }
        Location::Frame { .. } => byte_at_address(emission, body, reference),
    }
}

// Puts the BYTE at a location into A, and notes that A holds it.
fn known_byte_at(
    emission: &mut Emission,
    body: &Body<'_>,
    reference: Reference,
    location: Location,
) -> Result<(), AllocError>
    requires { NumbersRise (nodes_of body.now.tree.now) }
    ensures { OnOk result (EmitsSteps (site_of body.now)
        (byte_at_steps emission.old.facts reference location ++ (Holds (byte_in_a location) ∷ []))
        emission.old emission.new) }
{
    byte_at(emission, body, reference, location)?;
    add(
        emission,
        body,
        Step::Holds(Facts {
            byte_in_a: Some(location),
            ..Facts::none()
        }),
    )
}

// Puts a BYTE at a location into A, unless A holds it.
#[tactic(auto, unfolding(crate::specs::internal::Generated::load_byte_steps), using(exprgen8080::proofs::Emitting::emits_nothing))]
fn load_byte(
    emission: &mut Emission,
    body: &Body<'_>,
    reference: Reference,
) -> Result<(), AllocError>
    requires { NumbersRise (nodes_of body.now.tree.now) }
    ensures { OnOk result (EmitsSteps (site_of body.now)
        (load_byte_steps (knowing (site_of body.now) emission.old.facts) reference)
        emission.old emission.new) }
{
    let site = emission.site(&site_of(body));
    match site.location_of(&reference) {
        Some(location) => {
            if is_at(emission.facts.byte_in_a, location) {
                Ok(())
            } else {
                known_byte_at(emission, body, reference, location)
            }
        }
        None => Ok(()),
    }
}

// Puts an ADDRESS in the frame into HL.
fn frame_word(
    emission: &mut Emission,
    body: &Body<'_>,
    reference: Reference,
) -> Result<(), AllocError>
    requires { NumbersRise (nodes_of body.now.tree.now) }
    ensures { OnOk result (EmitsSteps (site_of body.now)
        (frame_word_steps reference) emission.old emission.new) }
{
    add(emission, body, address(reference))?;
    add(
        emission,
        body,
        Step::Plain(Instr::Mov(Register::A, Operand::M)),
    )?;
    add(emission, body, Step::Plain(Instr::Inx(Pair::Hl)))?;
    add(
        emission,
        body,
        Step::Plain(Instr::Mov(Register::H, Operand::M)),
    )?;
    add(
        emission,
        body,
        Step::Plain(Instr::Mov(Register::L, Operand::Of(Register::A))),
    )
}

// Puts the ADDRESS at a location into HL.
fn word_at(
    emission: &mut Emission,
    body: &Body<'_>,
    reference: Reference,
    location: Location,
) -> Result<(), AllocError>
    requires { NumbersRise (nodes_of body.now.tree.now) }
    ensures { OnOk result (EmitsSteps (site_of body.now)
        (word_at_steps reference location) emission.old emission.new) }
{
    match location {
        Location::Static(place) => add(emission, body, Step::Word(WordForm::LoadHl, place)),
        Location::Frame { .. } => frame_word(emission, body, reference),
    }
}

// Puts the ADDRESS at a location into HL, and notes that HL holds it.
fn known_word_at(
    emission: &mut Emission,
    body: &Body<'_>,
    reference: Reference,
    location: Location,
) -> Result<(), AllocError>
    requires { NumbersRise (nodes_of body.now.tree.now) }
    ensures { OnOk result (EmitsSteps (site_of body.now)
        (word_at_steps reference location ++ (Holds (word_in_hl location) ∷ []))
        emission.old emission.new) }
{
    word_at(emission, body, reference, location)?;
    add(
        emission,
        body,
        Step::Holds(Facts {
            word_in_hl: Some(location),
            ..Facts::none()
        }),
    )
}

// Puts an ADDRESS at a location into HL, unless HL holds it.
#[tactic(auto, unfolding(crate::specs::internal::Generated::load_word_steps), using(exprgen8080::proofs::Emitting::emits_nothing))]
fn load_word(
    emission: &mut Emission,
    body: &Body<'_>,
    reference: Reference,
) -> Result<(), AllocError>
    requires { NumbersRise (nodes_of body.now.tree.now) }
    ensures { OnOk result (EmitsSteps (site_of body.now)
        (load_word_steps (knowing (site_of body.now) emission.old.facts) reference)
        emission.old emission.new) }
{
    let site = emission.site(&site_of(body));
    match site.location_of(&reference) {
        Some(location) => {
            if is_at(emission.facts.word_in_hl, location) {
                Ok(())
            } else {
                known_word_at(emission, body, reference, location)
            }
        }
        None => Ok(()),
    }
}

// Adds a jump to a label, if the end of the code can be reached.
#[tactic(auto, using(exprgen8080::proofs::Emitting::emits_nothing))]
fn jump_on(
    emission: &mut Emission,
    body: &Body<'_>,
    goes_on: bool,
    label: LabelNumber,
) -> Result<(), AllocError>
    requires { NumbersRise (nodes_of body.now.tree.now) }
    ensures { OnOk result (EmitsSteps (site_of body.now)
        (jump_on_steps goes_on label) emission.old emission.new) }
{
    if goes_on {
        add(emission, body, Step::Jump(WordForm::Jump, label))
    } else {
        Ok(())
    }
}

// Ends one path and starts another.
fn turn(
    emission: &mut Emission,
    body: &Body<'_>,
    goes_on: bool,
    other: LabelNumber,
    end: LabelNumber,
) -> Result<(), AllocError>
    requires { NumbersRise (nodes_of body.now.tree.now) }
    ensures { OnOk result (EmitsSteps (site_of body.now)
        (jump_on_steps goes_on end ++ (Mark other ∷ [])) emission.old emission.new) }
{
    jump_on(emission, body, goes_on, end)?;
    add(emission, body, Step::Mark(other))
}

/// Adds the code of a step that holds no statement, at the given end of the code.
#[tactic(auto, unfolding(crate::specs::internal::Generated::carried_steps), using(exprgen8080::proofs::Emitting::emits_nothing))]
pub(crate) fn carry(
    emission: &mut Emission,
    body: &Body<'_>,
    goes_on: bool,
    step: Planned,
) -> Result<(), AllocError>
    requires rise { NumbersRise (nodes_of body.now.tree.now) }
    requires alone { HoldsNoStatement step }
    ensures { OnOk result (EmitsSteps (site_of body.now)
        (carried_steps (site_of body.now) (record { facts = emission.old.facts; goes_on = goes_on }) step)
        emission.old emission.new) }
{
    match step {
        Planned::Code(step) => add(emission, body, step),
        Planned::LoadByte(reference) => load_byte(emission, body, reference),
        Planned::LoadWord(reference) => load_word(emission, body, reference),
        Planned::JumpOn(label) => jump_on(emission, body, goes_on, label),
        Planned::Turn { other, end } => turn(emission, body, goes_on, other, end),
        Planned::Meet(label) => add(emission, body, Step::Mark(label)),
        Planned::Again { label, .. } => add(emission, body, Step::Mark(label)),
        Planned::Jumped { .. } | Planned::Reaches(_) => Ok(()),
        Planned::Statement(_) | Planned::List(_) => unreachable!(),
    }
}
