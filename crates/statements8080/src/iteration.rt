//! Iterative DO.

ghost use Rattle.std.specs.Prelude.{◌≡◌, OnOk};
ghost use Rattle.statements8080.specs.internal.Plans.{PlanAdds, PlanAddsWithLabels, TakesLabels, free_label};
ghost use Rattle.statements8080.specs.internal.Counters.{address_fact, counter_place, counts_by_one, first_value, has_a_turn, word_fact};
ghost use Rattle.statements8080.specs.internal.Tests.{less_steps};
ghost use Rattle.statements8080.specs.internal.Iterations.{add_byte_steps, add_de_in_frame_steps, add_de_steps, add_word_steps, add_word_to_byte_steps, asked_jump, asked_mark, asked_test_steps, count_steps, facts_of_turn, first_steps, first_test_steps, general_begin_steps, general_end_steps, general_steps, is_byte, is_byte_type, iteration_labels, iteration_steps, loop_labels, next_byte_steps, next_turn_steps, next_word_steps, step_in_de_steps, step_steps, sum_of_byte_steps, sum_of_word_steps, test_label_steps, to_known_steps, turns_labels, turns_steps};

use crate::assignment::plan_single;
use crate::body::{Body, whole};
use crate::bound::{Test, facts_of_test, plan_test, test_of};
use crate::plan::{Plan, Planned, label_at};
use asm8080::WordForm;
use exprgen8080::{Facts, LabelNumber, Site, Task};
use isa8080::{Condition, Instr, Operand, Operation, Pair, Register};
use std::alloc::AllocError;
use treecode::{ExpressionNumber, Iteration, Location, Place, Range, Reference, Target};
use trees::ScalarType;

/// The variable of an iterative DO: a whole scalar, its type and its location.
#[derive(Clone, Copy)]
pub struct Counter {
    pub reference: Reference,
    pub scalar: ScalarType,
    pub location: Option<Location>,
}

impl Counter {
    /// Its place in memory, if it is not in the frame.
    pub fn place(&self) -> Option<Place>
        ensures { result ≡ counter_place self.now }
    {
        match self.location {
            Some(Location::Static(place)) => Some(place),
            _ => None,
        }
    }

    /// The fact that HL holds its address.
    pub fn address_fact(&self) -> Facts
        ensures { result ≡ address_fact self.now }
    {
        Facts {
            address_in_hl: self.location,
            ..Facts::none()
        }
    }

    /// The fact that HL holds its value.
    pub fn word_fact(&self) -> Facts
        ensures { result ≡ word_fact self.now }
    {
        Facts {
            word_in_hl: self.location,
            ..Facts::none()
        }
    }

    // Its first value, if known as a number, converted to its type.
    fn first_value(&self, site: &Site<'_>, first: ExpressionNumber) -> Option<u16>
        ensures { result ≡ first_value self.now site.now first }
    {
        match site.number(first) {
            Some(number) => match self.scalar {
                ScalarType::Byte => Some(number % 256),
                ScalarType::Address => Some(number),
            },
            None => None,
        }
    }
}

// The labels of a loop.
#[derive(Clone, Copy)]
struct LoopLabels {
    // The start of a turn.
    turn: LabelNumber,
    // The test for another turn.
    test: LabelNumber,
    // Just past the loop.
    end: LabelNumber,
}

impl LoopLabels {
    // Takes three labels.
    fn new(plan: &mut Plan) -> LoopLabels
        ensures labels { result ≡ loop_labels (free_label plan.old) }
        ensures takes { TakesLabels plan.old plan.new 3 }
    {
        let turn = plan.labels(3);
        LoopLabels {
            turn,
            test: label_at(turn, 1),
            end: label_at(turn, 2),
        }
    }
}

// Whether a type is BYTE.
fn is_byte_type(scalar: ScalarType) -> bool
    ensures { result ≡ is_byte_type scalar }
{
    matches!(scalar, ScalarType::Byte)
}

// Whether there is a first turn, if known.
#[tactic(auto, unfolding(crate::specs::internal::Counters::has_a_turn))]
fn has_a_turn(site: &Site<'_>, counter: &Counter, head: &Iteration) -> Option<bool>
    ensures { result ≡ has_a_turn site.now counter.now head.now }
{
    match (
        counter.first_value(site, head.first),
        site.number(head.last),
    ) {
        (Some(first), Some(last)) => Some(first <= last),
        _ => None,
    }
}

// Whether the variable is counted by 1.
fn counts_by_one(site: &Site<'_>, step: Option<ExpressionNumber>) -> bool
    ensures { result ≡ counts_by_one site.now step }
{
    match step {
        Some(step) => matches!(site.number(step), Some(1)),
        None => true,
    }
}

// Assigns the first value to the variable.
#[tactic(auto, unfolding(crate::specs::internal::Iterations::first_steps))]
fn plan_first(
    body: &Body<'_>,
    site: &Site<'_>,
    plan: &mut Plan,
    counter: &Counter,
    first: ExpressionNumber,
) -> Result<(), AllocError>
    ensures { OnOk result (PlanAdds plan.old plan.new (first_steps body.now site.now counter.now first)) }
{
    let target = Target::Stored {
        from: site.scalar(first),
        to: counter.scalar,
        reference: counter.reference,
    };
    plan_single(body, site, plan, target, first)
}

// The test before the first turn of a loop with a known bound, unless a first turn is known.
#[tactic(auto, unfolding(crate::specs::internal::Iterations::first_test_steps))]
fn plan_first_test(
    plan: &mut Plan,
    counter: &Counter,
    last: u16,
    end: LabelNumber,
) -> Result<(), AllocError>
    ensures { OnOk result (PlanAdds plan.old plan.new (first_test_steps counter.now last end)) }
{
    let Some(bound) = last.checked_add(1) else {
        return Ok(());
    };
    match counter.scalar {
        ScalarType::Byte => {
            plan.push(Planned::LoadByte(counter.reference))?;
            plan.plain(Instr::AccumulateImmediate(Operation::Compare, (bound % 256) as u8))?;
        }
        ScalarType::Address => {
            plan.push(Planned::LoadWord(counter.reference))?;
            plan_less(plan, bound)?;
        }
    }
    plan.jump(WordForm::JumpWhere(Condition::NoCarry), end)
}

/// Sets the carry if HL is less than a number, and clears it otherwise.
pub fn plan_less(plan: &mut Plan, number: u16) -> Result<(), AllocError>
    ensures { OnOk result (PlanAdds plan.old plan.new (less_steps number)) }
{
    if number % 256 == 0 {
        return plan.all(&[
            Instr::Mov(Register::A, Operand::Of(Register::H)),
            Instr::AccumulateImmediate(Operation::Compare, (number / 256) as u8),
        ]);
    }
    plan.all(&[
        Instr::Mov(Register::A, Operand::Of(Register::L)),
        Instr::AccumulateImmediate(Operation::Subtract, (number % 256) as u8),
        Instr::Mov(Register::A, Operand::Of(Register::H)),
        Instr::AccumulateImmediate(Operation::SubtractWithBorrow, (number / 256) as u8),
    ])
}

// Counts the BYTE by 1, and begins another turn if it was less than the bound.
fn plan_next_byte(
    plan: &mut Plan,
    counter: &Counter,
    last: u16,
    turn: LabelNumber,
) -> Result<(), AllocError>
    ensures { OnOk result (PlanAdds plan.old plan.new (next_byte_steps counter.now last turn)) }
{
    plan.part(Task::Address(counter.reference), 0)?;
    if last >= 255 {
        plan.plain(Instr::Inr(Operand::M))?;
        plan.jump(WordForm::JumpWhere(Condition::NotZero), turn)
    } else {
        plan.all(&[
            Instr::Mov(Register::A, Operand::M),
            Instr::AccumulateImmediate(Operation::Compare, (last % 256) as u8),
            Instr::Inr(Operand::M),
        ])?;
        plan.jump(WordForm::JumpWhere(Condition::Carry), turn)
    }
}

// Counts the ADDRESS at a place by 1, and begins another turn if it was less than the bound.
fn plan_next_word(
    plan: &mut Plan,
    counter: &Counter,
    place: Place,
    last: u16,
    turn: LabelNumber,
) -> Result<(), AllocError>
    ensures { OnOk result (PlanAdds plan.old plan.new (next_word_steps counter.now place last turn)) }
{
    plan.push(Planned::LoadWord(counter.reference))?;
    plan.all(&[
        Instr::Mov(Register::A, Operand::Of(Register::L)),
        Instr::AccumulateImmediate(Operation::Subtract, (last % 256) as u8),
        Instr::Mov(Register::A, Operand::Of(Register::H)),
        Instr::AccumulateImmediate(Operation::SubtractWithBorrow, (last / 256) as u8),
        Instr::Inx(Pair::Hl),
    ])?;
    plan.word(WordForm::StoreHl, place)?;
    plan.jump(WordForm::JumpWhere(Condition::Carry), turn)
}

// Counts the variable by 1, by its type and its place.
#[tactic(auto, unfolding(crate::specs::internal::Iterations::next_turn_steps))]
fn plan_next(
    plan: &mut Plan,
    counter: &Counter,
    last: u16,
    turn: LabelNumber,
) -> Result<(), AllocError>
    ensures { OnOk result (PlanAdds plan.old plan.new (next_turn_steps counter.now last turn)) }
{
    let is_byte = is_byte_type(counter.scalar);
    match counter.place() {
        Some(place) if !is_byte => plan_next_word(plan, counter, place, last, turn),
        _ => plan_next_byte(plan, counter, last, turn),
    }
}

// The facts at the start of a turn.
#[tactic(auto, unfolding(crate::specs::internal::Iterations::facts_of_turn))]
fn facts_of_turn(counter: &Counter) -> Facts
    ensures { result ≡ facts_of_turn counter.now }
{
    if is_byte_type(counter.scalar) {
        counter.address_fact()
    } else {
        counter.word_fact()
    }
}

// The test before the first turn, if asked for and not every BYTE passes it.
#[tactic(auto, unfolding(crate::specs::internal::Iterations::asked_test_steps))]
fn plan_asked_test(
    plan: &mut Plan,
    counter: &Counter,
    last: u16,
    is_tested: bool,
    end: LabelNumber,
) -> Result<(), AllocError>
    ensures { OnOk result (PlanAdds plan.old plan.new (asked_test_steps counter.now last is_tested end)) }
{
    if is_tested && !(is_byte_type(counter.scalar) && last >= 255) {
        plan_first_test(plan, counter, last, end)
    } else {
        Ok(())
    }
}

// The place of a label, if asked for.
fn plan_asked_mark(plan: &mut Plan, is_asked: bool, label: LabelNumber) -> Result<(), AllocError>
    ensures { OnOk result (PlanAdds plan.old plan.new (asked_mark is_asked label)) }
{
    if is_asked { plan.mark(label) } else { Ok(()) }
}

// Counts by 1 to a known bound: the test is at the end, together with the counting.
#[tactic(auto, unfolding(crate::specs::internal::Iterations::to_known_steps))]
fn plan_to_known(
    plan: &mut Plan,
    counter: &Counter,
    last: u16,
    is_tested: bool,
    list: Range,
) -> Result<(), AllocError>
    ensures { OnOk result (PlanAddsWithLabels plan.old plan.new 2
        (to_known_steps counter.now last is_tested list)) }
{
    let turn = plan.labels(2);
    let end = label_at(turn, 1);
    plan_asked_test(plan, counter, last, is_tested, end)?;
    plan.push(Planned::Again {
        label: turn,
        facts: facts_of_turn(counter),
        is_entered: true,
    })?;
    plan.push(Planned::List(list))?;
    plan_next(plan, counter, last, turn)?;
    plan_asked_mark(plan, is_tested, end)?;
    plan.push(Planned::Reaches(true))
}

// Counts the variable by 1. The loop ends if it becomes 0.
fn plan_count(plan: &mut Plan, counter: &Counter, labels: &LoopLabels) -> Result<(), AllocError>
    ensures { OnOk result (PlanAdds plan.old plan.new (count_steps counter.now labels.now)) }
{
    plan.part(Task::Address(counter.reference), 0)?;
    plan.plain(Instr::Inr(Operand::M))?;
    match counter.scalar {
        ScalarType::Byte => { plan.jump(WordForm::JumpWhere(Condition::Zero), labels.end) }
        ScalarType::Address => {
            plan.jump(WordForm::JumpWhere(Condition::NotZero), labels.test)?;
            plan.plain(Instr::Inx(Pair::Hl))?;
            plan.plain(Instr::Inr(Operand::M))?;
            plan.jump(WordForm::JumpWhere(Condition::Zero), labels.end)
        }
    }
}

// Adds a BYTE to the BYTE. The loop ends on overflow.
fn plan_add_byte(
    plan: &mut Plan,
    counter: &Counter,
    step: ExpressionNumber,
    end: LabelNumber,
) -> Result<(), AllocError>
    ensures { OnOk result (PlanAdds plan.old plan.new (add_byte_steps counter.now step end)) }
{
    plan.part(Task::Byte(step), 0)?;
    plan.part(Task::Address(counter.reference), 0)?;
    plan.plain(Instr::Accumulate(Operation::Add, Operand::M))?;
    plan.plain(Instr::MovToMemory(Register::A))?;
    plan.jump(WordForm::JumpWhere(Condition::Carry), end)
}

// Adds DE to the byte at the address in HL. A and the carry show whether the sum exceeds a BYTE.
#[tactic(auto, unfolding(crate::specs::internal::Iterations::sum_of_byte_steps))]
fn plan_sum_of_byte(plan: &mut Plan) -> Result<(), AllocError>
    ensures { OnOk result (PlanAdds plan.old plan.new sum_of_byte_steps) }
{
    plan.all(&[
        Instr::Mov(Register::A, Operand::Of(Register::E)),
        Instr::Accumulate(Operation::Add, Operand::M),
        Instr::MovToMemory(Register::A),
        Instr::Mvi(Operand::Of(Register::A), 0),
        Instr::Accumulate(Operation::AddWithCarry, Operand::Of(Register::D)),
    ])
}

// Adds an ADDRESS to the BYTE. The loop ends if the whole sum exceeds a BYTE.
fn plan_add_word_to_byte(
    plan: &mut Plan,
    counter: &Counter,
    step: ExpressionNumber,
    end: LabelNumber,
) -> Result<(), AllocError>
    ensures { OnOk result (PlanAdds plan.old plan.new (add_word_to_byte_steps counter.now step end)) }
{
    plan.part(Task::Word(step), 0)?;
    plan.plain(Instr::Xchg)?;
    plan.part(Task::Address(counter.reference), 0)?;
    plan_sum_of_byte(plan)?;
    plan.jump(WordForm::JumpWhere(Condition::Carry), end)?;
    plan.plain(Instr::Accumulate(Operation::Or, Operand::Of(Register::A)))?;
    plan.jump(WordForm::JumpWhere(Condition::NotZero), end)
}

// Puts the value of the step into DE.
fn plan_step_in_de(
    site: &Site<'_>,
    plan: &mut Plan,
    step: ExpressionNumber,
) -> Result<(), AllocError>
    ensures { OnOk result (PlanAdds plan.old plan.new (step_in_de_steps site.now step)) }
{
    match site.known(step) {
        Some(place) => plan.word(WordForm::LoadPair(Pair::De), place),
        None => {
            plan.part(Task::Word(step), 0)?;
            plan.plain(Instr::Xchg)
        }
    }
}

// Adds DE to the word at the address in HL. The carry shows an overflow.
#[tactic(auto, unfolding(crate::specs::internal::Iterations::sum_of_word_steps))]
fn plan_sum_of_word(plan: &mut Plan) -> Result<(), AllocError>
    ensures { OnOk result (PlanAdds plan.old plan.new sum_of_word_steps) }
{
    plan.all(&[
        Instr::Mov(Register::A, Operand::M),
        Instr::Accumulate(Operation::Add, Operand::Of(Register::E)),
        Instr::MovToMemory(Register::A),
        Instr::Inx(Pair::Hl),
        Instr::Mov(Register::A, Operand::M),
        Instr::Accumulate(Operation::AddWithCarry, Operand::Of(Register::D)),
        Instr::MovToMemory(Register::A),
    ])
}

// Adds DE to the ADDRESS in the frame.
fn plan_add_de_in_frame(
    plan: &mut Plan,
    counter: &Counter,
    end: LabelNumber,
) -> Result<(), AllocError>
    ensures { OnOk result (PlanAdds plan.old plan.new (add_de_in_frame_steps counter.now end)) }
{
    plan.part(Task::Address(counter.reference), 0)?;
    plan_sum_of_word(plan)?;
    plan.jump(WordForm::JumpWhere(Condition::Carry), end)
}

// Adds DE to the ADDRESS, in memory or in the frame. The loop ends on overflow.
fn plan_add_de(plan: &mut Plan, counter: &Counter, end: LabelNumber) -> Result<(), AllocError>
    ensures { OnOk result (PlanAdds plan.old plan.new
        (add_de_steps (counter_place counter.now) counter.now end)) }
{
    let Some(place) = counter.place() else {
        return plan_add_de_in_frame(plan, counter, end);
    };
    plan.push(Planned::LoadWord(counter.reference))?;
    plan.plain(Instr::Dad(Pair::De))?;
    plan.word(WordForm::StoreHl, place)?;
    plan.jump(WordForm::JumpWhere(Condition::Carry), end)
}

// Adds the step to the ADDRESS.
fn plan_add_word(
    site: &Site<'_>,
    plan: &mut Plan,
    counter: &Counter,
    step: ExpressionNumber,
    end: LabelNumber,
) -> Result<(), AllocError>
    ensures { OnOk result (PlanAdds plan.old plan.new (add_word_steps site.now counter.now step end)) }
{
    plan_step_in_de(site, plan, step)?;
    plan_add_de(plan, counter, end)
}

// Whether the value of an expression is known to fit a BYTE.
fn is_byte(site: &Site<'_>, number: ExpressionNumber) -> bool
    ensures { result ≡ is_byte site.now number }
{
    match site.number(number) {
        Some(value) => value < 256,
        None => is_byte_type(site.scalar(number)),
    }
}

// Adds the step to the variable. The loop ends on overflow.
#[tactic(auto, unfolding(crate::specs::internal::Iterations::step_steps))]
fn plan_step(
    site: &Site<'_>,
    plan: &mut Plan,
    counter: &Counter,
    step: Option<ExpressionNumber>,
    labels: &LoopLabels,
) -> Result<(), AllocError>
    ensures { OnOk result (PlanAdds plan.old plan.new (step_steps site.now counter.now step labels.now)) }
{
    match step {
        Some(step) if !counts_by_one(site, Some(step)) => match counter.scalar {
            ScalarType::Byte => {
                if is_byte(site, step) {
                    plan_add_byte(plan, counter, step, labels.end)
                } else {
                    plan_add_word_to_byte(plan, counter, step, labels.end)
                }
            }
            ScalarType::Address => plan_add_word(site, plan, counter, step, labels.end),
        },
        _ => plan_count(plan, counter, labels),
    }
}

// The place of the test. If it `is_entered`, the code before the loop jumps to it.
#[tactic(auto, unfolding(crate::specs::internal::Iterations::test_label_steps))]
fn plan_test_label(
    plan: &mut Plan,
    counter: &Counter,
    step_is_one: bool,
    is_entered: bool,
    test: LabelNumber,
) -> Result<(), AllocError>
    ensures { OnOk result (PlanAdds plan.old plan.new
        (test_label_steps counter.now step_is_one is_entered test)) }
{
    if step_is_one && !is_byte_type(counter.scalar) {
        return plan.mark(test);
    }
    if is_entered {
        return plan.push(Planned::Meet(test));
    }
    Ok(())
}

// The jump to the test, if asked for.
fn plan_asked_jump(plan: &mut Plan, is_tested: bool, test: LabelNumber) -> Result<(), AllocError>
    ensures { OnOk result (PlanAdds plan.old plan.new (asked_jump is_tested test)) }
{
    if !is_tested {
        return Ok(());
    }
    plan.push(Planned::Jumped {
        is_the_only_one: true,
    })?;
    plan.jump(WordForm::Jump, test)
}

// The general form of a loop, up to the end of a turn.
#[tactic(auto, unfolding(crate::specs::internal::Iterations::general_begin_steps))]
fn plan_general_begin(
    plan: &mut Plan,
    counter: &Counter,
    test: Test,
    is_tested: bool,
    list: Range,
    labels: &LoopLabels,
) -> Result<(), AllocError>
    ensures { OnOk result (PlanAdds plan.old plan.new
        (general_begin_steps counter.now test is_tested list labels.now)) }
{
    plan_asked_jump(plan, is_tested, labels.test)?;
    plan.push(Planned::Again {
        label: labels.turn,
        facts: facts_of_test(counter, test),
        is_entered: !is_tested,
    })?;
    plan.push(Planned::List(list))
}

// The general form of a loop, from the end of a turn on: the step, and the test.
#[tactic(auto, unfolding(crate::specs::internal::Iterations::general_end_steps))]
fn plan_general_end(
    site: &Site<'_>,
    plan: &mut Plan,
    counter: &Counter,
    head: &Iteration,
    test: Test,
    is_tested: bool,
    labels: &LoopLabels,
) -> Result<(), AllocError>
    ensures { OnOk result (PlanAdds plan.old plan.new
        (general_end_steps site.now counter.now head.now test is_tested labels.now)) }
{
    plan_step(site, plan, counter, head.step, labels)?;
    let step_is_one = counts_by_one(site, head.step);
    plan_test_label(plan, counter, step_is_one, is_tested, labels.test)?;
    plan_test(plan, counter, test, labels.turn)?;
    plan.mark(labels.end)?;
    plan.push(Planned::Reaches(true))
}

// The general form of a loop: the test is at the end, after the step.
#[tactic(auto, unfolding(crate::specs::internal::Iterations::general_steps))]
fn plan_general(
    site: &Site<'_>,
    plan: &mut Plan,
    counter: &Counter,
    head: &Iteration,
    is_tested: bool,
    list: Range,
) -> Result<(), AllocError>
    ensures { OnOk result (PlanAddsWithLabels plan.old plan.new 3
        (general_steps site.now counter.now head.now is_tested list)) }
{
    let labels = LoopLabels::new(plan);
    let test = test_of(site, counter, head.last);
    plan_general_begin(plan, counter, test, is_tested, list, &labels)?;
    plan_general_end(site, plan, counter, head, test, is_tested, &labels)
}

// The turns of an iterative DO, unless it is known that it has no turn.
fn plan_turns(
    site: &Site<'_>,
    plan: &mut Plan,
    counter: &Counter,
    head: &Iteration,
    is_tested: bool,
    list: Range,
) -> Result<(), AllocError>
    ensures { OnOk result (PlanAddsWithLabels plan.old plan.new (turns_labels site.now counter.now head.now)
        (turns_steps site.now counter.now head.now is_tested list)) }
{
    let is_in_place = is_byte_type(counter.scalar) || counter.place().is_some();
    match site.number(head.last) {
        Some(last) if is_in_place && counts_by_one(site, head.step) => {
            plan_to_known(plan, counter, last, is_tested, list)
        }
        _ => plan_general(site, plan, counter, head, is_tested, list),
    }
}

/// The steps of an iterative DO. The variable gets its first value even without a turn.
pub(crate) fn plan_iteration(
    body: &Body<'_>,
    site: &Site<'_>,
    plan: &mut Plan,
    head: &Iteration,
    list: Range,
) -> Result<(), AllocError>
    ensures { OnOk result (PlanAddsWithLabels plan.old plan.new (iteration_labels site.now head.now)
        (iteration_steps body.now site.now head.now list)) }
{
    let reference = whole(head.variable);
    let counter = Counter {
        reference,
        scalar: head.scalar,
        location: site.location_of(&reference),
    };
    plan_first(body, site, plan, &counter, head.first)?;
    match has_a_turn(site, &counter, head) {
        Some(false) => Ok(()),
        Some(true) => plan_turns(site, plan, &counter, head, false, list),
        None => plan_turns(site, plan, &counter, head, true, list),
    }
}
