//! Entries, arguments and returns of procedures.

ghost use Rattle.std.specs.Prelude.{◌≡◌, ◌∷◌, [], length, IfOk, OnOk};
ghost use Rattle.statements8080.specs.internal.Plans.{PlanAdds, PlanAddsWithLabels};
ghost use Rattle.codegen8080.specs.internal.Procedures.{argument_step, below_return_steps, drop_steps, end_steps, entry_labels, entry_steps, exchanged_steps, frame_entry_steps, kept_steps, known_at, known_from, last_argument_facts, last_argument_steps, odd_byte_steps, pair_of, place_in_memory, popped_argument_steps, popped_at, popped_from, pops_steps, push_loop_steps, pushed_arguments_steps, pushes_labels, pushes_steps, return_of_frame_steps, return_over_any_steps, return_over_steps, return_steps, static_entry_steps, stores_steps, with_argument, zero_result_steps, zeros_labels, zeros_steps};

use asm8080::WordForm;
use exprgen8080::{Facts, LabelNumber};
use isa8080::{Condition, Instr, Operand, Operation, Pair, Register, StackPair};
use statements8080::{Body, Plan};
use std::alloc::AllocError;
use treecode::{Location, Parameter, Place, ProcedureKind};
use trees::ScalarType;

// The greatest number of bytes that POP drops from the stack with less code than an addition to the stack pointer.
const POPPED_BYTES: u16 = 12;

// The greatest number of words that are pushed without a loop.
const PUSHED_WORDS: u16 = 12;

// Drops `words` words from the stack. BC is overwritten.
#[tactic(auto, unfolding(crate::specs::internal::Procedures::pops_steps))]
fn plan_pops(plan: &mut Plan, words: u16) -> Result<(), AllocError>
    ensures { OnOk result (PlanAdds plan.old plan.new (pops_steps words)) }
{
    plan.repeated(Instr::Pop(StackPair::StackBc), words)
}

// Instructions that keep a result in place: HL is in DE meanwhile.
#[tactic(auto, unfolding(crate::specs::internal::Procedures::kept_steps))]
fn plan_kept(
    plan: &mut Plan,
    result_type: Option<ScalarType>,
    instructions: &[Instr],
) -> Result<(), AllocError>
    ensures { OnOk result (PlanAdds plan.old plan.new (kept_steps result_type instructions.now)) }
{
    match result_type {
        Some(ScalarType::Address) => {
            plan.plain(Instr::Xchg)?;
            plan.all(instructions)?;
            plan.plain(Instr::Xchg)
        }
        Some(ScalarType::Byte) | None => plan.all(instructions),
    }
}

// Drops `bytes` bytes from the stack. The result stays in its register.
#[tactic(auto, unfolding(crate::specs::internal::Procedures::drop_steps))]
fn plan_drop(plan: &mut Plan, bytes: u16, result_type: Option<ScalarType>) -> Result<(), AllocError>
    ensures { OnOk result (PlanAdds plan.old plan.new (drop_steps bytes result_type)) }
{
    if bytes <= POPPED_BYTES {
        plan_pops(plan, bytes / 2)?;
        return plan.repeated(Instr::Inx(Pair::Sp), bytes % 2);
    }
    plan_kept(
        plan,
        result_type,
        &[
            Instr::Lxi(Pair::Hl, bytes),
            Instr::Dad(Pair::Sp),
            Instr::Sphl,
        ],
    )
}

// Returns, with this many words of arguments (at least one) above the return address. The result stays in its register.
#[tactic(auto, unfolding(crate::specs::internal::Procedures::return_over_steps))]
fn plan_return_over(
    plan: &mut Plan,
    words: u16,
    result_type: Option<ScalarType>,
) -> Result<(), AllocError>
    ensures { OnOk result (PlanAdds plan.old plan.new (return_over_steps words result_type)) }
{
    match result_type {
        Some(ScalarType::Address) => {
            plan.plain(Instr::Pop(StackPair::StackDe))?;
            plan_pops(plan, words)?;
            plan.plain(Instr::Push(StackPair::StackDe))?;
            plan.plain(Instr::Ret)
        }
        Some(ScalarType::Byte) | None => {
            plan.plain(Instr::Pop(StackPair::StackHl))?;
            plan_pops(plan, words)?;
            plan.plain(Instr::Pchl)
        }
    }
}

// The same for any number of words, including 0.
#[tactic(auto, unfolding(crate::specs::internal::Procedures::return_over_any_steps))]
fn plan_return_over_any(
    plan: &mut Plan,
    words: u16,
    result_type: Option<ScalarType>,
) -> Result<(), AllocError>
    ensures { OnOk result (PlanAdds plan.old plan.new (return_over_any_steps words result_type)) }
{
    if words == 0 {
        return plan.plain(Instr::Ret);
    }
    plan_return_over(plan, words, result_type)
}

// Drops the frame of a REENTRANT procedure with the arguments, and returns.
#[tactic(auto, unfolding(crate::specs::internal::Procedures::return_of_frame_steps))]
fn plan_return_of_frame(body: &Body<'_>, plan: &mut Plan) -> Result<(), AllocError>
    ensures { OnOk result (PlanAdds plan.old plan.new (return_of_frame_steps body.now)) }
{
    let scalar = body.procedure.result;
    let count = body.frame.parameter_count;
    let last = if count == 0 { 0 } else { 2 };
    plan_drop(plan, body.frame.variable_bytes.saturating_add(last), scalar)?;
    plan_return_over_any(plan, count.saturating_sub(1), scalar)
}

/// The steps of a return, with the result in its register.
#[tactic(auto, unfolding(crate::specs::internal::Procedures::return_steps_by))]
pub(crate) fn plan_return(body: &Body<'_>, plan: &mut Plan) -> Result<(), AllocError>
    ensures { OnOk result (PlanAdds plan.old plan.new (return_steps body.now)) }
{
    match body.procedure.kind {
        ProcedureKind::Reentrant => plan_return_of_frame(body, plan),
        ProcedureKind::Static | ProcedureKind::External(_) => plan.plain(Instr::Ret),
    }
}

// The place of a location in memory.
fn place_of(location: Location) -> Place
    ensures { result ≡ place_in_memory location }
{
    match location {
        Location::Static(place) => place,
        Location::Frame { .. } => Place::Number(0),
    }
}

// The facts with the argument of a parameter in A or HL.
fn with_argument(facts: Facts, parameter: Parameter) -> Facts
    ensures { result ≡ with_argument facts parameter }
{
    match parameter.scalar {
        ScalarType::Byte => Facts {
            byte_in_a: Some(parameter.location),
            ..facts
        },
        ScalarType::Address => Facts {
            word_in_hl: Some(parameter.location),
            ..facts
        },
    }
}

// The register pair that a value of a type is pushed from.
fn pair_of(scalar: ScalarType) -> StackPair
    ensures { result ≡ pair_of scalar }
{
    match scalar {
        ScalarType::Byte => StackPair::Psw,
        ScalarType::Address => StackPair::StackHl,
    }
}

// Stores an argument in A or HL in its parameter.
fn plan_argument(plan: &mut Plan, parameter: Parameter) -> Result<(), AllocError>
    ensures { OnOk result (PlanAdds plan.old plan.new (argument_step parameter ∷ [])) }
{
    let place = place_of(parameter.location);
    match parameter.scalar {
        ScalarType::Byte => plan.word(WordForm::StoreA, place),
        ScalarType::Address => plan.word(WordForm::StoreHl, place),
    }
}

// Pops an argument into its parameter.
fn plan_popped_argument(plan: &mut Plan, parameter: Parameter) -> Result<(), AllocError>
    ensures { OnOk result (PlanAdds plan.old plan.new (popped_argument_steps parameter)) }
{
    plan.plain(Instr::Pop(pair_of(parameter.scalar)))?;
    plan_argument(plan, parameter)
}

// Pops the argument of the parameter at an index, if there is one.
#[tactic(auto, unfolding(crate::specs::internal::Procedures::popped_at))]
fn plan_popped_at(plan: &mut Plan, parameters: &[Parameter], index: usize) -> Result<(), AllocError>
    ensures { OnOk result (PlanAdds plan.old plan.new (popped_at parameters.now index)) }
{
    match parameters.get(index).copied() {
        Some(parameter) => plan_popped_argument(plan, parameter),
        None => Ok(()),
    }
}

// Pops arguments into their parameters, the last one first.
#[tactic(auto, using(statements8080::proofs::Adding::adding_begins, crate::proofs::Planning::popped_next, crate::proofs::Planning::popped_done))]
fn plan_popped_arguments(plan: &mut Plan, parameters: &[Parameter]) -> Result<(), AllocError>
    ensures { OnOk result (PlanAdds plan.old plan.new (popped_from parameters.now (length parameters.now))) }
{
    let mut left = parameters.len();
    while left > 0 {
        left -= 1;
        plan_popped_at(plan, parameters, left)?;
    }
    Ok(())
}

// The facts after the argument of the parameter at an index is stored.
#[tactic(auto, unfolding(crate::specs::internal::Procedures::known_at))]
fn known_at(facts: Facts, parameters: &[Parameter], index: usize) -> Facts
    ensures { result ≡ known_at facts parameters.now index }
{
    match parameters.get(index).copied() {
        Some(parameter) => with_argument(facts, parameter),
        None => facts,
    }
}

// The facts after all arguments are stored.
#[tactic(auto, using(crate::proofs::Planning::known_next, crate::proofs::Planning::known_done))]
fn known_from(facts: Facts, parameters: &[Parameter]) -> Facts
    ensures { result ≡ known_from facts parameters.now (length parameters.now) }
{
    let mut known = facts;
    let mut left = parameters.len();
    while left > 0 {
        left -= 1;
        known = known_at(known, parameters, left);
    }
    known
}

// Stores the arguments below the return address in the first parameters, the last one first.
#[tactic(auto, unfolding(crate::specs::internal::Procedures::pushed_arguments_steps))]
fn plan_pushed_arguments(plan: &mut Plan, parameters: &[Parameter]) -> Result<(), AllocError>
    ensures { OnOk result (PlanAdds plan.old plan.new (pushed_arguments_steps parameters.now)) }
{
    plan.plain(Instr::Pop(StackPair::StackDe))?;
    plan_popped_arguments(plan, parameters)?;
    plan.plain(Instr::Push(StackPair::StackDe))
}

// Stores the argument below the return address in a parameter that is an ADDRESS.
#[tactic(auto, unfolding(crate::specs::internal::Procedures::exchanged_steps))]
fn plan_exchanged_argument(plan: &mut Plan, parameter: Parameter) -> Result<(), AllocError>
    ensures { OnOk result (PlanAdds plan.old plan.new (exchanged_steps parameter)) }
{
    plan.plain(Instr::Pop(StackPair::StackHl))?;
    plan.plain(Instr::Xthl)?;
    plan_argument(plan, parameter)
}

// Stores the arguments below the return address in the first parameters, if there are any.
#[tactic(auto, unfolding(crate::specs::internal::Procedures::below_return_steps))]
fn plan_below_return(plan: &mut Plan, parameters: &[Parameter]) -> Result<(), AllocError>
    ensures { OnOk result (PlanAdds plan.old plan.new (below_return_steps parameters.now)) }
{
    match parameters {
        [] => Ok(()),
        [parameter] => match parameter.scalar {
            ScalarType::Address => plan_exchanged_argument(plan, *parameter),
            ScalarType::Byte => plan_pushed_arguments(plan, parameters),
        },
        [_, _, ..] => plan_pushed_arguments(plan, parameters),
    }
}

// Stores the arguments in the parameters of a procedure that is not REENTRANT: the last one from A or HL, the others
// from the stack. The last one for a BYTE stays in A, and the last one for an ADDRESS in HL.
#[tactic(auto, unfolding(crate::specs::internal::Procedures::stores_steps))]
fn plan_stores(plan: &mut Plan, last: Parameter, others: &[Parameter]) -> Result<(), AllocError>
    ensures { OnOk result (PlanAdds plan.old plan.new (stores_steps last others.now)) }
{
    plan_argument(plan, last)?;
    plan_below_return(plan, others)?;
    plan.holds(known_from(with_argument(Facts::none(), last), others))
}

// The entry of a procedure that is not REENTRANT.
#[tactic(auto, unfolding(crate::specs::internal::Procedures::static_entry_steps))]
fn plan_static_entry(plan: &mut Plan, parameters: &[Parameter]) -> Result<(), AllocError>
    ensures { OnOk result (PlanAdds plan.old plan.new (static_entry_steps parameters.now)) }
{
    let front = parameters.len().saturating_sub(1);
    match parameters.get(front).copied() {
        Some(last) => plan_stores(plan, last, &parameters[..front]),
        None => plan.holds(Facts::none()),
    }
}

// Pushes DE four times per turn, in a loop of `turns` turns.
#[tactic(auto, unfolding(crate::specs::internal::Procedures::push_loop_steps))]
fn plan_push_loop(plan: &mut Plan, turns: u8, again: LabelNumber) -> Result<(), AllocError>
    ensures { OnOk result (PlanAdds plan.old plan.new (push_loop_steps turns again)) }
{
    plan.plain(Instr::Mvi(Operand::Of(Register::B), turns))?;
    plan.mark(again)?;
    plan.repeated(Instr::Push(StackPair::StackDe), 4)?;
    plan.plain(Instr::Dcr(Operand::Of(Register::B)))?;
    plan.jump(WordForm::JumpWhere(Condition::NotZero), again)
}

// Pushes DE `words` times. A frame has at most 1024 bytes of variables.
#[tactic(auto, unfolding(crate::specs::internal::Procedures::pushes_steps, crate::specs::internal::Procedures::pushes_labels))]
fn plan_pushes(plan: &mut Plan, words: u16) -> Result<(), AllocError>
    ensures { OnOk result (PlanAddsWithLabels plan.old plan.new (pushes_labels words) (pushes_steps words)) }
{
    let push = Instr::Push(StackPair::StackDe);
    if words <= PUSHED_WORDS {
        return plan.repeated(push, words);
    }
    let again = plan.label();
    plan_push_loop(plan, (words / 4 % 256) as u8, again)?;
    plan.repeated(push, words % 4)
}

// Pushes a last odd byte.
#[tactic(auto, unfolding(crate::specs::internal::Procedures::odd_byte_steps))]
fn plan_odd_byte(plan: &mut Plan, bytes: u16) -> Result<(), AllocError>
    ensures { OnOk result (PlanAdds plan.old plan.new (odd_byte_steps bytes)) }
{
    if bytes % 2 == 1 {
        plan.plain(Instr::Push(StackPair::StackDe))?;
        plan.plain(Instr::Inx(Pair::Sp))?;
    }
    Ok(())
}

// Pushes `bytes` bytes of zeros. A and HL are kept.
#[tactic(auto, unfolding(crate::specs::internal::Procedures::zeros_steps, crate::specs::internal::Procedures::zeros_labels))]
fn plan_zeros(plan: &mut Plan, bytes: u16) -> Result<(), AllocError>
    ensures { OnOk result (PlanAddsWithLabels plan.old plan.new (zeros_labels bytes) (zeros_steps bytes)) }
{
    if bytes == 0 {
        return Ok(());
    }
    plan.plain(Instr::Lxi(Pair::De, 0))?;
    plan_pushes(plan, bytes / 2)?;
    plan_odd_byte(plan, bytes)
}

// Pushes the last argument of a REENTRANT procedure, which stays in A or HL.
#[tactic(auto, unfolding(crate::specs::internal::Procedures::last_argument_steps, crate::specs::internal::Procedures::last_argument_facts))]
fn plan_last_argument(plan: &mut Plan, parameters: &[Parameter]) -> Result<Facts, AllocError>
    ensures steps { OnOk result (PlanAdds plan.old plan.new (last_argument_steps parameters.now)) }
    ensures facts { IfOk result (λ facts. facts ≡ last_argument_facts parameters.now) }
{
    match parameters.get(parameters.len().saturating_sub(1)).copied() {
        Some(last) => {
            plan.plain(Instr::Push(pair_of(last.scalar)))?;
            Ok(with_argument(Facts::none(), last))
        }
        None => Ok(Facts::none()),
    }
}

// Makes the frame of a REENTRANT procedure: its last argument, and zeros for its variables.
#[tactic(auto, unfolding(crate::specs::internal::Procedures::frame_entry_steps))]
fn plan_frame_entry(plan: &mut Plan, parameters: &[Parameter], bytes: u16) -> Result<(), AllocError>
    ensures { OnOk result (PlanAddsWithLabels plan.old plan.new
        (zeros_labels bytes) (frame_entry_steps parameters.now bytes)) }
{
    let facts = plan_last_argument(plan, parameters)?;
    plan_zeros(plan, bytes)?;
    plan.holds(facts)
}

/// The entry of a procedure.
#[tactic(auto, unfolding(crate::specs::internal::Procedures::entry_steps_by, crate::specs::internal::Procedures::entry_labels_by))]
pub(crate) fn plan_entry(body: &Body<'_>, plan: &mut Plan) -> Result<(), AllocError>
    ensures { OnOk result
        (PlanAddsWithLabels plan.old plan.new (entry_labels body.now) (entry_steps body.now)) }
{
    let parameters = body.procedure.parameters.as_slice();
    match body.procedure.kind {
        ProcedureKind::Reentrant => plan_frame_entry(plan, parameters, body.frame.variable_bytes),
        ProcedureKind::Static | ProcedureKind::External(_) => {
            plan_static_entry(plan, parameters)
        }
    }
}

// A result of 0.
#[tactic(auto, unfolding(crate::specs::internal::Procedures::zero_result_steps))]
fn plan_zero_result(plan: &mut Plan, result_type: Option<ScalarType>) -> Result<(), AllocError>
    ensures { OnOk result (PlanAdds plan.old plan.new (zero_result_steps result_type)) }
{
    match result_type {
        Some(ScalarType::Byte) => plan.plain(Instr::Accumulate(
            Operation::ExclusiveOr,
            Operand::Of(Register::A),
        )),
        Some(ScalarType::Address) => plan.plain(Instr::Lxi(Pair::Hl, 0)),
        None => Ok(()),
    }
}

/// The end of a procedure, if it can be reached: the result is 0.
#[tactic(auto, unfolding(crate::specs::internal::Procedures::end_steps))]
pub(crate) fn plan_end(body: &Body<'_>, plan: &mut Plan) -> Result<(), AllocError>
    ensures { OnOk result (PlanAdds plan.old plan.new (end_steps body.now)) }
{
    plan_zero_result(plan, body.procedure.result)?;
    plan_return(body, plan)
}
