//! The steps of each task.

ghost use Rattle.std.specs.Prelude.{OnOk};
ghost use Rattle.steps8080.specs.internal.Step.{AddsWithLabels};
ghost use Rattle.exprgen8080.specs.internal.Forms.{task_labels, task_steps};

use crate::bytes::plan_byte;
use crate::calls::plan_call;
use crate::effects::plan_effects;
use crate::words::plan_word;
use operands8080::{plan_address, plan_branch, plan_store};
use std::alloc::AllocError;
use steps8080::{Part, Site, Steps, Task};

/// The steps of a task. Only the first step uses the facts of the site.
#[tactic(auto, unfolding(crate::specs::internal::Forms::task_steps, crate::specs::internal::Forms::task_labels, crate::specs::internal::Forms::steps_of, crate::specs::internal::Forms::labels_of), using(crate::proofs::PlansWithoutLabels::none_taken))]
pub fn plan_task(site: &Site<'_>, part: Part, steps: &mut Steps) -> Result<(), AllocError>
    ensures { OnOk result (AddsWithLabels steps.old steps.new
        (task_labels site.now part) (task_steps site.now part)) }
{
    let pushed = part.pushed;
    match part.task {
        Task::Byte(number) => plan_byte(site, number, pushed, steps),
        Task::Word(number) => plan_word(site, number, pushed, steps),
        Task::Effects(number) => plan_effects(site, number, pushed, steps),
        Task::Address(reference) => plan_address(site, &reference, pushed, steps),
        Task::Branch {
            condition,
            label,
            sense,
        } => plan_branch(site, condition, label, sense, pushed, steps),
        Task::Store { target, is_wanted } => plan_store(site, target, is_wanted, pushed, steps),
        Task::Call {
            procedure,
            arguments,
        } => plan_call(site, procedure, arguments, pushed, steps),
    }
}
