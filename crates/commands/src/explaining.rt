//! Orders to explain a number, carried out.

ghost use Rattle.std.specs.Prelude.{◌≡◌};
ghost use Rattle.host.specs.Refusals.{TellsOther};
ghost use Rattle.command_line.specs.Command.{wants_explain};
ghost use Rattle.command_line.specs.internal.Orders.{explain_in};
ghost use Rattle.commands.specs.Explaining.{PrintsPage, RefusesPage};
ghost use Rattle.commands.specs.Orders.{TellsText};

use crate::refusals::refuse_value;
use crate::reports::print_text;
use command_line::ExplainOrder;
use host::{Ending, Failure, refuse_memory};
use std::alloc::Global;
use std::io::Write;

/// Prints what is said of the number of an order.
#[tactic(auto, using(crate::proofs::TextsTold::done_or_refused, crate::proofs::NeedTold::is_done, crate::proofs::Explained::tells_number))]
pub(crate) fn explain_number<O: Write, E: Write>(
    alloc: Global,
    order: &ExplainOrder,
    out: &mut O,
    err: &mut E,
) -> Ending
    ensures printed { result ≡ Ending.Done → PrintsPage (explain_in order.now)
        (O.contents out.old) (O.contents out.new) }
    ensures done { (result ≡ Ending.Refused → ⊥) → (result ≡ Ending.WrongLine → ⊥) →
        result ≡ Ending.Done }
    ensures refused_text { result ≡ Ending.WrongLine → TellsText (wants_explain (explain_in order.now))
        (E.contents err.old) (E.contents err.new) }
    ensures silent { result ≡ Ending.WrongLine → O.contents out.new ≡ O.contents out.old }
    ensures refused { result ≡ Ending.Refused → RefusesPage (explain_in order.now)
        (E.contents err.old) (E.contents err.new) (O.contents out.old) (O.contents out.new) }
    ensures told { result ≡ Ending.Refused → TellsOther (E.contents err.old) (E.contents err.new) }
    ensures quiet { (result ≡ Ending.Refused → ⊥) → (result ≡ Ending.WrongLine → ⊥) →
        E.contents err.new ≡ E.contents err.old }
{
    match order.page(alloc) {
        Ok(page) => print_text(page, out, err),
        Err(Failure::Fault(fault)) => refuse_value(&fault, err),
        Err(Failure::Memory) => refuse_memory(err),
    }
}
