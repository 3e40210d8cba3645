//! How much of the stack sources need.

ghost use Rattle.std.specs.Prelude.{◌≡◌, ◌⊎◌};
ghost use Rattle.host.specs.Refusals.{TellsRefusal};
ghost use Rattle.host.specs.Files.{KeepsFiles};
ghost use Rattle.command_line.specs.Command.{wants_need};
ghost use Rattle.command_line.specs.internal.Orders.{need_in};
ghost use Rattle.commands.specs.Refusing.{RefusesFor};
ghost use Rattle.commands.specs.Needing.{PrintsNeedOf, RefusesNeedOf};
ghost use Rattle.commands.specs.Orders.{PrintsNeedWanted, RefusesNeed, TellsText};

use crate::printed_needs::print_need;
use crate::programs::sources_of;
use crate::refusals::refuse_value;
use command_line::NeedOrder;
use host::{Ending, Failure, Files, read_files, refuse_file, refuse_memory};
use std::alloc::Global;
use std::io::Write;

/// Prints how much of the stack the program of the sources of an order needs, once the plan beside them is one.
#[tactic(auto, using(host::proofs::FilesRead::files_stay, crate::proofs::NeedTold::done_or_refused, crate::proofs::NeedTold::is_done, crate::proofs::NeedTold::prints_wanted, crate::proofs::NeedTold::refuses_need, crate::proofs::NeedTold::tells_plan))]
pub(crate) fn tell_need<F: Files, O: Write, E: Write>(
    alloc: Global,
    order: &NeedOrder,
    files: &mut F,
    out: &mut O,
    err: &mut E,
) -> Ending
    ensures unchanged { KeepsFiles (F.files files.old) (F.files files.new) }
    ensures printed { result ≡ Ending.Done → PrintsNeedWanted (need_in order.now) (F.files files.old)
        (O.contents out.old) (O.contents out.new) }
    ensures done { (result ≡ Ending.Refused → ⊥) → (result ≡ Ending.WrongLine → ⊥) →
        result ≡ Ending.Done }
    ensures refused_text { result ≡ Ending.WrongLine → TellsText (wants_need (need_in order.now))
        (E.contents err.old) (E.contents err.new) }
    ensures silent { result ≡ Ending.WrongLine → O.contents out.new ≡ O.contents out.old }
    ensures refused { result ≡ Ending.Refused → RefusesNeed (need_in order.now) (F.files files.old)
        (F.failures files.old) (F.failures files.new)
        (E.contents err.old) (E.contents err.new) (O.contents out.old) (O.contents out.new) }
    ensures told { result ≡ Ending.Refused → TellsRefusal (F.files files.old) (need_in order.now).files
        (F.failures files.old) (F.failures files.new) (E.contents err.old) (E.contents err.new) }
    ensures count { (result ≡ Ending.Refused → ⊥) → F.failures files.new ≡ F.failures files.old }
    ensures quiet { (result ≡ Ending.Refused → ⊥) → (result ≡ Ending.WrongLine → ⊥) →
        E.contents err.new ≡ E.contents err.old }
{
    match order.plan() {
        Ok(_) => tell_of_files(alloc, order, files, out, err),
        Err(fault) => refuse_value(&fault, err),
    }
}

// Reads the files of an order, and prints the need of the program of their sources.
fn tell_of_files<F: Files, O: Write, E: Write>(
    alloc: Global,
    order: &NeedOrder,
    files: &mut F,
    out: &mut O,
    err: &mut E,
) -> Ending
    ensures unchanged { KeepsFiles (F.files files.old) (F.files files.new) }
    ensures printed { result ≡ Ending.Done → PrintsNeedOf (F.files files.old) (need_in order.now).files
        (O.contents out.old) (O.contents out.new) }
    ensures ending { (result ≡ Ending.Done) ⊎ (result ≡ Ending.Refused) }
    ensures refused { result ≡ Ending.Refused → RefusesFor
        (RefusesNeedOf (F.files files.old) (need_in order.now).files
        (E.contents err.old) (E.contents err.new) (O.contents out.old) (O.contents out.new))
        (F.files files.old) (need_in order.now).files (F.failures files.old) (F.failures files.new)
        (E.contents err.old) (E.contents err.new) (O.contents out.old) (O.contents out.new) }
    ensures told { result ≡ Ending.Refused → TellsRefusal (F.files files.old) (need_in order.now).files
        (F.failures files.old) (F.failures files.new) (E.contents err.old) (E.contents err.new) }
    ensures count { (result ≡ Ending.Refused → ⊥) → F.failures files.new ≡ F.failures files.old }
    ensures quiet { (result ≡ Ending.Refused → ⊥) → E.contents err.new ≡ E.contents err.old }
{
    let names = order.files.as_slice();
    let texts = match read_files(alloc, names, files) {
        Ok(texts) => texts,
        Err(Failure::Fault((fault, name))) => return refuse_file(fault, name, err),
        Err(Failure::Memory) => return refuse_memory(err),
    };
    match sources_of(alloc, names, texts.as_slice()) {
        Ok(sources) => print_need(alloc, names, sources.as_slice(), out, err),
        Err(_) => refuse_memory(err),
    }
}
