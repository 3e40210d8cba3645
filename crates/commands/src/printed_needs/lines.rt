//! How much of the stack the program of sources needs, as a line.

ghost use Rattle.std.specs.Prelude.{◌≡◌, ◌⊎◌, map};
ghost use Rattle.host.specs.Refusals.{TellsOther};
ghost use Rattle.sources.specs.Programs.{texts_of};
ghost use Rattle.commands.specs.Printing.{PrintsNeed, StopsNeed, TellsNoNeed};

use crate::needs::need_text;
use crate::printed_needs::refusals::refuse_need;
use host::{Ending, Failure, refuse_memory, refuse_output, write_bytes};
use sources::Source;
use std::alloc::Global;
use std::io::Write;

/// Prints the line that says how much of the stack the program of sources needs, with NONE if no number is enough. The
/// names are those of the files of the sources, for what is printed where they are refused: the first fault that a build finds
/// before it makes code. After a write that failed a beginning of the line was printed, and after any other refusal nothing.
#[tactic(auto, using(crate::proofs::NeedsPrinted::no_need, crate::proofs::NeedsPrinted::prints_need))]
pub fn print_need<O: Write, E: Write>(
    alloc: Global,
    names: &[&str],
    sources: &[Source],
    out: &mut O,
    err: &mut E,
) -> Ending
    ensures printed { result ≡ Ending.Done → PrintsNeed (texts_of sources.now)
        (O.contents out.old) (O.contents out.new) }
    ensures stopped { (result ≡ Ending.Done → ⊥) → StopsNeed (texts_of sources.now)
        (O.contents out.old) (O.contents out.new) }
    ensures ending { (result ≡ Ending.Done) ⊎ (result ≡ Ending.Refused) }
    ensures refused { result ≡ Ending.Refused →
        TellsNoNeed (map (λ name. name.now) names.now) (texts_of sources.now)
        (E.contents err.old) (E.contents err.new) }
    ensures told { result ≡ Ending.Refused → TellsOther (E.contents err.old) (E.contents err.new) }
    ensures quiet { (result ≡ Ending.Refused → ⊥) → E.contents err.new ≡ E.contents err.old }
{
    let line = match need_text(alloc, sources) {
        Ok(line) => line,
        Err(Failure::Fault(fault)) => return refuse_need(&fault, names, err),
        Err(Failure::Memory) => return refuse_memory(err),
    };
    match write_bytes(out, line.as_bytes()) {
        Ok(()) => Ending::Done,
        Err(Failure::Fault(_)) => refuse_output(err),
        Err(Failure::Memory) => refuse_memory(err),
    }
}
