//! What commands print, and how they end.

ghost use Rattle.std.specs.Prelude.{◌≡◌, ◌⊎◌, ◌++◌, ◌∷◌, IfOk, Ok, OnErr, OnOk, codes, map};
ghost use Rattle.std.specs.Io.KnownBytes.{Appends};
ghost use Rattle.host.specs.Refusals.{TellsOther};
ghost use Rattle.host.specs.Writing.{AppendsBeginning};
ghost use Rattle.command_line.specs.Settings.{values_in};
ghost use Rattle.commands.specs.OutputFiles.{outputs_of};
ghost use Rattle.commands.specs.Refusing.{TellsUnwritten};
ghost use Rattle.commands.specs.Standing.{with_place};
ghost use Rattle.commands.specs.Steps.{last_words};
ghost use Rattle.commands.specs.internal.Outcomes.{EndsRun, told_of};

use crate::port_inputs::quiet_of;
use crate::port_outputs::put_outputs;
use command_line::Settings;
use host::{Ending, Failure, WriteFault, refuse_memory, refuse_output, write_bytes};
use ports::Event;
use printing::report;
use std::alloc::{AllocError, Global};
use std::io::Write;

/// A run that has ended: its last word, how the command ends, how many steps it took, and the text of the place where it
/// stands.
#[derive(Drop)]
pub(crate) struct Outcome {
    pub(crate) word: &'static str,
    pub(crate) ending: Ending,
    pub(crate) steps: u64,
    pub(crate) text: String,
}

// The words that a run ends with: before the last one the number of its steps, where that is wanted.
fn ending_words(alloc: Global, count: bool, steps: u64, word: &str) -> Result<String, AllocError>
    ensures { IfOk result (λ words. words.bytes.items ≡ last_words count steps word.now) }
{
    if count {
        format!(in alloc; "STEPS {steps}\n{word}")
    } else {
        format!(in alloc; "{word}")
    }
}

// A word, and in a line after it the text of a place.
#[tactic(auto, using(std::proofs::lemmas::List::append_assoc))]
fn placed_word(alloc: Global, word: &str, text: &str) -> Result<String, AllocError>
    ensures { IfOk result (λ words. words.bytes.items ≡ word.now ++ 10 ∷ codes "AT " ++ text.now) }
{
    format!(in alloc; "{word}\nAT {text}")
}

// The word that a run ends with, and the text of its place, where that is wanted.
fn word_with_place(
    alloc: Global,
    wanted: bool,
    word: &str,
    text: &str,
) -> Result<String, AllocError>
    ensures { IfOk result (λ words. words.bytes.items ≡ with_place wanted word.now text.now) }
{
    if wanted {
        placed_word(alloc, word, text)
    } else {
        format!(in alloc; "{word}")
    }
}

/// Prints the events of a run with the words that it ends with, and gathers the bytes for the files of ports. The answer is
/// how the command ends. After a failure a beginning of that was printed, which may be nothing.
#[tactic(auto, using(crate::proofs::PrintedReports::printed, crate::proofs::PrintedReports::report_begun, crate::proofs::PrintedReports::nothing))]
pub(crate) fn print_report<O: Write>(
    alloc: Global,
    values: &Settings,
    events: &[Event],
    outcome: &Outcome,
    outputs: &mut Vec<Vec<u8>>,
    out: &mut O,
) -> Result<Ending, Failure<WriteFault>>
    ensures ending { IfOk result (λ ending. ending ≡ outcome.now.ending) }
    ensures gathered { OnOk result (map (λ output. output.items) outputs.new.items
        ≡ outputs_of (values_in values.now) events.now) }
    ensures ok { OnOk result (Appends (O.contents out.old) (O.contents out.new)
        (told_of (values_in values.now) events.now outcome.now)) }
    ensures err { OnErr result (AppendsBeginning (O.contents out.old) (O.contents out.new)
        (told_of (values_in values.now) events.now outcome.now)) }
{
    let Ok(quiet) = quiet_of(alloc, values) else {
        return Err(Failure::Memory);
    };
    let Ok(word) = word_with_place(
        alloc,
        values.watch.place,
        outcome.word,
        outcome.text.as_str(),
    ) else {
        return Err(Failure::Memory);
    };
    let Ok(words) = ending_words(alloc, values.watch.count, outcome.steps, word.as_str()) else {
        return Err(Failure::Memory);
    };
    let Ok(()) = put_outputs(alloc, values, events, outputs) else {
        return Err(Failure::Memory);
    };
    report(events, quiet.as_slice(), words.as_str(), out)?;
    Ok(outcome.ending)
}

/// Ends a command whose run was printed, or reports why it was not printed, or not whole.
#[tactic(auto, using(crate::proofs::Untold::memory_unwritten, crate::proofs::Untold::output_unwritten))]
pub(crate) fn end_run<E: Write>(
    printing: Result<Ending, Failure<WriteFault>>,
    err: &mut E,
) -> Ending
    requires { IfOk printing EndsRun }
    ensures printed { (result ≡ Ending.Refused → ⊥) → printing ≡ Ok result }
    ensures stopped { result ≡ Ending.Refused → IfOk printing (λ ending. ⊥) }
    ensures not_wrong { result ≡ Ending.WrongLine → ⊥ }
    ensures told { result ≡ Ending.Refused → TellsOther (E.contents err.old) (E.contents err.new) }
    ensures unwritten { result ≡ Ending.Refused → TellsUnwritten (E.contents err.old) (E.contents err.new) }
    ensures quiet { (result ≡ Ending.Refused → ⊥) → E.contents err.new ≡ E.contents err.old }
{
    match printing {
        Ok(ending) => ending,
        Err(Failure::Fault(_)) => refuse_output(err),
        Err(Failure::Memory) => refuse_memory(err),
    }
}

/// Prints a text. After a failure a beginning of it was printed, and that is told.
#[tactic(auto, using(crate::proofs::Untold::memory_unwritten, crate::proofs::Untold::output_unwritten))]
pub(crate) fn print_text<O: Write, E: Write>(text: &[u8], out: &mut O, err: &mut E) -> Ending
    ensures printed { result ≡ Ending.Done →
        Appends (O.contents out.old) (O.contents out.new) text.now }
    ensures ending { (result ≡ Ending.Done) ⊎ (result ≡ Ending.Refused) }
    ensures stopped { result ≡ Ending.Refused →
        AppendsBeginning (O.contents out.old) (O.contents out.new) text.now }
    ensures unwritten { result ≡ Ending.Refused →
        TellsUnwritten (E.contents err.old) (E.contents err.new) }
    ensures told { result ≡ Ending.Refused → TellsOther (E.contents err.old) (E.contents err.new) }
    ensures quiet { (result ≡ Ending.Refused → ⊥) → E.contents err.new ≡ E.contents err.old }
{
    match write_bytes(out, text) {
        Ok(()) => Ending::Done,
        Err(Failure::Fault(_)) => refuse_output(err),
        Err(Failure::Memory) => refuse_memory(err),
    }
}
