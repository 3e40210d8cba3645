//! Orders on sources, carried out.

ghost use Rattle.std.specs.Prelude.{◌≡◌, ◌++◌, map};
ghost use Rattle.host.specs.internal.Endings.{status_of};
ghost use Rattle.host.specs.Refusals.{TellsOther, TellsRefusal};
ghost use Rattle.host.specs.Files.{KeepsFiles};
ghost use Rattle.command_line.specs.internal.Orders.{program_in};
ghost use Rattle.command_line.specs.Settings.{values_in};
ghost use Rattle.sources.specs.Programs.{texts_of};
ghost use Rattle.commands.specs.InputFiles.{input_names};
ghost use Rattle.commands.specs.Refusing.{RefusesFiles, RefusesFor, RefusesRead, RefusesTexts};
ghost use Rattle.commands.specs.Running.{PrintsFiles, PrintsRead, PrintsTexts};

use crate::port_inputs::read_input;
use crate::programs::loading::sources_of;
use crate::programs::refusals::refuse_sources;
use crate::programs::running::print_built;
use crate::reports::end_run;
use command_line::{ProgramOrder, Settings};
use host::{Ending, Failure, Files, read_files, refuse_file, refuse_memory};
use std::alloc::Global;
use std::io::Write;
use tool::{Source, build};

/// Reads the files of an order, and then those of its input, builds the program of the texts with these values, and runs or
/// interprets it. Where the order is refused, the line is told of the first file that can't be read, or that memory ran out,
/// or of the fault of the sources, with nothing printed; or a program was built, a beginning of what is printed of it was
/// printed, and the line is that of memory or of standard output. Where it is not refused, the outputs are the bytes for the
/// files of ports.
pub fn carry_out_sources<F: Files, O: Write, E: Write>(
    alloc: Global,
    order: &ProgramOrder,
    values: &mut Settings,
    files: &mut F,
    outputs: &mut Vec<Vec<u8>>,
    out: &mut O,
    err: &mut E,
) -> Ending
    ensures unchanged { KeepsFiles (F.files files.old) (F.files files.new) }
    ensures not_wrong { result ≡ Ending.WrongLine → ⊥ }
    ensures told { result ≡ Ending.Refused → TellsRefusal (F.files files.old)
        ((program_in order.now).files ++ input_names (values_in values.old))
        (F.failures files.old) (F.failures files.new) (E.contents err.old) (E.contents err.new) }
    ensures refused { result ≡ Ending.Refused → RefusesFor
        (RefusesFiles (program_in order.now) (values_in values.old) (F.files files.old)
        (E.contents err.old) (E.contents err.new) (O.contents out.old) (O.contents out.new))
        (F.files files.old) ((program_in order.now).files ++ input_names (values_in values.old))
        (F.failures files.old) (F.failures files.new)
        (E.contents err.old) (E.contents err.new) (O.contents out.old) (O.contents out.new) }
    ensures count { (result ≡ Ending.Refused → ⊥) → F.failures files.new ≡ F.failures files.old }
    ensures quiet { (result ≡ Ending.Refused → ⊥) → E.contents err.new ≡ E.contents err.old }
    ensures ran { (result ≡ Ending.Refused → ⊥) →
        PrintsFiles (program_in order.now) (values_in values.old) (F.files files.old) (status_of result)
        (map (λ output. output.items) outputs.new.items) (O.contents out.old) (O.contents out.new) }
{
    match read_files(alloc, order.files.as_slice(), files) {
        Ok(texts) => carry_out_texts(
            alloc,
            order,
            values,
            texts.as_slice(),
            files,
            outputs,
            out,
            err,
        ),
        Err(Failure::Fault((fault, name))) => refuse_file(fault, name, err),
        Err(Failure::Memory) => refuse_memory(err),
    }
}

// Reads the files of the input, and does with texts what was ordered.
fn carry_out_texts<F: Files, O: Write, E: Write>(
    alloc: Global,
    order: &ProgramOrder,
    values: &mut Settings,
    texts: &[Vec<u8>],
    files: &mut F,
    outputs: &mut Vec<Vec<u8>>,
    out: &mut O,
    err: &mut E,
) -> Ending
    ensures unchanged { KeepsFiles (F.files files.old) (F.files files.new) }
    ensures not_wrong { result ≡ Ending.WrongLine → ⊥ }
    ensures told { result ≡ Ending.Refused → TellsRefusal (F.files files.old)
        (input_names (values_in values.old))
        (F.failures files.old) (F.failures files.new) (E.contents err.old) (E.contents err.new) }
    ensures refused { result ≡ Ending.Refused → RefusesFor
        (RefusesRead (program_in order.now) (values_in values.old) (F.files files.old)
        (map (λ text. text.items) texts.now)
        (E.contents err.old) (E.contents err.new) (O.contents out.old) (O.contents out.new))
        (F.files files.old) (input_names (values_in values.old)) (F.failures files.old) (F.failures files.new)
        (E.contents err.old) (E.contents err.new) (O.contents out.old) (O.contents out.new) }
    ensures count { (result ≡ Ending.Refused → ⊥) → F.failures files.new ≡ F.failures files.old }
    ensures quiet { (result ≡ Ending.Refused → ⊥) → E.contents err.new ≡ E.contents err.old }
    ensures ran { (result ≡ Ending.Refused → ⊥) →
        PrintsRead (program_in order.now) (values_in values.old) (F.files files.old)
        (map (λ text. text.items) texts.now) (status_of result)
        (map (λ output. output.items) outputs.new.items) (O.contents out.old) (O.contents out.new) }
{
    match read_input(alloc, values, files) {
        Ok(()) => act_on(alloc, order, values, texts, outputs, out, err),
        Err(Failure::Fault((fault, name))) => refuse_file(fault, name, err),
        Err(Failure::Memory) => refuse_memory(err),
    }
}

// Does with texts what was ordered.
#[tactic(auto, using(crate::proofs::Untold::tells_memory))]
fn act_on<O: Write, E: Write>(
    alloc: Global,
    order: &ProgramOrder,
    values: &Settings,
    texts: &[Vec<u8>],
    outputs: &mut Vec<Vec<u8>>,
    out: &mut O,
    err: &mut E,
) -> Ending
    ensures not_wrong { result ≡ Ending.WrongLine → ⊥ }
    ensures told { result ≡ Ending.Refused → TellsOther (E.contents err.old) (E.contents err.new) }
    ensures refused { result ≡ Ending.Refused →
        RefusesTexts order.now.action order.now.map (values_in values.now)
        (program_in order.now).files (map (λ text. text.items) texts.now)
        (E.contents err.old) (E.contents err.new) (O.contents out.old) (O.contents out.new) }
    ensures quiet { (result ≡ Ending.Refused → ⊥) → E.contents err.new ≡ E.contents err.old }
    ensures ran { (result ≡ Ending.Refused → ⊥) → PrintsTexts order.now.action order.now.map
        (values_in values.now) (map (λ text. text.items) texts.now) (status_of result)
        (map (λ output. output.items) outputs.new.items) (O.contents out.old) (O.contents out.new) }
{
    match sources_of(alloc, order.files.as_slice(), texts) {
        Ok(sources) => act(alloc, order, values, sources.as_slice(), outputs, out, err),
        Err(_) => refuse_memory(err),
    }
}

// Builds the program of sources, and does with it what was ordered.
#[tactic(auto, using(crate::proofs::Untold::tells_memory))]
fn act<O: Write, E: Write>(
    alloc: Global,
    order: &ProgramOrder,
    values: &Settings,
    sources: &[Source],
    outputs: &mut Vec<Vec<u8>>,
    out: &mut O,
    err: &mut E,
) -> Ending
    ensures not_wrong { result ≡ Ending.WrongLine → ⊥ }
    ensures told { result ≡ Ending.Refused → TellsOther (E.contents err.old) (E.contents err.new) }
    ensures refused { result ≡ Ending.Refused →
        RefusesTexts order.now.action order.now.map (values_in values.now)
        (program_in order.now).files (texts_of sources.now)
        (E.contents err.old) (E.contents err.new) (O.contents out.old) (O.contents out.new) }
    ensures quiet { (result ≡ Ending.Refused → ⊥) → E.contents err.new ≡ E.contents err.old }
    ensures ran { (result ≡ Ending.Refused → ⊥) → PrintsTexts order.now.action order.now.map
        (values_in values.now) (texts_of sources.now) (status_of result)
        (map (λ output. output.items) outputs.new.items) (O.contents out.old) (O.contents out.new) }
{
    match build(alloc, sources, &values.plan) {
        Ok(built) => {
            let printing = print_built(alloc, order, values, &built, sources, outputs, out);
            end_run(printing, err)
        }
        Err(Failure::Fault(fault)) => refuse_sources(&fault, order.files.as_slice(), err),
        Err(Failure::Memory) => refuse_memory(err),
    }
}
