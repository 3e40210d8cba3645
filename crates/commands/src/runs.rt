//! Orders to run sources or objects, carried out.

ghost use Rattle.std.specs.Prelude.{◌≡◌, ◌⊎◌, ◌++◌, [], false, map, true};
ghost use Rattle.host.specs.internal.Endings.{status_of};
ghost use Rattle.host.specs.Files.{KeepsFiles};
ghost use Rattle.host.specs.Refusals.{TellsRefusal};
ghost use Rattle.command_line.specs.Settings.{HasNames, HasOutputs, IsSettingsOf, outputs_in, values_in};
ghost use Rattle.commands.specs.Converting.{TellsOutput, TellsRun};
ghost use Rattle.commands.specs.InputFiles.{input_names};
ghost use Rattle.commands.specs.OutputFiles.{ChangesOutputs, DeliversRun, KeepsAllBut, output_names};
ghost use Rattle.commands.specs.Orders.{QuietAsWanted, RefusesAsWanted, RunsAsWanted, TellsText, names_of};
ghost use Rattle.commands.specs.RefusedRuns.{RefusesRun};
ghost use Rattle.commands.specs.internal.RunOrders.{PrintsWith, RefusesWith, first_names, input_texts, output_texts, values_wanted, wanted_run};

use crate::executing::execute_objects;
use crate::port_outputs::deliver;
use crate::programs::carry_out_sources;
use crate::refusals::refuse_value;
use command_line::{ExecuteOrder, ProgramOrder, Settings, ValueFault};
use host::{Ending, Failure, Files, refuse_memory};
use std::alloc::Global;
use std::io::Write;

/// An order to run.
#[derive(Clone, Copy)]
pub(crate) enum RunOrder<'a> {
    /// The program of sources, which may be interpreted.
    Sources(&'a ProgramOrder<'a>),
    /// The merge of objects.
    Objects(&'a ExecuteOrder<'a>),
}

// The values that the texts of an order write.
fn settings_of<'a>(
    alloc: Global,
    order: &RunOrder<'a>,
) -> Result<Settings<'a>, Failure<ValueFault<'a>>>
    ensures values { IsSettingsOf (values_wanted order.now) result }
    ensures names { HasNames (input_texts order.now) result }
    ensures outputs { HasOutputs (output_texts order.now) result }
{
    match *order {
        RunOrder::Sources(order) => order.settings(alloc),
        RunOrder::Objects(order) => order.settings(alloc),
    }
}

// Whether an order names files to which the bytes of ports go.
fn has_outputs(order: &RunOrder) -> bool
    ensures none { result ≡ false → output_texts order.now ≡ [] }
    ensures some { result ≡ true → output_texts order.now ≡ [] → ⊥ }
{
    match *order {
        RunOrder::Sources(order) => !order.output_files.as_slice().is_empty(),
        RunOrder::Objects(order) => !order.output_files.as_slice().is_empty(),
    }
}

/// Carries out an order to run, once the values of its options are known: with files of ports, or without.
pub(crate) fn run_order<F: Files, O: Write, E: Write>(
    alloc: Global,
    order: &RunOrder,
    files: &mut F,
    out: &mut O,
    err: &mut E,
) -> Ending
    ensures unchanged { ChangesOutputs (outputs_in (output_texts order.now))
        (F.files files.old) (F.files files.new) }
    ensures untouched { result ≡ Ending.WrongLine → KeepsFiles (F.files files.old) (F.files files.new) }
    ensures refused_text { result ≡ Ending.WrongLine → TellsText (wanted_run order.now)
        (E.contents err.old) (E.contents err.new) }
    ensures silent { result ≡ Ending.WrongLine → O.contents out.new ≡ O.contents out.old }
    ensures told { result ≡ Ending.Refused → TellsRun (output_texts order.now)
        (TellsOutput (F.failures files.old) (F.failures files.new) (E.contents err.old) (E.contents err.new))
        (TellsRefusal (F.files files.old) (names_of (wanted_run order.now))
        (F.failures files.old) (F.failures files.new) (E.contents err.old) (E.contents err.new)) }
    ensures refused { result ≡ Ending.Refused → RefusesAsWanted (wanted_run order.now)
        (F.files files.old) (F.files files.new) (F.failures files.old) (F.failures files.new)
        (E.contents err.old) (E.contents err.new) (O.contents out.old) (O.contents out.new) }
    ensures count { (result ≡ Ending.Refused → ⊥) → F.failures files.new ≡ F.failures files.old }
    ensures quiet { (result ≡ Ending.Refused → ⊥) → (result ≡ Ending.WrongLine → ⊥) →
        QuietAsWanted (wanted_run order.now) (E.contents err.old) (E.contents err.new) }
    ensures ran { (result ≡ Ending.Refused → ⊥) → (result ≡ Ending.WrongLine → ⊥) →
        RunsAsWanted (wanted_run order.now) (F.files files.old) (F.files files.new) (status_of result)
        (E.contents err.old) (E.contents err.new) (O.contents out.old) (O.contents out.new) }
{
    let mut values = match settings_of(alloc, order) {
        Ok(values) => values,
        Err(Failure::Fault(fault)) => return refuse_value(&fault, err),
        Err(Failure::Memory) => return refuse_memory(err),
    };
    if has_outputs(order) {
        return run_to_files(alloc, order, &mut values, files, out, err);
    }
    let mut outputs = Vec::new(alloc);
    run_with(alloc, order, &mut values, files, &mut outputs, out, err)
}

// Carries out an order to run with files of ports, with these values: first the run, whose lines and bytes are kept, and then
// all that is written. Where it is refused, no file was begun, for a reason as without such files; or the run ended, and a
// file, standard output or memory failed: the files before it are whole, and those after it as they were.
#[tactic(auto, using(crate::proofs::Delivered::same_but, crate::proofs::Delivered::other_told))]
fn run_to_files<F: Files, O: Write, E: Write>(
    alloc: Global,
    order: &RunOrder,
    values: &mut Settings,
    files: &mut F,
    out: &mut O,
    err: &mut E,
) -> Ending
    ensures unchanged { KeepsAllBut (output_names (values_in values.old))
        (F.files files.old) (F.files files.new) }
    ensures not_wrong { result ≡ Ending.WrongLine → ⊥ }
    ensures told { result ≡ Ending.Refused → TellsRefusal (F.files files.old)
        (first_names order.now ++ input_names (values_in values.old))
        (F.failures files.old) (F.failures files.new) (E.contents err.old) (E.contents err.new)
        ⊎ TellsOutput (F.failures files.old) (F.failures files.new) (E.contents err.old) (E.contents err.new)
        (output_names (values_in values.old)) }
    ensures refused { result ≡ Ending.Refused → RefusesRun
        (RefusesWith order.now (values_in values.old) (F.files files.old)
        (F.failures files.old) (F.failures files.new) (E.contents err.old) (E.contents err.new))
        (PrintsWith order.now (values_in values.old) (F.files files.old))
        (output_names (values_in values.old)) (F.files files.old) (F.files files.new)
        (F.failures files.old) (F.failures files.new)
        (E.contents err.old) (E.contents err.new) (O.contents out.old) (O.contents out.new) }
    ensures count { (result ≡ Ending.Refused → ⊥) → F.failures files.new ≡ F.failures files.old }
    ensures ran { (result ≡ Ending.Refused → ⊥) → DeliversRun
        (PrintsWith order.now (values_in values.old) (F.files files.old) (status_of result))
        (output_names (values_in values.old)) (F.files files.old) (F.files files.new)
        (E.contents err.old) (E.contents err.new) (O.contents out.old) (O.contents out.new) }
{
    let Ok(ports) = Vec::from_slice(alloc, values.output_files.as_slice()) else {
        return refuse_memory(err);
    };
    let mut lines: Vec<u8> = Vec::new(alloc);
    let mut outputs = Vec::new(alloc);
    match run_with(alloc, order, values, files, &mut outputs, &mut lines, err) {
        Ending::Refused => Ending::Refused,
        ending => deliver(
            ports.as_slice(),
            outputs.as_slice(),
            lines.as_slice(),
            ending,
            files,
            out,
            err,
        ),
    }
}

// Runs with these values what an order names, and prints what it does. The outputs are the bytes for the files of ports.
fn run_with<F: Files, O: Write, E: Write>(
    alloc: Global,
    order: &RunOrder,
    values: &mut Settings,
    files: &mut F,
    outputs: &mut Vec<Vec<u8>>,
    out: &mut O,
    err: &mut E,
) -> Ending
    ensures unchanged { KeepsFiles (F.files files.old) (F.files files.new) }
    ensures not_wrong { result ≡ Ending.WrongLine → ⊥ }
    ensures told { result ≡ Ending.Refused → TellsRefusal (F.files files.old)
        (first_names order.now ++ input_names (values_in values.old))
        (F.failures files.old) (F.failures files.new) (E.contents err.old) (E.contents err.new) }
    ensures refused { result ≡ Ending.Refused → RefusesWith order.now (values_in values.old)
        (F.files files.old) (F.failures files.old) (F.failures files.new)
        (E.contents err.old) (E.contents err.new) (O.contents out.old) (O.contents out.new) }
    ensures count { (result ≡ Ending.Refused → ⊥) → F.failures files.new ≡ F.failures files.old }
    ensures quiet { (result ≡ Ending.Refused → ⊥) → E.contents err.new ≡ E.contents err.old }
    ensures ran { (result ≡ Ending.Refused → ⊥) →
        PrintsWith order.now (values_in values.old) (F.files files.old) (status_of result)
        (map (λ output. output.items) outputs.new.items) (O.contents out.old) (O.contents out.new) }
{
    match *order {
        RunOrder::Sources(order) => carry_out_sources(
            alloc, order, values, files, outputs, out, err,
        ),
        RunOrder::Objects(order) => execute_objects(alloc, order, values, files, outputs, out, err),
    }
}
