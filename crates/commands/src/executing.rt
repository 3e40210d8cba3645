//! Orders to run objects, carried out.

ghost use Rattle.std.specs.Prelude.{◌≡◌, ◌++◌, map};
ghost use Rattle.host.specs.internal.Endings.{status_of};
ghost use Rattle.host.specs.Files.{KeepsFiles};
ghost use Rattle.host.specs.Refusals.{TellsRefusal};
ghost use Rattle.command_line.specs.internal.Orders.{execute_in};
ghost use Rattle.command_line.specs.Settings.{values_in};
ghost use Rattle.commands.specs.Executing.{PrintsMerge, PrintsRead, RefusesObjects, StopsRead};
ghost use Rattle.commands.specs.InputFiles.{input_names};
ghost use Rattle.commands.specs.Refusing.{RefusesFor};

use crate::image_runs::print_image;
use crate::places::Places;
use crate::port_inputs::read_input;
use crate::reports::end_run;
use command_line::{ExecuteOrder, Settings};
use host::{Ending, Failure, Files, refuse_file, refuse_memory};
use locate::Absolute;
use object_commands::place_merge;
use std::alloc::Global;
use std::io::Write;

/// Merges the objects of an order, places the merge and runs it with these values. Where the order is not refused, the outputs
/// are the bytes for the files of ports.
#[tactic(auto, using(crate::proofs::Executed::runs_merge))]
pub(crate) fn execute_objects<F: Files, O: Write, E: Write>(
    alloc: Global,
    order: &ExecuteOrder,
    values: &mut Settings,
    files: &mut F,
    outputs: &mut Vec<Vec<u8>>,
    out: &mut O,
    err: &mut E,
) -> Ending
    ensures unchanged { KeepsFiles (F.files files.old) (F.files files.new) }
    ensures not_wrong { result ≡ Ending.WrongLine → ⊥ }
    ensures told { result ≡ Ending.Refused → TellsRefusal (F.files files.old)
        ((execute_in order.now).objects ++ input_names (values_in values.old))
        (F.failures files.old) (F.failures files.new) (E.contents err.old) (E.contents err.new) }
    ensures refused { result ≡ Ending.Refused → RefusesObjects (execute_in order.now)
        (values_in values.old) (F.files files.old) (F.failures files.old) (F.failures files.new)
        (E.contents err.old) (E.contents err.new) (O.contents out.old) (O.contents out.new) }
    ensures count { (result ≡ Ending.Refused → ⊥) → F.failures files.new ≡ F.failures files.old }
    ensures quiet { (result ≡ Ending.Refused → ⊥) → E.contents err.new ≡ E.contents err.old }
    ensures ran { (result ≡ Ending.Refused → ⊥) →
        PrintsMerge (execute_in order.now) (values_in values.old) (F.files files.old) (status_of result)
        (map (λ output. output.items) outputs.new.items) (O.contents out.old) (O.contents out.new) }
{
    let image = match place_merge(alloc, order.objects.as_slice(), &values.plan, files, err) {
        Ok(image) => image,
        Err(ending) => return ending,
    };
    let ending = run_image(alloc, &image, values, files, outputs, out, err);
    drop(image);
    ending
}

// Reads the files of the input, runs an image and prints what it does.
fn run_image<F: Files, O: Write, E: Write>(
    alloc: Global,
    image: &Absolute,
    values: &mut Settings,
    files: &mut F,
    outputs: &mut Vec<Vec<u8>>,
    out: &mut O,
    err: &mut E,
) -> Ending
    ensures unchanged { KeepsFiles (F.files files.old) (F.files files.new) }
    ensures not_wrong { result ≡ Ending.WrongLine → ⊥ }
    ensures told { result ≡ Ending.Refused → TellsRefusal (F.files files.old)
        (input_names (values_in values.old))
        (F.failures files.old) (F.failures files.new) (E.contents err.old) (E.contents err.new) }
    ensures refused { result ≡ Ending.Refused → RefusesFor
        (StopsRead (values_in values.old) (F.files files.old) image.now
        (E.contents err.old) (E.contents err.new) (O.contents out.old) (O.contents out.new))
        (F.files files.old) (input_names (values_in values.old)) (F.failures files.old) (F.failures files.new)
        (E.contents err.old) (E.contents err.new) (O.contents out.old) (O.contents out.new) }
    ensures count { (result ≡ Ending.Refused → ⊥) → F.failures files.new ≡ F.failures files.old }
    ensures quiet { (result ≡ Ending.Refused → ⊥) → E.contents err.new ≡ E.contents err.old }
    ensures ran { (result ≡ Ending.Refused → ⊥) →
        PrintsRead (values_in values.old) (F.files files.old) image.now (status_of result)
        (map (λ output. output.items) outputs.new.items) (O.contents out.old) (O.contents out.new) }
{
    match read_input(alloc, values, files) {
        Ok(()) => {
            let printing = print_image(alloc, image, values, &Places::Addresses, outputs, out);
            end_run(printing, err)
        }
        Err(Failure::Fault((fault, name))) => refuse_file(fault, name, err),
        Err(Failure::Memory) => refuse_memory(err),
    }
}
