//! The bytes that go from ports to files.

ghost use Rattle.std.specs.Prelude.{◌≡◌, ◌⊎◌, ◌++◌, true, IfErr, IfOk, OnErr, OnOk, map, option_map, unwrap_or};
ghost use Rattle.host.specs.Failure.{IfFault};
ghost use Rattle.host.specs.Writing.{AppendsBeginning};
ghost use Rattle.host.specs.Files.{ChangesFiles, Counts};
ghost use Rattle.host.specs.Refusals.{TellsOther};
ghost use Rattle.object_commands.specs.Linking.{KeepsOthers};
ghost use Rattle.command_line.specs.Settings.{file_names, port_file_in, values_in};
ghost use Rattle.commands.specs.Converting.{TellsOutput};
ghost use Rattle.commands.specs.OutputFiles.{Delivers, KeepsAllBut, Shows, byte_written, bytes_written, dash_bytes, is_output, outputs_for, outputs_of, with_output, with_outputs};
ghost use Rattle.commands.specs.RefusedRuns.{LeavesOutputs, StopsOutput, StopsOutputs, StopsShowing, Undelivered};

use command_line::{PortFile, Settings};
use host::{
    Ending, Failure, FileFault, Files, WriteFault, refuse_file, refuse_memory, refuse_output,
    write_bytes,
};
use object_commands::write_file;
use ports::Event;
use std::alloc::{AllocError, Global};
use std::io::Write;

// Adds the byte of an event, where the event writes it to a port.
fn put_written(bytes: &mut Vec<u8>, port: u8, event: &Event) -> Result<(), AllocError>
    ensures { OnOk result (bytes.new.items ≡ bytes.old.items ++ byte_written port event.now) }
{
    if event.write && event.port == port {
        bytes.push(event.value)?;
    }
    Ok(())
}

// The bytes that events write to a port.
#[tactic(auto, using(crate::proofs::OutputFiles::written_put, crate::proofs::OutputFiles::all_written))]
fn bytes_to(alloc: Global, port: u8, events: &[Event]) -> Result<Vec<u8>, AllocError>
    ensures { IfOk result (λ bytes. bytes.items ≡ bytes_written port events.now) }
{
    let mut bytes = Vec::new(alloc);
    let mut rest = events;
    while let [event, more @ ..] = rest {
        put_written(&mut bytes, port, event)?;
        rest = more;
    }
    Ok(bytes)
}

// The bytes of each of these files.
#[tactic(auto, using(crate::proofs::OutputFiles::output_put, crate::proofs::OutputFiles::all_put))]
fn gathered(alloc: Global, files: &[PortFile], events: &[Event]) -> Result<Vec<Vec<u8>>, AllocError>
    ensures { IfOk result (λ outputs. map (λ output. output.items) outputs.items
        ≡ outputs_for (map port_file_in files.now) events.now) }
{
    let mut outputs = Vec::new(alloc);
    let mut rest = files;
    while let [file, more @ ..] = rest {
        let bytes = bytes_to(alloc, file.port, events)?;
        outputs.push(bytes)?;
        rest = more;
    }
    Ok(outputs)
}

/// Gathers the bytes of each file to which those of a port go, in the order of the options.
pub(crate) fn put_outputs(
    alloc: Global,
    values: &Settings,
    events: &[Event],
    outputs: &mut Vec<Vec<u8>>,
) -> Result<(), AllocError>
    ensures { OnOk result
        (map (λ output. output.items) outputs.new.items ≡ outputs_of (values_in values.now) events.now) }
{
    let bytes = gathered(alloc, values.output_files.as_slice(), events)?;
    *outputs = bytes;
    Ok(())
}

// Writes a file whole, but for standard output, which is left.
#[tactic(auto, using(crate::proofs::OutputFiles::dash_left, crate::proofs::OutputFiles::no_others, crate::proofs::OutputFiles::written_as_output, crate::proofs::OutputFiles::others_of, crate::proofs::OutputFiles::stopped_as_output))]
fn write_output<F: Files>(name: &str, bytes: &[u8], files: &mut F) -> Result<(), Failure<FileFault>>
    ensures ok { OnOk result
        (ChangesFiles (F.files files.old) (F.files files.new) (with_output name.now bytes.now)) }
    ensures stopped { OnErr result
        (StopsOutput name.now bytes.now (F.files files.old) (F.files files.new)) }
    ensures others { KeepsOthers (F.files files.old) (F.files files.new) name.now }
    ensures count { OnOk result (F.failures files.new ≡ F.failures files.old) }
    ensures failed { IfErr result (λ failure. Counts failure (F.failures files.old) (F.failures files.new)) }
{
    if name == "-" {
        return Ok(());
    }
    write_file(name, bytes, files)
}

// Writes each file whole, in the order of the options, but for standard output. A fault comes with the name of its file, and
// is one failure that was counted.
#[tactic(auto, using(crate::proofs::OutputFiles::none_written, crate::proofs::OutputFiles::next_named, crate::proofs::OutputFiles::names_ended, crate::proofs::OutputFiles::outputs_ended))]
fn write_outputs<'a, F: Files>(
    ports: &[PortFile<'a>],
    outputs: &[Vec<u8>],
    files: &mut F,
) -> Result<(), Failure<(FileFault, &'a str)>>
    ensures ok { OnOk result (ChangesFiles (F.files files.old) (F.files files.new)
        (with_outputs (file_names (map port_file_in ports.now)) (map (λ output. output.items) outputs.now))) }
    ensures others { KeepsAllBut (file_names (map port_file_in ports.now))
        (F.files files.old) (F.files files.new) }
    ensures count { OnOk result (F.failures files.new ≡ F.failures files.old) }
    ensures named { IfFault result (λ fault.
        is_output (file_names (map port_file_in ports.now)) fault.1.now ≡ true) }
    ensures stopped { IfFault result (λ fault. StopsOutputs
        (file_names (map port_file_in ports.now)) (map (λ output. output.items) outputs.now)
        fault.1.now (F.files files.old) (F.files files.new)) }
    ensures left { OnErr result (LeavesOutputs
        (file_names (map port_file_in ports.now)) (map (λ output. output.items) outputs.now)
        (F.files files.old) (F.files files.new)) }
    ensures failed { IfErr result (λ failure. Counts failure (F.failures files.old) (F.failures files.new)) }
{
    let mut rest = ports;
    let mut outputs = outputs;
    while let [port, more @ ..] = rest {
        let [bytes, others @ ..] = outputs else {
            return Ok(());
        };
        match write_output(port.name, bytes.as_slice(), files) {
            Ok(()) => {}
            Err(Failure::Fault(fault)) => return Err(Failure::Fault((fault, port.name))),
            Err(Failure::Memory) => return Err(Failure::Memory),
        }
        rest = more;
        outputs = others;
    }
    Ok(())
}

// The bytes for standard output, where it has a port.
#[tactic(auto, using(crate::proofs::OutputFiles::dash_there, crate::proofs::OutputFiles::dash_later, crate::proofs::OutputFiles::no_dash, crate::proofs::OutputFiles::no_bytes))]
fn bytes_for_output<'a>(ports: &[PortFile], outputs: &'a [Vec<u8>]) -> Option<&'a [u8]>
    ensures { option_map (λ bytes. bytes.now) result
        ≡ dash_bytes (file_names (map port_file_in ports.now)) (map (λ output. output.items) outputs.now) }
{
    let mut rest = ports;
    let mut outputs = outputs;
    while let [port, more @ ..] = rest {
        let [bytes, others @ ..] = outputs else {
            return None;
        };
        if port.name == "-" {
            return Some(bytes.as_slice());
        }
        rest = more;
        outputs = others;
    }
    None
}

// Writes lines to standard output; or bytes, where there are such, and the lines to standard error.
#[tactic(auto, using(crate::proofs::OutputFiles::begun_of))]
fn show<O: Write, E: Write>(
    bytes: Option<&[u8]>,
    lines: &[u8],
    out: &mut O,
    err: &mut E,
) -> Result<(), Failure<WriteFault>>
    ensures shown { OnOk result (Shows (option_map (λ bytes. bytes.now) bytes.entry) lines.now
        (E.contents err.old) (E.contents err.new) (O.contents out.old) (O.contents out.new)) }
    ensures silent { OnErr result (E.contents err.new ≡ E.contents err.old) }
    ensures begun { OnErr result (AppendsBeginning (O.contents out.old) (O.contents out.new)
        (unwrap_or (option_map (λ bytes. bytes.now) bytes.entry) lines.now)) }
{
    match bytes {
        Some(bytes) => {
            write_bytes(out, bytes)?;
            // a failure there is passed over
            let _ = write_bytes(err, lines);
            Ok(())
        }
        None => {
            write_bytes(out, lines)?;
            Ok(())
        }
    }
}

/// Delivers a run that ended so: writes the files of ports, then standard output, and then lines to standard error, where
/// standard output has a port. A file that fails, or standard output, is told, and nothing more is written.
pub(crate) fn deliver<F: Files, O: Write, E: Write>(
    ports: &[PortFile],
    outputs: &[Vec<u8>],
    lines: &[u8],
    ending: Ending,
    files: &mut F,
    out: &mut O,
    err: &mut E,
) -> Ending
    ensures unchanged { KeepsAllBut (file_names (map port_file_in ports.now))
        (F.files files.old) (F.files files.new) }
    ensures same { (result ≡ Ending.Refused → ⊥) → result ≡ ending }
    ensures told { result ≡ ending ⊎ (TellsOutput (F.failures files.old) (F.failures files.new)
        (E.contents err.old) (E.contents err.new) (file_names (map port_file_in ports.now))
        ⊎ ((F.failures files.new ≡ F.failures files.old) × TellsOther (E.contents err.old) (E.contents err.new))) }
    ensures undelivered { result ≡ ending ⊎ Undelivered
        (file_names (map port_file_in ports.now)) (map (λ output. output.items) outputs.now)
        (F.files files.old) (F.files files.new) (F.failures files.old) (F.failures files.new)
        (E.contents err.old) (E.contents err.new) (O.contents out.old) (O.contents out.new) lines.now }
    ensures count { (result ≡ Ending.Refused → ⊥) → F.failures files.new ≡ F.failures files.old }
    ensures delivered { (result ≡ Ending.Refused → ⊥) → Delivers
        (file_names (map port_file_in ports.now)) (map (λ output. output.items) outputs.now) lines.now
        (F.files files.old) (F.files files.new)
        (E.contents err.old) (E.contents err.new) (O.contents out.old) (O.contents out.new) }
{
    match write_outputs(ports, outputs, files) {
        Ok(()) => show_run(bytes_for_output(ports, outputs), lines, ending, out, err),
        Err(Failure::Fault((fault, name))) => refuse_file(fault, name, err),
        Err(Failure::Memory) => refuse_memory(err),
    }
}

// Shows a run that ended so, or reports why that was not done.
fn show_run<O: Write, E: Write>(
    bytes: Option<&[u8]>,
    lines: &[u8],
    ending: Ending,
    out: &mut O,
    err: &mut E,
) -> Ending
    ensures same { (result ≡ Ending.Refused → ⊥) → result ≡ ending }
    ensures told { result ≡ ending ⊎ TellsOther (E.contents err.old) (E.contents err.new) }
    ensures stopped { result ≡ ending
        ⊎ StopsShowing (option_map (λ bytes. bytes.now) bytes.entry) lines.now
        (E.contents err.old) (E.contents err.new) (O.contents out.old) (O.contents out.new) }
    ensures shown { (result ≡ Ending.Refused → ⊥)
        → Shows (option_map (λ bytes. bytes.now) bytes.entry) lines.now
        (E.contents err.old) (E.contents err.new) (O.contents out.old) (O.contents out.new) }
{
    match show(bytes, lines, out, err) {
        Ok(()) => ending,
        Err(Failure::Fault(_)) => refuse_output(err),
        Err(Failure::Memory) => refuse_memory(err),
    }
}
