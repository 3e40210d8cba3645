//! Runs of a machine whose events are printed while it runs.
#![tactic(auto)]

ghost use Rattle.std.specs.Prelude.{◌≡◌, ◌≤◌, codes, drop, length, IfErr, IfOk, OnErr, OnOk};
ghost use Rattle.std.specs.List.{flat_map};
ghost use Rattle.std.specs.Io.KnownBytes.{Appends};
ghost use Rattle.failure.specs.Writing.{AppendsBeginning};
ghost use Rattle.printing.specs.Report.{shown_line};
ghost use Rattle.cpu8080.specs.Runs.{IsOnlyHalt, IsRun};
ghost use Rattle.printing.specs.Printing.{BeginsRun, PrintsRun, end_word};
ghost use Rattle.printing.specs.internal.Slices.{BeginsSlice};

use crate::lines::{write_events, write_line};
use cpu8080::{End, Machine};
use failure::{Failure, WriteFault};
use ports::Script;
use std::io::Write;

// How many steps are made before the lines of their events are written.
const SLICE: u64 = 1_000_000;

/// The word that a run ends with.
pub fn word_of(end: End) -> &'static str
    ensures { result.now ≡ end_word end }
{
    match end {
        End::Halted => "HALT",
        End::Illegal => "ILLEGAL",
        End::PortFault => "PORT",
        End::Limit => "LIMIT",
    }
}

// Writes the lines of the events of a machine from one of them on, but for those of quiet ports.
fn write_from<W: Write>(
    machine: &Machine<Script>,
    first: usize,
    quiet: &[u8],
    out: &mut W,
) -> Result<(), Failure<WriteFault>>
    requires { first ≤ length machine.now.state.events }
    ensures ok { OnOk result (Appends (W.contents out.old) (W.contents out.new)
        (flat_map (shown_line quiet.now) (drop first machine.now.state.events))) }
    ensures err { OnErr result (AppendsBeginning (W.contents out.old) (W.contents out.new)
        (flat_map (shown_line quiet.now) (drop first machine.now.state.events))) }
{
    write_events(&machine.ports().events()[first..], quiet, out)
}

// Makes some steps, and writes the lines of their events.
fn run_slice<W: Write>(
    machine: &mut Machine<Script>,
    limit: u64,
    quiet: &[u8],
    out: &mut W,
) -> Result<End, Failure<WriteFault>>
    ensures run { IfOk result (λ end. IsRun limit machine.old end machine.new) }
    ensures script { machine.new.script ≡ machine.old.script }
    ensures lines { OnOk result (Appends (W.contents out.old) (W.contents out.new)
        (flat_map (shown_line quiet.now) (drop (length machine.old.state.events) machine.new.state.events))) }
    ensures err { OnErr result
        (BeginsSlice quiet.now limit machine.old machine.new (W.contents out.old) (W.contents out.new)) }
{
    let before = machine.ports().events().len();
    let end = machine.run(limit);
    write_from(machine, before, quiet, out)?;
    Ok(end)
}

// Runs a machine, and writes the lines of all its events, those of some steps at a time.
fn run_slices<W: Write>(
    machine: &mut Machine<Script>,
    limit: u64,
    quiet: &[u8],
    out: &mut W,
) -> Result<End, Failure<WriteFault>>
    ensures run { IfOk result (λ end. IsRun limit machine.old end machine.new) }
    ensures lines { OnOk result (Appends (W.contents out.old) (W.contents out.new)
        (flat_map (shown_line quiet.now) machine.new.state.events)) }
    ensures err { OnErr result
        (BeginsRun quiet.now limit machine.old (W.contents out.old) (W.contents out.new)) }
{
    write_from(machine, 0, quiet, out)?;
    let mut left = limit;
    while left > SLICE {
        match run_slice(machine, SLICE, quiet, out)? {
            End::Limit => left -= SLICE,
            end => return Ok(end),
        }
    }
    let end = run_slice(machine, left, quiet, out)?;
    Ok(end)
}

/// Runs a machine for at most `limit` steps, and writes a line for each of its events that is not of a quiet port, those
/// of some steps at a time while it runs, and then the word that the run ends with. After a failure the writer has a
/// beginning of that text. A machine that halts is then in the only state in which it is ever halted.
#[tactic(auto, using(cpu8080::proofs::MachineLemmas::only_halt))]
pub fn print_machine<W: Write>(
    machine: &mut Machine<Script>,
    limit: u64,
    quiet: &[u8],
    out: &mut W,
) -> Result<End, Failure<WriteFault>>
    ensures ok { IfOk result (λ end.
        PrintsRun quiet.now limit machine.old end machine.new (W.contents out.old) (W.contents out.new)) }
    ensures halt { IfOk result (λ end. end ≡ End.Halted → IsOnlyHalt machine.old machine.new) }
    ensures err { OnErr result
        (BeginsRun quiet.now limit machine.old (W.contents out.old) (W.contents out.new)) }
{
    let end = run_slices(machine, limit, quiet, out)?;
    write_line(word_of(end), out)?;
    Ok(end)
}
