//! Runs of images, and what is printed of them.

ghost use Rattle.std.specs.Prelude.{◌≡◌, [], None, Some, IfOk, IfSome, OnErr, false, map, true};
ghost use Rattle.host.specs.internal.Endings.{status_of};
ghost use Rattle.isa8080.specs.declared.registers.Status.TheVariants.{Running};
ghost use Rattle.cpu8080.specs.Runs.{IsRun};
ghost use Rattle.tool.specs.Execution.{started};
ghost use Rattle.command_line.specs.Settings.{values_in};
ghost use Rattle.commands.specs.Ends.{GivesInput, machine_status, machine_word};
ghost use Rattle.commands.specs.Executing.{StopsImage};
ghost use Rattle.commands.specs.Running.{PrintsImage};
ghost use Rattle.commands.specs.Standing.{no_names, stand_of};
ghost use Rattle.commands.specs.Starting.{IsStart};
ghost use Rattle.commands.specs.Steps.{CarriesOut, IsWithinInput};
ghost use Rattle.commands.specs.internal.InputPorts.{IsAtDry, ReadsNext, ReadsNothing, StaysWithin};
ghost use Rattle.commands.specs.internal.Outcomes.{EndsOnMachine, EndsRun};
ghost use Rattle.commands.specs.internal.Places.{IsLineIn, names_in};

use crate::input_ports::{InputPorts, RunPorts};
use crate::places::{Places, Stand};
use crate::port_inputs::quiet_of;
use crate::port_outputs::put_outputs;
use crate::programs::{script_of, start_memory};
use crate::reports::{Outcome, print_report};
use command_line::Settings;
use cpu8080::{DecodeTable, End, Machine};
use host::{Ending, Failure, WriteFault};
use listings::SourceLine;
use locate::Absolute;
use mem80::Memory;
use ports::{Ports, Script};
use printing::print_machine;
use std::alloc::{AllocError, Global};
use std::io::Write;

// The code of IN, whose next byte is its port.
const IN: u8 = 0xDB;

// The port that the next instruction reads, if it reads one.
#[tactic(auto, using(crate::proofs::Steps::reads_next, crate::proofs::StepReads::reads_nothing))]
fn next_read<P: Ports>(machine: &Machine<P>) -> Option<u8>
    ensures reads { IfSome result (ReadsNext machine.now) }
    ensures nothing { result ≡ None → ReadsNothing machine.now }
{
    let place = machine.registers().pc;
    if machine.memory().get(place) == IN {
        Some(machine.memory().get(place.wrapping_add(1)))
    } else {
        None
    }
}

// Runs a machine for at most `limit` steps. The answer is how it ended, how many instructions were carried out, and the last
// line of a source whose code was met, if lines are told.
fn run_counted<P: Ports>(
    machine: &mut Machine<P>,
    limit: u64,
    places: &Places,
) -> (End, u64, Option<SourceLine>)
    requires run { machine.old.state.status ≡ Running }
    ensures run { IsRun limit machine.old result.0 machine.new }
    ensures counted { CarriesOut limit machine.old (Some result.0) machine.new.state.events result.1 }
    ensures script { machine.new.script ≡ machine.old.script }
    ensures line { IfSome result.2 (IsLineIn places.now) }
{
    let mut done = 0;
    let mut line = None;
    while done < limit {
        line = places.line_after(line, machine.registers().pc);
        match machine.run(1) {
            End::Limit => done += 1,
            End::Halted => return (End::Halted, done + 1, line),
            End::Illegal => return (End::Illegal, done, line),
            End::PortFault => return (End::PortFault, done, line),
        }
    }
    (End::Limit, done, line)
}

// The same, where 0 stands for the number of instructions unless they are counted or lines are told.
fn run_watched<P: Ports>(
    machine: &mut Machine<P>,
    values: &Settings,
    places: &Places,
) -> (End, u64, Option<SourceLine>)
    requires run { machine.old.state.status ≡ Running }
    ensures run { IsRun values.now.limit machine.old result.0 machine.new }
    ensures counted { values.now.watch.count ≡ true →
        CarriesOut values.now.limit machine.old (Some result.0) machine.new.state.events result.1 }
    ensures script { machine.new.script ≡ machine.old.script }
    ensures line { IfSome result.2 (IsLineIn places.now) }
{
    if values.watch.count || matches!(*places, Places::Lines(_)) {
        run_counted(machine, values.limit, places)
    } else {
        (machine.run(values.limit), 0, None)
    }
}

// The address at which a machine stands whose run ended so.
fn stand_of<P: Ports>(machine: &Machine<P>, end: End) -> u16
    ensures { result ≡ stand_of end machine.now }
{
    let pc = machine.registers().pc;
    match end {
        End::Halted => pc.wrapping_sub(1),
        End::Illegal | End::PortFault | End::Limit => pc,
    }
}

// How a run ended, or None where it came to a read of a port before which it was to end.
#[tactic(auto, using(crate::proofs::StepReads::stays_within))]
fn dry_end<P: RunPorts>(machine: &Machine<P>, end: End) -> Option<End>
    ensures within { P.until_dry ≡ true → IsWithinInput machine.now.script machine.now.state.events }
    ensures same { IfSome result (λ other. other ≡ end) }
    ensures ending { result ≡ None → P.until_dry ≡ true }
    ensures dry { result ≡ None → (end ≡ End.PortFault) × IsAtDry machine.now }
    ensures failed { P.until_dry ≡ true → result ≡ Some End.PortFault → StaysWithin machine.now }
{
    let is_dry = machine.ports().is_past(next_read(machine));
    match end {
        End::PortFault => { if is_dry { None } else { Some(End::PortFault) } }
        End::Halted => Some(End::Halted),
        End::Illegal => Some(End::Illegal),
        End::Limit => Some(End::Limit),
    }
}

// The last word of a run that ended so, and how the command ends.
fn word_of(end: Option<End>) -> (&'static str, Ending)
    ensures word { result.0.now ≡ machine_word end }
    ensures status { status_of result.1 ≡ machine_status end }
    ensures ended { EndsRun result.1 }
{
    match end {
        Some(End::Halted) => ("HALT", Ending::Done),
        Some(End::Illegal) => ("ILLEGAL", Ending::Stopped),
        Some(End::PortFault) => ("PORT", Ending::Stopped),
        Some(End::Limit) => ("LIMIT", Ending::Limit),
        None => ("DRY", Ending::Limit),
    }
}

// Runs a machine. If `values` want that, the run ends before it reads a port past its input.
fn outcome_of<P: RunPorts>(
    alloc: Global,
    machine: &mut Machine<P>,
    values: &Settings,
    places: &Places,
) -> Result<Outcome, AllocError>
    requires run { machine.old.state.status ≡ Running }
    requires dry { values.now.watch.until_dry ≡ P.until_dry }
    ensures { IfOk result (λ outcome. EndsOnMachine (names_in places.now) (values_in values.now) machine.old
        outcome machine.new.state.events) }
{
    let (end, steps, line) = run_watched(machine, values, places);
    let address = stand_of(machine, end);
    let (word, ending) = word_of(dry_end(machine, end));
    let text = places.text(alloc, Stand { address, line })?;
    Ok(Outcome {
        word,
        ending,
        steps,
        text,
    })
}

// A machine at its start: with an image loaded into a memory, these ports, and a table for what it decodes.
fn machine_of<P: Ports>(
    image: &Absolute,
    memory: Memory,
    ports: P,
    table: DecodeTable,
) -> Machine<P>
    ensures { result ≡ started image.now memory (P.script ports) (P.events ports) (P.failures ports) }
{
    let mut memory = memory;
    image.load(&mut memory);
    Machine::with_table(memory, ports, image.start(), table)
}

// Prints what an image does while it does that.
#[tactic(auto, using(crate::proofs::ImageRuns::nothing))]
fn print_plain<O: Write>(
    alloc: Global,
    image: &Absolute,
    values: &Settings,
    memory: Memory,
    script: Script,
    table: DecodeTable,
    outputs: &mut Vec<Vec<u8>>,
    out: &mut O,
) -> Result<Ending, Failure<WriteFault>>
    requires start { IsStart (values_in values.now) memory }
    requires gives { GivesInput (values_in values.now).input script.script }
    requires none { script.events ≡ [] }
    requires unfailed { script.failures ≡ 0 }
    requires plain { values.now.watch.count ≡ false }
    requires to_end { values.now.watch.until_dry ≡ false }
    requires unplaced { values.now.watch.place ≡ false }
    ensures ok { IfOk result (λ ending. PrintsImage no_names [] (values_in values.now) image.now
        (status_of ending) (map (λ output. output.items) outputs.new.items)
        (O.contents out.old) (O.contents out.new)) }
    ensures ended { IfOk result EndsRun }
    ensures err { OnErr result (StopsImage no_names (values_in values.now) image.now
        (O.contents out.old) (O.contents out.new)) }
{
    let Ok(quiet) = quiet_of(alloc, values) else {
        return Err(Failure::Memory);
    };
    let mut machine = machine_of(image, memory, script, table);
    let end = print_machine(&mut machine, values.limit, quiet.as_slice(), out)?;
    let Ok(()) = put_outputs(alloc, values, machine.ports().events(), outputs) else {
        return Err(Failure::Memory);
    };
    let (_, ending) = word_of(Some(end));
    Ok(ending)
}

// Prints what an image did, once it has ended.
#[tactic(auto, using(crate::proofs::ImageRuns::nothing))]
fn print_ended<P: RunPorts + Drop, O: Write>(
    alloc: Global,
    image: &Absolute,
    values: &Settings,
    places: &Places,
    memory: Memory,
    ports: P,
    table: DecodeTable,
    outputs: &mut Vec<Vec<u8>>,
    out: &mut O,
) -> Result<Ending, Failure<WriteFault>>
    requires start { IsStart (values_in values.now) memory }
    requires gives { GivesInput (values_in values.now).input (P.script ports) }
    requires none { P.events ports ≡ [] }
    requires unfailed { P.failures ports ≡ 0 }
    requires dry { values.now.watch.until_dry ≡ P.until_dry }
    ensures ok { IfOk result (λ ending. PrintsImage (names_in places.now) [] (values_in values.now) image.now
        (status_of ending) (map (λ output. output.items) outputs.new.items)
        (O.contents out.old) (O.contents out.new)) }
    ensures ended { IfOk result EndsRun }
    ensures err { OnErr result (StopsImage (names_in places.now) (values_in values.now) image.now
        (O.contents out.old) (O.contents out.new)) }
{
    let mut machine = machine_of(image, memory, ports, table);
    let Ok(outcome) = outcome_of(alloc, &mut machine, values, places) else {
        return Err(Failure::Memory);
    };
    let events = machine.ports().log();
    print_report(alloc, values, events, &outcome, outputs, out)
}

/// Prints what an image does on a memory as values start it, while it does that, unless its steps are counted, its place is
/// told, or it is to end before it reads a port past its input; and gathers the bytes for the files of ports. The answer is
/// how the command ends. After a failure nothing was printed, or a beginning of that.
#[tactic(auto, using(crate::proofs::ImageRuns::nothing, crate::proofs::PlacesTold::any_names, crate::proofs::PlacesTold::any_stops))]
pub(crate) fn print_image<O: Write>(
    alloc: Global,
    image: &Absolute,
    values: &Settings,
    places: &Places,
    outputs: &mut Vec<Vec<u8>>,
    out: &mut O,
) -> Result<Ending, Failure<WriteFault>>
    ensures ok { IfOk result (λ ending. PrintsImage (names_in places.now) [] (values_in values.now) image.now
        (status_of ending) (map (λ output. output.items) outputs.new.items)
        (O.contents out.old) (O.contents out.new)) }
    ensures ended { IfOk result EndsRun }
    ensures err { OnErr result (StopsImage (names_in places.now) (values_in values.now) image.now
        (O.contents out.old) (O.contents out.new)) }
{
    let Ok(memory) = start_memory(alloc, values) else {
        return Err(Failure::Memory);
    };
    let Ok(script) = script_of(alloc, values.input.as_slice()) else {
        return Err(Failure::Memory);
    };
    let Ok(table) = DecodeTable::new(alloc) else {
        return Err(Failure::Memory);
    };
    if values.watch.until_dry {
        let ports = InputPorts::new(script, values.input.as_slice());
        print_ended(
            alloc, image, values, places, memory, ports, table, outputs, out,
        )
    } else if values.watch.count || values.watch.place {
        print_ended(
            alloc, image, values, places, memory, script, table, outputs, out,
        )
    } else {
        let ending = print_plain(alloc, image, values, memory, script, table, outputs, out)?;
        Ok(ending)
    }
}
