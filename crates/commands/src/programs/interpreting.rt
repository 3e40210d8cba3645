//! Programs that are interpreted.

ghost use Rattle.std.specs.Prelude.{◌≡◌, [], IfOk, IfSome, None, OnErr, map, option_map, true};
ghost use Rattle.host.specs.internal.Endings.{status_of};
ghost use Rattle.command_line.specs.Settings.{values_in};
ghost use Rattle.command_line.specs.declared.orders.Action.TheVariants.{Interpret};
ghost use Rattle.interpreter.specs.Ends.{stop_of};
ghost use Rattle.sources.specs.Programs.{IsProgramOf, program_modules, texts_of};
ghost use Rattle.tool.specs.Execution.{source_of};
ghost use Rattle.commands.specs.Ends.{GivesInput, source_status, source_word};
ghost use Rattle.commands.specs.Running.{PrintsBuilt, StopsBuilt};
ghost use Rattle.commands.specs.Standing.{module_names};
ghost use Rattle.commands.specs.Starting.{IsStart};
ghost use Rattle.commands.specs.Steps.{IsWithinInput};
ghost use Rattle.commands.specs.internal.InputPorts.{HasMore, IsPast};
ghost use Rattle.commands.specs.internal.Outcomes.{EndsAsSource, EndsRun};
ghost use Rattle.commands.specs.internal.SourceRuns.{RunsSource};

use crate::input_ports::{InputPorts, RunPorts};
use crate::programs::loading::{script_of, start_memory};
use crate::programs::standing::text_of_line;
use crate::reports::{Outcome, print_report};
use command_line::Settings;
use host::{Ending, Failure, WriteFault};
use interpreter::{RunFault, SourceEnd, interpret};
use meaning::Reason;
use mem80::Memory;
use ports::Ports;
use std::alloc::{AllocError, Global};
use std::io::Write;
use tool::{Built, Source};

/// Prints what a program did from a memory as values start it, and gathers the bytes for the files of ports. The answer is how
/// the command ends. After a failure a beginning of that was printed.
#[tactic(auto, using(crate::proofs::Printed::nothing_stops))]
pub(crate) fn print_meaning<O: Write>(
    alloc: Global,
    settings: &Settings,
    built: &Built,
    sources: &[Source],
    outputs: &mut Vec<Vec<u8>>,
    out: &mut O,
) -> Result<Ending, Failure<WriteFault>>
    requires program { IsProgramOf (texts_of sources.now) (program_modules built.now.program) }
    ensures ok { IfOk result (λ ending. PrintsBuilt Interpret [] (values_in settings.now) built.now
        (status_of ending) (map (λ output. output.items) outputs.new.items)
        (O.contents out.old) (O.contents out.new)) }
    ensures ended { IfOk result EndsRun }
    ensures err { OnErr result (StopsBuilt Interpret [] (values_in settings.now) built.now
        (O.contents out.old) (O.contents out.new)) }
{
    let Ok(memory) = start_memory(alloc, settings) else {
        return Err(Failure::Memory);
    };
    let Ok(script) = script_of(alloc, settings.input.as_slice()) else {
        return Err(Failure::Memory);
    };
    if settings.watch.until_dry {
        let ports = InputPorts::new(script, settings.input.as_slice());
        print_interpreted(alloc, settings, built, sources, memory, ports, outputs, out)
    } else {
        print_interpreted(
            alloc, settings, built, sources, memory, script, outputs, out,
        )
    }
}

// The same over these ports.
#[tactic(auto, using(crate::proofs::Printed::nothing_stops))]
fn print_interpreted<P: RunPorts + Drop, O: Write>(
    alloc: Global,
    settings: &Settings,
    built: &Built,
    sources: &[Source],
    memory: Memory,
    ports: P,
    outputs: &mut Vec<Vec<u8>>,
    out: &mut O,
) -> Result<Ending, Failure<WriteFault>>
    requires program { IsProgramOf (texts_of sources.now) (program_modules built.now.program) }
    requires start { IsStart (values_in settings.now) memory }
    requires gives { GivesInput (values_in settings.now).input (P.script ports) }
    requires none { P.events ports ≡ [] }
    requires dry { settings.now.watch.until_dry ≡ P.until_dry }
    ensures ok { IfOk result (λ ending. PrintsBuilt Interpret [] (values_in settings.now) built.now
        (status_of ending) (map (λ output. output.items) outputs.new.items)
        (O.contents out.old) (O.contents out.new)) }
    ensures ended { IfOk result EndsRun }
    ensures err { OnErr result (StopsBuilt Interpret [] (values_in settings.now) built.now
        (O.contents out.old) (O.contents out.new)) }
{
    let mut ports = ports;
    let Ok(outcome) = outcome_of(alloc, settings, built, sources, memory, &mut ports) else {
        return Err(Failure::Memory);
    };
    let events = ports.log();
    print_report(alloc, settings, events, &outcome, outputs, out)
}

// Interprets a program. If `settings` want that, the run ends before it reads a port past its input.
fn outcome_of<P: RunPorts>(
    alloc: Global,
    settings: &Settings,
    built: &Built,
    sources: &[Source],
    memory: Memory,
    ports: &mut P,
) -> Result<Outcome, AllocError>
    requires program { IsProgramOf (texts_of sources.now) (program_modules built.now.program) }
    requires dry { settings.now.watch.until_dry ≡ P.until_dry }
    ensures { IfOk result (λ outcome. EndsAsSource (module_names built.now.program) (values_in settings.now)
        (P.script ports.old) (source_of built.now memory (P.script ports.old) (P.events ports.old))
        outcome (P.events ports.new)) }
{
    let run = interpret_built(alloc, settings.limit, built, memory, ports)?;
    let (word, ending) = word_of(dry_end(run, ports));
    let text = text_of_line(alloc, settings, built, sources, run.at)?;
    Ok(Outcome {
        word,
        ending,
        steps: run.used,
        text,
    })
}

// How a run of a source stopped, where no port failed; which port was to be read, where a read failed; how much of the budget
// was used; and at which instruction the run stands.
#[derive(Clone, Copy)]
struct SourceRun {
    end: Option<SourceEnd>,
    read: Option<u8>,
    used: u64,
    at: usize,
}

// How a run ended, or None where it came to a read of a port before which it was to end.
fn dry_end<P: RunPorts>(run: SourceRun, ports: &P) -> Option<Option<SourceEnd>>
    ensures within { P.until_dry ≡ true → IsWithinInput (P.script ports.now) (P.events ports.now) }
    ensures same { IfSome (option_map (option_map stop_of) result)
        (λ end. end ≡ option_map stop_of run.end) }
    ensures ending { option_map (option_map stop_of) result ≡ None → P.until_dry ≡ true }
    ensures dry { option_map (option_map stop_of) result ≡ None →
        IsPast run.read (P.script ports.now) (P.events ports.now) }
    ensures more { P.until_dry ≡ true → IfSome (option_map (option_map stop_of) result)
        (λ end. HasMore run.read (P.script ports.now) (P.events ports.now)) }
{
    if ports.is_past(run.read) {
        None
    } else {
        Some(run.end)
    }
}

// Interprets a program that was built, with so much budget.
#[tactic(auto, using(crate::proofs::Interpreted::are_sound))]
fn interpret_built<P: Ports>(
    alloc: Global,
    budget: u64,
    built: &Built,
    memory: Memory,
    ports: &mut P,
) -> Result<SourceRun, AllocError>
    ensures does { IfOk result (λ run. RunsSource
        (source_of built.now memory (P.script ports.old) (P.events ports.old)) budget
        (option_map stop_of run.end) run.read (P.events ports.new) run.used) }
    ensures script { P.script ports.new ≡ P.script ports.old }
{
    let mut left = budget;
    let mut at = 0;
    match interpret(
        alloc,
        built.program(),
        built.placement(),
        built.plan().stack_size,
        memory,
        ports,
        &mut left,
        &mut at,
    ) {
        Ok(end) => Ok(SourceRun {
            end: Some(end),
            read: None,
            used: budget.saturating_sub(left),
            at,
        }),
        Err(RunFault::Input(port)) => Ok(SourceRun {
            end: None,
            read: Some(port),
            used: budget.saturating_sub(left),
            at,
        }),
        Err(RunFault::Output(_)) => Ok(SourceRun {
            end: None,
            read: None,
            used: budget.saturating_sub(left),
            at,
        }),
        // Memory ran out while it was interpreted.
        Err(RunFault::Memory) => Err(AllocError),
    }
}

// The last word of a run that ended so, and how the command ends.
fn word_of(end: Option<Option<SourceEnd>>) -> (&'static str, Ending)
    ensures word { result.0.now ≡ source_word (option_map (option_map stop_of) end) }
    ensures status { status_of result.1 ≡ source_status (option_map (option_map stop_of) end) }
    ensures ended { EndsRun result.1 }
{
    match end {
        Some(Some(SourceEnd::Ended)) => ("HALT", Ending::Done),
        Some(Some(SourceEnd::More)) => ("LIMIT", Ending::Limit),
        Some(Some(SourceEnd::Outside(Reason::Divide))) => ("OUTSIDE DIVIDE", Ending::Outside),
        Some(Some(SourceEnd::Outside(Reason::Byte))) => ("OUTSIDE BYTE", Ending::Outside),
        Some(Some(SourceEnd::Outside(Reason::Constant))) => ("OUTSIDE CONSTANT", Ending::Outside),
        Some(Some(SourceEnd::Outside(Reason::Stack))) => ("OUTSIDE STACK", Ending::Outside),
        Some(None) => ("PORT", Ending::Stopped),
        None => ("DRY", Ending::Limit),
    }
}
