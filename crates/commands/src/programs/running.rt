//! What is printed of programs that are run or interpreted.

ghost use Rattle.std.specs.Prelude.{◌≡◌, ◌≤◌, [], IfOk, OnErr, length, map};
ghost use Rattle.host.specs.internal.Endings.{status_of};
ghost use Rattle.command_line.specs.Settings.{values_in};
ghost use Rattle.command_line.specs.declared.orders.Action.TheVariants.{Run};
ghost use Rattle.sources.specs.Programs.{IsProgramOf, program_modules, texts_of};
ghost use Rattle.sources.specs.declared.sources.TheConstants.{MOST_SOURCES};
ghost use Rattle.commands.specs.Map.{map_if};
ghost use Rattle.commands.specs.Running.{PrintsBuilt, StopsBuilt};
ghost use Rattle.commands.specs.internal.Outcomes.{EndsRun};

use crate::image_runs::print_image;
use crate::places::{Places, ProgramLines};
use crate::programs::interpreting::print_meaning;
use crate::programs::map::print_map;
use command_line::{Action, ProgramOrder, Settings};
use host::{Ending, Failure, WriteFault};
use listings::code_lines;
use std::alloc::Global;
use std::io::Write;
use tool::{Built, Source};

/// Prints the map of a program, where one is wanted, and then what the program does, as it was ordered; and gathers the bytes
/// for the files of ports. The answer is how the command ends. After a failure a beginning of that was printed.
#[tactic(auto, using(crate::proofs::Printed::with_map, crate::proofs::Printed::prints_without_map, crate::proofs::Printed::map_stops, crate::proofs::Printed::stops_with_map, crate::proofs::Printed::stops_alone))]
pub(crate) fn print_built<O: Write>(
    alloc: Global,
    order: &ProgramOrder,
    settings: &Settings,
    built: &Built,
    sources: &[Source],
    outputs: &mut Vec<Vec<u8>>,
    out: &mut O,
) -> Result<Ending, Failure<WriteFault>>
    requires few { length sources.now ≤ MOST_SOURCES }
    requires program { IsProgramOf (texts_of sources.now) (program_modules built.now.program) }
    ensures ok { IfOk result (λ ending. PrintsBuilt order.now.action
        (map_if order.now.map built.now) (values_in settings.now) built.now
        (status_of ending) (map (λ output. output.items) outputs.new.items)
        (O.contents out.old) (O.contents out.new)) }
    ensures ended { IfOk result EndsRun }
    ensures err { OnErr result (StopsBuilt order.now.action
        (map_if order.now.map built.now) (values_in settings.now) built.now
        (O.contents out.old) (O.contents out.new)) }
{
    if order.map {
        print_map(alloc, built, out)?;
    }
    let ending = print_program(alloc, order.action, settings, built, sources, outputs, out)?;
    Ok(ending)
}

// Prints what a program does. After a failure a beginning of that was printed.
fn print_program<O: Write>(
    alloc: Global,
    action: Action,
    settings: &Settings,
    built: &Built,
    sources: &[Source],
    outputs: &mut Vec<Vec<u8>>,
    out: &mut O,
) -> Result<Ending, Failure<WriteFault>>
    requires few { length sources.now ≤ MOST_SOURCES }
    requires program { IsProgramOf (texts_of sources.now) (program_modules built.now.program) }
    ensures ok { IfOk result (λ ending. PrintsBuilt action [] (values_in settings.now) built.now
        (status_of ending) (map (λ output. output.items) outputs.new.items)
        (O.contents out.old) (O.contents out.new)) }
    ensures ended { IfOk result EndsRun }
    ensures err { OnErr result (StopsBuilt action [] (values_in settings.now) built.now
        (O.contents out.old) (O.contents out.new)) }
{
    match action {
        Action::Run => print_run(alloc, settings, built, sources, outputs, out),
        Action::Interpret => print_meaning(alloc, settings, built, sources, outputs, out),
    }
}

// Prints what the image of a program does on a memory as values start it, and at which line it stood at its end, where that
// is wanted. After a failure a beginning of that was printed.
#[tactic(auto, using(crate::proofs::Printed::nothing_stops, crate::proofs::PlacesTold::its_lines))]
fn print_run<O: Write>(
    alloc: Global,
    settings: &Settings,
    built: &Built,
    sources: &[Source],
    outputs: &mut Vec<Vec<u8>>,
    out: &mut O,
) -> Result<Ending, Failure<WriteFault>>
    requires few { length sources.now ≤ MOST_SOURCES }
    requires program { IsProgramOf (texts_of sources.now) (program_modules built.now.program) }
    ensures ok { IfOk result (λ ending. PrintsBuilt Run [] (values_in settings.now) built.now
        (status_of ending) (map (λ output. output.items) outputs.new.items)
        (O.contents out.old) (O.contents out.new)) }
    ensures ended { IfOk result EndsRun }
    ensures err { OnErr result (StopsBuilt Run [] (values_in settings.now) built.now
        (O.contents out.old) (O.contents out.new)) }
{
    let image = built.image();
    if !settings.watch.place {
        return print_image(alloc, image, settings, &Places::Addresses, outputs, out);
    }
    let Ok(lines) = code_lines(alloc, built, sources) else {
        return Err(Failure::Memory);
    };
    let places = Places::Lines(ProgramLines {
        program: built.program(),
        lines: &lines,
    });
    print_image(alloc, image, settings, &places, outputs, out)
}
