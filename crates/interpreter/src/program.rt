//! Interpreting a program.

ghost use Rattle.std.specs.Prelude.{◌≡◌, ◌-◌, All, IfErr, IfOk, OnErr, OnOk};
ghost use Rattle.ports.specs.Events.{IsBeginning};
ghost use Rattle.typed_trees.specs.Jumps.{JumpsAreSound};
ghost use Rattle.layout.specs.StartingMemory.{starting_memory};
ghost use Rattle.placing.specs.Views.{placement_view};
ghost use Rattle.join.specs.Views.{modules_in};
ghost use Rattle.meaning.specs.Run.{source_run};
ghost use Rattle.stack_machine.specs.Ends.{FaultCounts, stop_of};
ghost use Rattle.interpreter.specs.Budgets.{FailsAt, Uses};

use crate::contents::fill;
use crate::main_module::main_module;
use join::Joined;
use mem80::Memory;
use placing::{ByteKinds, Placement};
use ports::Ports;
use resolving::Program;
use stack_compiler::compile;
use stack_machine::{RunFault, SourceEnd, run};
use std::alloc::{AllocError, Global};

/// Interprets a joined program that lies at a placement: from a memory, in which its initial values and constants are put
/// first; with so much room on the stack, in bytes; with these ports; and with a budget of turns of loops, jumps and calls,
/// which becomes what is left of it. Where no port fails it does just what the program means. After a fault, of a port or of
/// memory, the events are a beginning of those, and the events that there were before stay. A port that failed is the next
/// one that the program reads or writes. `at` becomes the number of the instruction at which the run stands at its end, among
/// those that `stack_marks` speaks of; it stays as it is if there is no memory to begin, or no main program.
#[tactic(auto, using(crate::proofs::Runs::stops_as_meant, crate::proofs::Runs::events_begun, crate::proofs::Runs::ends_without_main, crate::proofs::Runs::ended_with_none))]
pub fn interpret<P: Ports>(
    alloc: Global,
    joined: &Joined,
    placement: &Placement,
    room: u16,
    memory: Memory,
    ports: &mut P,
    budget: &mut u64,
    at: &mut usize,
) -> Result<SourceEnd, RunFault>
    requires jumps { All JumpsAreSound (modules_in joined.now) }
    ensures meaning { IfOk result (λ end.
        source_run (modules_in joined.now) (placement_view placement.now) room memory
        (P.script ports.old) (P.events ports.old) budget.old
        ≡ record { end = stop_of end; events = P.events ports.new }) }
    ensures beginning { OnErr result (IsBeginning (P.events ports.new)
        (source_run (modules_in joined.now) (placement_view placement.now) room memory
        (P.script ports.old) (P.events ports.old) budget.old).events) }
    ensures used { IfOk result (λ end. Uses
        (source_run (modules_in joined.now) (placement_view placement.now) room memory
        (P.script ports.old) (P.events ports.old))
        budget.old (stop_of end) (budget.old - budget.new)) }
    ensures called { IfErr result (λ fault. FailsAt
        (source_run (modules_in joined.now) (placement_view placement.now) room memory
        (P.script ports.old) (P.events ports.old))
        budget.old fault (P.events ports.new) (budget.old - budget.new)) }
    ensures kept { IsBeginning (P.events ports.old) (P.events ports.new) }
    ensures count { OnOk result (P.failures ports.new ≡ P.failures ports.old) }
    ensures failed { IfErr result (λ fault. FaultCounts fault (P.failures ports.old) (P.failures ports.new)) }
    ensures script { P.script ports.new ≡ P.script ports.old }
{
    let mut memory = memory;
    let Ok(()) = put_contents(alloc, joined, placement, &mut memory) else {
        return Err(RunFault::Memory);
    };
    let Ok(program) = compile(alloc, joined, placement) else {
        return Err(RunFault::Memory);
    };
    let Ok(kinds) = ByteKinds::new(alloc, joined, placement) else {
        return Err(RunFault::Memory);
    };
    match main_module(joined.modules()) {
        Some(found) => run(
            alloc,
            &program,
            joined,
            placement,
            &kinds,
            found.typed,
            found.number,
            room,
            memory,
            budget,
            ports,
            at,
        ),
        None => Ok(SourceEnd::Ended),
    }
}

// Puts the initial values and the constants of a program into a memory.
fn put_contents(
    alloc: Global,
    joined: &Joined,
    placement: &Placement,
    memory: &mut Memory,
) -> Result<(), AllocError>
    ensures { OnOk result (memory.new
        ≡ starting_memory (modules_in joined.now) (placement_view placement.now) memory.old) }
{
    let program = Program::new(alloc, joined, placement)?;
    fill(&program, memory);
    Ok(())
}
