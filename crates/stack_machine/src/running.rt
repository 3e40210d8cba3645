//! Runs of programs.

ghost use Rattle.std.specs.Prelude.{◌≡◌, IfErr, IfOk, OnErr, OnOk};
ghost use Rattle.typed_trees.specs.Views.{module_view};
ghost use Rattle.placing.specs.Views.{placement_view};
ghost use Rattle.declared.specs.internal.Access.{AreKindsOf};
ghost use Rattle.join.specs.Views.{modules_in};
ghost use Rattle.stack_code.specs.internal.Program.{AreTablesOf};
ghost use Rattle.stack_code.specs.internal.Run.{stack_run, start_surroundings};
ghost use Rattle.stack_machine.specs.Ends.{FaultCounts, stop_of};
ghost use Rattle.stack_machine.specs.internal.Runs.{Reaches, ReachesFault, Stops, state_at_start};

use crate::calls::Calls;
use crate::end::{RunFault, SourceEnd};
use crate::loaded::Loaded;
use crate::machine::StackMachine;
use crate::slots::slots_of;
use crate::values::Values;
use declared::Frames;
use join::Joined;
use meaning::Reason;
use mem80::Memory;
use placing::{ByteKinds, Placement};
use ports::Ports;
use stack_code::StackProgram;
use std::alloc::Global;
use typed_trees::{Typed, charge_of};

/// Runs a program from its main module on, which has this number: from a memory, with room on the stack and a budget
/// of turns of loops, jumps and calls. The charge of the main module is taken first. `kinds` tells each byte of memory apart at
/// the placement. `at` becomes the number of the instruction at which the machine stands at the end, 0 if it does not start.
#[tactic(auto, using(crate::proofs::Starts::refused, crate::proofs::Starts::given_up, crate::proofs::Starts::runs_on, crate::proofs::Starts::run_reaches, crate::proofs::Starts::fails_on, crate::proofs::Leading::out_of_memory))]
pub fn run<'a, P: Ports>(
    alloc: Global,
    program: &'a StackProgram,
    joined: &'a Joined,
    placement: &'a Placement,
    kinds: &'a ByteKinds,
    main: &Typed,
    number_of_main: usize,
    room: u16,
    memory: Memory,
    budget: &mut u64,
    ports: &mut P,
    at: &mut usize,
) -> Result<SourceEnd, RunFault>
    requires kinds { AreKindsOf joined.now placement.now kinds.now }
    requires tables { AreTablesOf
        (modules_in joined.now)
        (program.now).instructions.items
        (program.now).modules.items }
    ensures ended { IfOk result (λ end.
        Stops (stack_run (program.now).instructions.items (module_view main.now)
        (start_surroundings (modules_in joined.now) (placement_view placement.now) (P.script ports.old)
        number_of_main room)
        (state_at_start memory (P.events ports.old) budget.old))
        (stop_of end) (P.events ports.new) budget.new) }
    ensures count { OnOk result (P.failures ports.new ≡ P.failures ports.old) }
    ensures reached { OnErr result (Reaches (stack_run (program.now).instructions.items (module_view main.now)
        (start_surroundings (modules_in joined.now) (placement_view placement.now) (P.script ports.old)
        number_of_main room)
        (state_at_start memory (P.events ports.old) budget.old))
        (P.events ports.new)) }
    ensures called { IfErr result (λ fault.
        ReachesFault (stack_run (program.now).instructions.items (module_view main.now)
        (start_surroundings (modules_in joined.now) (placement_view placement.now) (P.script ports.old)
        number_of_main room)
        (state_at_start memory (P.events ports.old) budget.old))
        fault (P.events ports.new) budget.new) }
    ensures failed { IfErr result (λ fault. FaultCounts fault (P.failures ports.old) (P.failures ports.new)) }
    ensures script { P.script ports.new ≡ P.script ports.old }
{
    *at = 0;
    let charge = charge_of(&main.main);
    if (room as u32) < charge {
        return Ok(SourceEnd::Outside(Reason::Stack));
    }
    let Ok(slots) = slots_of(alloc, joined) else {
        return Err(RunFault::Memory);
    };
    let mut machine = StackMachine {
        at: 0,
        number_of_module: number_of_main,
        room: room - charge as u16,
        budget: *budget,
        values: Values::new(alloc),
        calls: Calls::new(alloc),
        memory,
        frames: Frames::new(alloc),
    };
    let loaded = Loaded {
        joined,
        placement,
        kinds,
        slots: slots.as_slice(),
        code: program.instructions.as_slice(),
        tables: program.modules.as_slice(),
    };
    let result = machine.go_on(loaded, ports);
    *budget = machine.budget;
    *at = machine.at;
    result
}
