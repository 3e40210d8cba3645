//! IN and OUT. They stay functions of their own, so that the machine's loop is the same code with all kinds of ports.

ghost use Rattle.std.specs.Prelude.{◌≡◌, OnOk, OnErr};
ghost use Rattle.mem80.specs.Memory.{byte_at};
ghost use Rattle.ports.specs.Events.{read_event, write_event, AddsEvent, CountsFailure};
ghost use Rattle.ports.specs.Input.{input_value};

use crate::flags::MachineRegisters;
use crate::machine_memory::MachineMemory;
use ports::{PortFault, Ports};

/// IN: reads the port whose number is at a place into the accumulator.
#[inline(never)]
pub fn input<P: Ports, M: MachineMemory>(
    place: u16,
    registers: &mut MachineRegisters,
    memory: &M,
    ports: &mut P,
) -> Result<(), PortFault>
    ensures ok { OnOk result
        (registers.new
        ≡ record registers.old {
          a = input_value (P.script ports.old) (P.events ports.old) (byte_at (M.bytes memory.now) place);
        }) }
    ensures event { OnOk result
        (AddsEvent
        (P.events ports.old)
        (P.events ports.new)
        (read_event
        (byte_at (M.bytes memory.now) place)
        (input_value (P.script ports.old) (P.events ports.old) (byte_at (M.bytes memory.now) place)))) }
    ensures count { OnOk result (P.failures ports.new ≡ P.failures ports.old) }
    ensures same { OnErr result (registers.new ≡ registers.old) }
    ensures none { OnErr result (P.events ports.new ≡ P.events ports.old) }
    ensures failed { OnErr result (CountsFailure (P.failures ports.old) (P.failures ports.new)) }
    ensures script { P.script ports.new ≡ P.script ports.old }
{
    let value = ports.input(memory.get(place))?;
    registers.a = value;
    Ok(())
}

/// OUT: writes the accumulator to the port whose number is at a place.
#[inline(never)]
pub fn output<P: Ports, M: MachineMemory>(
    place: u16,
    registers: &MachineRegisters,
    memory: &M,
    ports: &mut P,
) -> Result<(), PortFault>
    ensures event { OnOk result
        (AddsEvent
        (P.events ports.old)
        (P.events ports.new)
        (write_event (byte_at (M.bytes memory.now) place) registers.now.a)) }
    ensures count { OnOk result (P.failures ports.new ≡ P.failures ports.old) }
    ensures none { OnErr result (P.events ports.new ≡ P.events ports.old) }
    ensures failed { OnErr result (CountsFailure (P.failures ports.old) (P.failures ports.new)) }
    ensures script { P.script ports.new ≡ P.script ports.old }
{
    ports.output(memory.get(place), registers.a)
}
