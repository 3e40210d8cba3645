//! Reads and writes of ports.

ghost use Rattle.std.specs.Prelude.{◌≡◌, ◌∷◌, ◌+◌, ◌<◌, ◌%◌, IfErr, OnErr, OnOk};
ghost use Rattle.ports.specs.Events.{AddsEvent, read_event, write_event};
ghost use Rattle.ports.specs.Input.{input_value};
ghost use Rattle.stack_code.specs.internal.Machine.{top};
ghost use Rattle.stack_machine.specs.Ends.{FaultCounts};
ghost use Rattle.stack_machine.specs.internal.Performs.{IsFaultOfInput, IsFaultOfOutput};

use crate::end::RunFault;
use crate::machine::StackMachine;
use ports::Ports;

impl<'a> StackMachine<'a> {
    /// Puts the next byte of a port on the stack. There is a place for it before the port is read.
    pub fn input<P: Ports>(&mut self, port: u8, ports: &mut P) -> Result<(), RunFault>
        requires { self.old.at < usize.MAX }
        ensures after { OnOk result (self.new ≡ record self.old {
          at = self.old.at + 1;
          values = input_value (P.script ports.old) (P.events ports.old) port ∷ self.old.values;
        }) }
        ensures event { OnOk result (AddsEvent (P.events ports.old) (P.events ports.new)
            (read_event port (input_value (P.script ports.old) (P.events ports.old) port))) }
        ensures count { OnOk result (P.failures ports.new ≡ P.failures ports.old) }
        ensures none { OnErr result (P.events ports.new ≡ P.events ports.old) }
        ensures called { IfErr result (IsFaultOfInput port) }
        ensures left { self.new.budget ≡ self.old.budget }
        ensures failed { IfErr result (λ fault.
            FaultCounts fault (P.failures ports.old) (P.failures ports.new)) }
        ensures script { P.script ports.new ≡ P.script ports.old }
    {
        if let Err(_) = self.values.push(0) {
            return Err(RunFault::Memory);
        }
        match ports.input(port) {
            Ok(byte) => {
                self.values.replace(byte as u16);
                self.at += 1;
                Ok(())
            }
            Err(_) => Err(RunFault::Input(port)),
        }
    }

    /// Writes the low byte of the value on top to a port.
    pub fn output<P: Ports>(&mut self, port: u8, ports: &mut P) -> Result<(), RunFault>
        requires { self.old.at < usize.MAX }
        ensures after { OnOk result (self.new ≡ record self.old { at = self.old.at + 1 }) }
        ensures event { OnOk result (AddsEvent (P.events ports.old) (P.events ports.new)
            (write_event port (top self.old.values % 256))) }
        ensures count { OnOk result (P.failures ports.new ≡ P.failures ports.old) }
        ensures none { OnErr result (P.events ports.new ≡ P.events ports.old) }
        ensures called { IfErr result (IsFaultOfOutput port) }
        ensures left { self.new.budget ≡ self.old.budget }
        ensures failed { IfErr result (λ fault.
            FaultCounts fault (P.failures ports.old) (P.failures ports.new)) }
        ensures script { P.script ports.new ≡ P.script ports.old }
    {
        let byte = (self.values.top() % 256) as u8;
        match ports.output(port, byte) {
            Ok(()) => {
                self.at += 1;
                Ok(())
            }
            Err(_) => Err(RunFault::Output(port)),
        }
    }
}
