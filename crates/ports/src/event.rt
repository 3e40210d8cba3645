//! Ports, and what happens at them.

ghost use Rattle.std.specs.Prelude.{◌≡◌, ℕ, List, IfOk, OnOk, OnErr};
ghost use Rattle.ports.specs.declared.event.Event.{Event};
ghost use Rattle.ports.specs.Events.{read_event, write_event, AddsEvent, CountsFailure};
ghost use Rattle.ports.specs.Input.{IsScript, input_value};

use thiserror::Error;

/// A read or a write of a port, with the byte that went through.
#[derive(Clone, Copy, Debug)]
pub struct Event {
    /// Whether the machine wrote the byte, and did not read it.
    pub write: bool,
    /// The number of the port.
    pub port: u8,
    /// The byte.
    pub value: u8,
}

/// A port did not answer.
#[derive(Clone, Copy, Debug, PartialEq, Eq, Error)]
#[error("a port failed")]
pub struct PortFault;

/// The 256 ports of a machine, which IN reads and OUT writes. Their meaning is a script, which is one queue
/// of bytes for each port, the events so far, and a count of the failures, which stays at
/// 18446744073709551615 once it is there.
pub trait Ports {
    ghost script: { Self → List (List ℕ) };

    ghost events: { Self → List Event };

    ghost failures: { Self → ℕ };

    /// Reads a port: byte k of its queue after k reads of it, or 255 past the end of the queue. An `Ok` adds
    /// one event, and an `Err` one failure and no event.
    fn input(&mut self, port: u8) -> Result<u8, PortFault>
        ensures value { IfOk result (λ v. v ≡ input_value (script self.old) (events self.old) port) }
        ensures ok { IfOk result (λ v. AddsEvent (events self.old) (events self.new) (read_event port v)) }
        ensures count { OnOk result (failures self.new ≡ failures self.old) }
        ensures err { OnErr result (events self.new ≡ events self.old) }
        ensures failed { OnErr result (CountsFailure (failures self.old) (failures self.new)) }
        ensures kept { script self.new ≡ script self.old };

    /// Writes a byte to a port. An `Ok` adds one event, and an `Err` one failure and no event.
    fn output(&mut self, port: u8, value: u8) -> Result<(), PortFault>
        ensures ok { OnOk result (AddsEvent (events self.old) (events self.new) (write_event port value)) }
        ensures count { OnOk result (failures self.new ≡ failures self.old) }
        ensures err { OnErr result (events self.new ≡ events self.old) }
        ensures failed { OnErr result (CountsFailure (failures self.old) (failures self.new)) }
        ensures kept { script self.new ≡ script self.old };

    // Each queue of the script holds bytes.
    ghost holds_bytes: { (ports : Self) → IsScript (script ports) };
}
