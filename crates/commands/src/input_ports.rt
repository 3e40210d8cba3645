//! Ports of runs: those that give the bytes of an input and fail at a read past it, and others.

ghost use Rattle.std.specs.Prelude.{◌≡◌, ℕ, Bool, [], false, true, length};
ghost use Rattle.commands.specs.Ends.{GivesInput, bytes_to};
ghost use Rattle.commands.specs.Steps.{IsWithinInput};
ghost use Rattle.commands.specs.internal.InputPorts.{HasMore, IsPast, left_at};

use command_line::InputByte;
use ports::{Event, PortFault, Ports, Script};
use std::marker::Model;

// How many ports a machine has.
const PORTS: usize = 256;

/// Ports of a run, which may be to end before it reads past its input.
pub(crate) trait RunPorts: Ports {
    // Whether it is to end there.
    ghost until_dry: { Bool };

    /// The events so far, the first one first.
    fn log(&self) -> &[Event]
        ensures { result.now ≡ Self.events self.now };

    /// Whether a read, of this port, is one before which the run ends: whether all bytes of the port were read.
    fn is_past(&self, read: Option<u8>) -> bool
        ensures within { until_dry ≡ true → IsWithinInput (Self.script self.now) (Self.events self.now) }
        ensures ending { result ≡ true → until_dry ≡ true }
        ensures past { result ≡ true → IsPast read (Self.script self.now) (Self.events self.now) }
        ensures more { until_dry ≡ true → result ≡ false →
            HasMore read (Self.script self.now) (Self.events self.now) };
}

impl RunPorts for Script {
    ghost until_dry = { false };

    fn log(&self) -> &[Event] {
        self.events()
    }

    fn is_past(&self, _read: Option<u8>) -> bool {
        false
    }
}

/// The ports of a script, how many bytes each has left, and how often a read or a write failed.
#[derive(Drop)]
pub(crate) struct InputPorts {
    script: Script,
    left: [u64; PORTS],
    failed: u64,
}

impl Model for InputPorts {
    ghost use Rattle.ports.specs.Session.{Session};
    ghost use Rattle.commands.specs.internal.InputPorts.{IsLeft};

    ghost Value = { Session };

    ghost view = { λ ports. record {
      script = ports.script.script;
      events = ports.script.events;
      failures = ports.failed;
      bytes = ports.script.bytes;
    } };

    ghost invariant = { λ ports. IsLeft ports.script.script ports.script.events ports.left };
}

// How many bytes of an input each port gives.
#[tactic(auto, using(crate::proofs::PortReads::none_counted, crate::proofs::PortReads::one_counted, crate::proofs::PortReads::all_counted))]
fn bytes_left(input: &[InputByte]) -> [u64; PORTS]
    ensures { (port : ℕ) → left_at result port ≡ length (bytes_to port input.now) }
{
    let mut left = [0; PORTS];
    let mut rest = input;
    while let [one, more @ ..] = rest {
        left[one.port as usize] += 1;
        rest = more;
    }
    left
}

impl InputPorts {
    /// The ports of a script that gives these bytes, before any event.
    #[tactic(auto, using(crate::proofs::PortReads::all_left))]
    pub(crate) fn new(script: Script, input: &[InputByte]) -> InputPorts
        requires gives { GivesInput input.now script.script }
        requires none { script.events ≡ [] }
        ensures script { result.script ≡ script.script }
        ensures events { result.events ≡ [] }
        ensures failures { result.failures ≡ 0 }
    {
        InputPorts {
            script,
            left: bytes_left(input),
            failed: 0,
        }
    }
}

impl RunPorts for InputPorts {
    ghost until_dry = { true };

    fn log(&self) -> &[Event] {
        self.script.events()
    }

    #[tactic(auto, using(crate::proofs::PortReads::left_within, crate::proofs::PortReads::none_left, crate::proofs::PortReads::some_left))]
    fn is_past(&self, read: Option<u8>) -> bool {
        let left = &self.left;
        match read {
            Some(port) => left[port as usize] == 0,
            None => false,
        }
    }
}

impl Ports for InputPorts {
    ghost script = { λ ports. ports.script };

    ghost events = { λ ports. ports.events };

    ghost failures = { λ ports. ports.failures };

    ghost holds_bytes = { λ ports. ports.bytes };

    #[tactic(auto, using(crate::proofs::PortReads::read_left))]
    fn input(&mut self, port: u8) -> Result<u8, PortFault> {
        let left = self.left[port as usize];
        if left == 0 {
            self.failed = self.failed.saturating_add(1);
            return Err(PortFault);
        }
        match self.script.input(port) {
            Ok(value) => {
                self.left[port as usize] = left - 1;
                Ok(value)
            }
            Err(fault) => {
                self.failed = self.failed.saturating_add(1);
                Err(fault)
            }
        }
    }

    #[tactic(auto, using(crate::proofs::PortReads::write_left))]
    fn output(&mut self, port: u8, value: u8) -> Result<(), PortFault> {
        match self.script.output(port, value) {
            Ok(()) => Ok(()),
            Err(fault) => {
                self.failed = self.failed.saturating_add(1);
                Err(fault)
            }
        }
    }
}
