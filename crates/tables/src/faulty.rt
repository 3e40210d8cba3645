//! Ports with one read that fails.

ghost use Rattle.std.specs.Prelude.{◌≡◌};
ghost use Rattle.ports.specs.Events.{CountsFailure};

use ports::{PortFault, Ports, Script};
use std::alloc::Global;

/// The ports of a script. The read with a number, counted from 0, fails once.
#[derive(Drop)]
pub struct FaultyPorts {
    pub script: Script,
    /// How many reads come before the one that fails.
    pub good_reads: u64,
    /// How many calls failed.
    pub failed: u64,
}

impl FaultyPorts {
    /// Ports whose second read fails. Port 1 gives 9 and then 4, if there is memory for them.
    pub fn with_two_inputs(alloc: Global) -> FaultyPorts {
        let mut script = Script::new(alloc);
        let is_pushed = script.push_input(1, 9).is_ok() && script.push_input(1, 4).is_ok();
        FaultyPorts {
            script,
            good_reads: if is_pushed { 1 } else { 0 },
            failed: 0,
        }
    }

    // Counts a failure.
    fn count_failure(&mut self)
        ensures script { self.new.script ≡ self.old.script }
        ensures failed { CountsFailure self.old.failed self.new.failed }
    {
        self.failed = self.failed.saturating_add(1);
    }
}

impl Ports for FaultyPorts {
    ghost script = { λ p. p.script.script };

    ghost events = { λ p. p.script.events };

    ghost failures = { λ p. p.failed };

    ghost holds_bytes = { λ p. p.script.bytes };

    fn input(&mut self, port: u8) -> Result<u8, PortFault> {
        if self.good_reads == 0 && self.failed == 0 {
            self.count_failure();
            return Err(PortFault);
        }
        self.good_reads = self.good_reads.saturating_sub(1);
        match self.script.input(port) {
            Ok(value) => Ok(value),
            Err(_) => {
                self.count_failure();
                Err(PortFault)
            }
        }
    }

    fn output(&mut self, port: u8, value: u8) -> Result<(), PortFault> {
        match self.script.output(port, value) {
            Ok(()) => Ok(()),
            Err(_) => {
                self.count_failure();
                Err(PortFault)
            }
        }
    }
}
