//! The devices of this machine: a counter and a line printer.

ghost use Rattle.std.specs.Prelude.{◌≡◌, [], min, OnOk, OnErr};
ghost use Rattle.ports.specs.Events.{AddsEvent, CountsFailure};
ghost use Rattle.ports.specs.Input.{reads_of};
ghost use Rattle.example_libraries.specs.Counter.{counter_script};
ghost use Rattle.example_libraries.specs.internal.CounterBytes.{counter_holds_bytes};

use ports::{Event, PortFault, Ports};
use std::alloc::Global;

/// The input port of the counter, which gives 0, 1, 2 and so on up to 255, and then 255 again and again.
pub const COUNTER: u8 = 1;

/// The output port of the line printer.
pub const PRINTER: u8 = 2;

/// A counter at port 1, a line printer at port 2, and nothing at the other ports: they give 255 and take any
/// byte.
#[derive(Drop)]
pub struct Devices {
    /// What happened at the ports, the first event first.
    log: Vec<Event>,
    /// How often a port failed.
    failed: u64,
    /// What the counter gives next.
    count: u8,
    /// What the printer has printed.
    paper: String,
    ghost counted: { count ≡ min (reads_of log.items 1) 255 },
}

impl Devices {
    /// Devices at which nothing has happened yet.
    pub fn new(alloc: Global) -> Devices
        ensures { result.log.items ≡ [] }
    {
        Devices {
            log: Vec::new(alloc),
            failed: 0,
            count: 0,
            paper: String::new(alloc),
        }
    }

    /// What the printer has printed.
    pub fn paper(&self) -> &str {
        self.paper.as_str()
    }

    /// What happened at the ports, the first event first.
    pub fn log(&self) -> &[Event]
        ensures { result.now ≡ self.now.log.items }
    {
        self.log.as_slice()
    }
}

// `Ports` says what a machine may rely on: a read gives the next byte of the port's queue, and each answer
// adds one event. `script` is what the queues are, `events` what happened so far, and `failures` how often a
// port failed.
impl Ports for Devices {
    ghost script = { λ devices. counter_script };

    ghost events = { λ devices. devices.log.items };

    ghost failures = { λ devices. devices.failed };

    ghost holds_bytes = { λ devices. counter_holds_bytes };

    #[tactic(auto, using(crate::proofs::DevicesLemmas::counter))]
    fn input(&mut self, port: u8) -> Result<u8, PortFault> {
        let value = if port == COUNTER { self.count } else { 255 };
        let read = Event {
            write: false,
            port,
            value,
        };
        add_event(&mut self.log, &mut self.failed, read)?;
        if port == COUNTER {
            self.count = self.count.saturating_add(1);
        }
        Ok(value)
    }

    // The printer takes its memory before the event is made, so that a failure leaves both as they were.
    fn output(&mut self, port: u8, value: u8) -> Result<(), PortFault> {
        if port == PRINTER {
            print_byte(&mut self.paper, &mut self.failed, value)?;
        }
        let written = Event {
            write: true,
            port,
            value,
        };
        let answer = add_event(&mut self.log, &mut self.failed, written);
        if answer.is_err() && port == PRINTER {
            let _ = self.paper.pop();
        }
        answer
    }
}

// Prints a byte as the character with that code, or counts a failure where the host has no memory for it.
fn print_byte(paper: &mut String, failed: &mut u64, byte: u8) -> Result<(), PortFault>
    ensures count { OnOk result (failed.new ≡ failed.old) }
    ensures failed { OnErr result (CountsFailure failed.old failed.new) }
{
    match paper.push(byte as char) {
        Ok(()) => Ok(()),
        Err(_) => {
            *failed = failed.saturating_add(1);
            Err(PortFault)
        }
    }
}

// Adds an event, or counts a failure where the host has no memory for it.
fn add_event(log: &mut Vec<Event>, failed: &mut u64, event: Event) -> Result<(), PortFault>
    ensures ok { OnOk result (AddsEvent log.old.items log.new.items event) }
    ensures count { OnOk result (failed.new ≡ failed.old) }
    ensures err { OnErr result (log.new.items ≡ log.old.items) }
    ensures failed { OnErr result (CountsFailure failed.old failed.new) }
{
    match log.push(event) {
        Ok(()) => Ok(()),
        Err(_) => {
            *failed = failed.saturating_add(1);
            Err(PortFault)
        }
    }
}
