//! Ports that read from queues and keep what happened.

ghost use Rattle.std.specs.Prelude.{◌≡◌, ℕ, ◌<◌, [], length, slice_index, slice_index_or, IfOk, OnOk, OnErr};
ghost use Rattle.ports.specs.declared.script.TheConstants.{PORTS};
ghost use Rattle.ports.specs.Events.{AddsEvent, CountsFailure};
ghost use Rattle.ports.specs.Input.{AddsByte, IsScript, input_value};
ghost use Rattle.ports.specs.internal.Queues.{bytes_of, AreEmpty};

use crate::event::{Event, PortFault, Ports};
use std::alloc::Global;
use std::marker::Model;

/// How many ports an 8080 has.
const PORTS: usize = 256;

/// Ports of which each reads from a queue of bytes, and which keep the events so far. A read or a write fails
/// only where the host has no memory for its event.
#[derive(Drop)]
pub struct Script {
    alloc: Global,
    queues: Vec<Vec<u8>>,
    reads: [u64; PORTS],
    log: Vec<Event>,
    failed: u64,
    ghost bytes: { IsScript (bytes_of queues.items) },
}

impl Model for Script {
    ghost use Rattle.ports.specs.Session.{Session};

    ghost Value = { Session };

    ghost use Rattle.ports.specs.internal.Fields.{session_of, KeepsReads};

    ghost view = { session_of };

    ghost invariant = { KeepsReads };
}

impl Script {
    /// A script with no inputs, before any event and any failure. Takes no memory.
    pub fn new(alloc: Global) -> Script
        ensures script { result.script ≡ [] }
        ensures events { result.events ≡ [] }
        ensures failures { result.failures ≡ 0 }
    {
        Script {
            alloc,
            queues: Vec::new(alloc),
            reads: no_reads(),
            log: Vec::new(alloc),
            failed: 0,
        }
    }

    /// Adds a byte at the end of a port's queue, which a later read of that port gives. Out of memory, it
    /// changes nothing.
    #[tactic(auto, using(crate::proofs::Sessions::same_session))]
    pub fn push_input(&mut self, port: u8, byte: u8) -> Result<(), PortFault>
        ensures ok { OnOk result (AddsByte self.old.script self.new.script port byte) }
        ensures events { self.new.events ≡ self.old.events }
        ensures failures { self.new.failures ≡ self.old.failures }
        ensures err { OnErr result (self.new ≡ self.old) }
    {
        if self.queues.is_empty() {
            let mut queues = empty_queues(self.alloc)?;
            push_at(&mut queues, port, byte)?;
            self.queues = queues;
            Ok(())
        } else {
            push_at(&mut self.queues, port, byte)
        }
    }

    /// The events so far, the first one first.
    pub fn events(&self) -> &[Event]
        ensures events { result.now ≡ self.now.events }
        ensures bytes { IsScript self.now.script }
    {
        self.log.as_slice()
    }

    // What the next read of a port gives.
    fn next_input(&self, port: u8) -> u8
        ensures { result ≡ input_value self.now.script self.now.events port }
    {
        match self.queues.get(port as usize) {
            Some(queue) => byte_at(queue, self.reads[port as usize]),
            None => 255,
        }
    }
}

impl Ports for Script {
    ghost script = { λ s. s.script };

    ghost events = { λ s. s.events };

    ghost failures = { λ s. s.failures };

    ghost holds_bytes = { λ s. s.bytes };

    #[tactic(auto, using(crate::proofs::ScriptLemmas::counts_read))]
    fn input(&mut self, port: u8) -> Result<u8, PortFault> {
        let value = self.next_input(port);
        let read = Event {
            write: false,
            port,
            value,
        };
        add_event(&mut self.log, &mut self.failed, read)?;
        self.reads[port as usize] += 1;
        Ok(value)
    }

    fn output(&mut self, port: u8, value: u8) -> Result<(), PortFault> {
        let written = Event {
            write: true,
            port,
            value,
        };
        add_event(&mut self.log, &mut self.failed, written)
    }
}

// Adds an event, or counts a failure where there is no memory for it.
fn add_event(log: &mut Vec<Event>, failed: &mut u64, event: Event) -> Result<(), PortFault>
    ensures ok { OnOk result (AddsEvent log.old.items log.new.items event) }
    ensures count { OnOk result (failed.new ≡ failed.old) }
    ensures err { OnErr result (log.new.items ≡ log.old.items) }
    ensures failed { OnErr result (CountsFailure failed.old failed.new) }
{
    match log.push(event) {
        Ok(()) => Ok(()),
        Err(_) => {
            *failed = failed.saturating_add(1);
            Err(PortFault)
        }
    }
}

// A count of 0 for each port.
fn no_reads() -> [u64; PORTS]
    ensures { (port : ℕ) → port < PORTS → slice_index result port ≡ 0 }
{
    [0; PORTS]
}

// The byte of a queue after so many reads, or 255 past its end.
fn byte_at(queue: &[u8], reads: u64) -> u8
    ensures { result ≡ slice_index_or queue.now reads 255 }
{
    queue.get(reads as usize).copied().unwrap_or(255)
}

// A queue for each port, with no byte.
fn empty_queues(alloc: Global) -> Result<Vec<Vec<u8>>, PortFault>
    ensures size { IfOk result (λ queues. length queues.items ≡ PORTS) }
    ensures empty { IfOk result (λ queues. AreEmpty queues.items) }
{
    let mut queues = Vec::new(alloc);
    for _ in 0..PORTS {
        queues.push(Vec::new(alloc)).map_err(|_| PortFault)?;
    }
    Ok(queues)
}

// Adds a byte at the end of one of the queues. Out of memory, it changes nothing.
#[tactic(auto, using(crate::proofs::ScriptLemmas::adds_byte_at, crate::proofs::ScriptLemmas::same_bytes_at))]
fn push_at(queues: &mut Vec<Vec<u8>>, port: u8, byte: u8) -> Result<(), PortFault>
    requires { length queues.old.items ≡ PORTS }
    ensures ok { OnOk result (AddsByte (bytes_of queues.old.items) (bytes_of queues.new.items) port byte) }
    ensures err { OnErr result (bytes_of queues.new.items ≡ bytes_of queues.old.items) }
    ensures size { length queues.new.items ≡ PORTS }
{
    match queues[port as usize].push(byte) {
        Ok(()) => Ok(()),
        Err(_) => Err(PortFault),
    }
}
