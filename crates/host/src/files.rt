//! Files that a program reads and writes.
#![tactic(auto)]

ghost use Rattle.std.specs.Prelude.{◌≡◌, ℕ, ◌≤◌, ◌<◌, List, Option, None, codes, length, option_map, take, IfOk, OnOk, IfErr, OnErr};
ghost use Rattle.host.specs.Files.{BeginsFile, Counts, Directory, FindsFile, GrowsFile, HasFile, KeepsFiles};

use failure::{Failure, write_some};
use std::fs::{File, OpenOptions};
use std::{fs, io, rt};
use thiserror::Error;

/// There is no such file, or the device failed.
#[derive(Clone, Copy, Debug, Error)]
#[error("a file can't be read or written")]
pub struct FileFault;

impl FileFault {
    /// The number of the fault, as `plm` prints it.
    pub fn number(&self) -> &'static str
        ensures { result.now ≡ codes "U3" }
    {
        "U3"
    }
}

/// Files by name. Their meaning is a count of the failures, which stays at 18446744073709551615 once it is there, and,
/// where a value tells them, the bytes of each file. A failure leaves the files as they were.
pub trait Files {
    ghost failures: { Self → ℕ };

    ghost files: { Self → Option Directory } = { λ _. None };

    /// The bytes of a file.
    fn read_file(&mut self, name: &str) -> Result<Vec<u8>, Failure<FileFault>>
        ensures bytes { IfOk result (λ bytes. HasFile (files self.old) name.now bytes.items) }
        ensures kept { KeepsFiles (files self.old) (files self.new) }
        ensures count { OnOk result (failures self.new ≡ failures self.old) }
        ensures failed { IfErr result (λ failure. Counts failure (failures self.old) (failures self.new)) };

    /// The bytes of a file, if there is one.
    fn find_file(&mut self, name: &str) -> Result<Option<Vec<u8>>, Failure<FileFault>>
        ensures found { IfOk result
            (λ found. FindsFile (files self.old) name.now (option_map (λ bytes. bytes.items) found)) }
        ensures kept { KeepsFiles (files self.old) (files self.new) }
        ensures count { OnOk result (failures self.new ≡ failures self.old) }
        ensures failed { IfErr result (λ failure. Counts failure (failures self.old) (failures self.new)) };

    /// Makes a file empty. One that isn't there is made.
    fn begin(&mut self, name: &str) -> Result<(), Failure<FileFault>>
        ensures ok { OnOk result (BeginsFile (files self.old) (files self.new) name.now) }
        ensures err { OnErr result (KeepsFiles (files self.old) (files self.new)) }
        ensures count { OnOk result (failures self.new ≡ failures self.old) }
        ensures failed { IfErr result (λ failure. Counts failure (failures self.old) (failures self.new)) };

    /// Adds bytes from the front of `bytes` to the end of a file, and answers how many: at least one, where there are
    /// any.
    fn append(&mut self, name: &str, bytes: &[u8]) -> Result<usize, Failure<FileFault>>
        ensures ok { IfOk result
            (λ count. GrowsFile (files self.old) (files self.new) name.now (take count bytes.now)) }
        ensures bound { IfOk result (λ count. count ≤ length bytes.now) }
        ensures some { IfOk result (λ count. 0 < length bytes.now → 0 < count) }
        ensures err { OnErr result (KeepsFiles (files self.old) (files self.new)) }
        ensures count { OnOk result (failures self.new ≡ failures self.old) }
        ensures failed { IfErr result (λ failure. Counts failure (failures self.old) (failures self.new)) };
}

/// The files of the system. It tells the failures, and no file.
#[derive(Drop)]
pub struct HostFiles<'a, R> {
    rt: &'a R,
    /// How many calls the device failed.
    pub failures: u64,
}

// What the system's error is to the caller.
fn failure_of(error: &io::Error) -> Failure<FileFault> {
    match error.kind() {
        io::ErrorKind::OutOfMemory => Failure::Memory,
        _ => Failure::Fault(FileFault),
    }
}

fn append_to<F: io::Write>(file: &mut F, bytes: &[u8]) -> Result<usize, Failure<FileFault>>
    ensures bound { IfOk result (λ count. count ≤ length bytes.now) }
    ensures some { IfOk result (λ count. 0 < length bytes.now → 0 < count) }
{
    if bytes.is_empty() {
        return Ok(0);
    }
    match write_some(file, bytes) {
        Ok(count) => Ok(count),
        Err(Failure::Fault(_)) => Err(Failure::Fault(FileFault)),
        Err(Failure::Memory) => Err(Failure::Memory),
    }
}

impl<'a, R: rt::Files + AllocGlobal> HostFiles<'a, R> {
    /// The files that the runtime reaches, before any failure.
    pub fn new(rt: &'a R) -> HostFiles<'a, R>
        ensures { result.failures ≡ 0 }
    {
        HostFiles { rt, failures: 0 }
    }

    // Counts a fault of the device.
    fn counted(&mut self, failure: Failure<FileFault>) -> Failure<FileFault>
        ensures same { result ≡ failure }
        ensures count { Counts failure self.old.failures self.new.failures }
    {
        if let Failure::Fault(_) = failure {
            self.failures = self.failures.saturating_add(1);
        }
        failure
    }

    fn append_bytes(&self, name: &str, bytes: &[u8]) -> Result<usize, Failure<FileFault>>
        ensures bound { IfOk result (λ count. count ≤ length bytes.now) }
        ensures some { IfOk result (λ count. 0 < length bytes.now → 0 < count) }
    {
        let opened = OpenOptions::new()
            .append(true)
            .create(true)
            .open(self.rt, name);
        match opened {
            Ok(mut file) => append_to(&mut file, bytes),
            Err(e) => Err(failure_of(&e)),
        }
    }
}

impl<R: rt::Files + AllocGlobal> Files for HostFiles<'_, R> {
    ghost failures = { λ files. files.failures };

    fn read_file(&mut self, name: &str) -> Result<Vec<u8>, Failure<FileFault>> {
        match fs::read(self.rt, name) {
            Ok(bytes) => Ok(bytes),
            Err(e) => Err(self.counted(failure_of(&e))),
        }
    }

    fn find_file(&mut self, name: &str) -> Result<Option<Vec<u8>>, Failure<FileFault>> {
        match fs::read(self.rt, name) {
            Ok(bytes) => Ok(Some(bytes)),
            Err(e) if e.kind() == io::ErrorKind::NotFound => Ok(None),
            Err(e) => Err(self.counted(failure_of(&e))),
        }
    }

    fn begin(&mut self, name: &str) -> Result<(), Failure<FileFault>> {
        match File::create(self.rt, name) {
            Ok(_) => Ok(()),
            Err(e) => Err(self.counted(failure_of(&e))),
        }
    }

    fn append(&mut self, name: &str, bytes: &[u8]) -> Result<usize, Failure<FileFault>> {
        match self.append_bytes(name, bytes) {
            Ok(count) => Ok(count),
            Err(failure) => Err(self.counted(failure)),
        }
    }
}
