//! The files that a command reads.

ghost use Rattle.std.specs.Prelude.{◌≡◌, IfErr, IfOk, OnOk, map};
ghost use Rattle.failure.specs.Failure.{IfFault};
ghost use Rattle.host.specs.Files.{Counts, KeepsFiles};
ghost use Rattle.host.specs.Reading.{HasFiles, StopsAt};

use crate::files::{FileFault, Files};
use failure::Failure;
use std::alloc::Global;

/// Reads files, in the order given. A fault comes with the name of its file, all before which were read, and is one failure
/// that was counted.
#[tactic(auto, using(crate::proofs::FilesRead::files_stay, crate::proofs::FilesRead::all_read, crate::proofs::FilesRead::none_read))]
pub fn read_files<'a, F: Files>(
    alloc: Global,
    names: &[&'a str],
    files: &mut F,
) -> Result<Vec<Vec<u8>>, Failure<(FileFault, &'a str)>>
    ensures kept { KeepsFiles (F.files files.old) (F.files files.new) }
    ensures texts { IfOk result (λ texts.
        HasFiles (F.files files.old) (map (λ name. name.now) names.now) (map (λ text. text.items) texts.items)) }
    ensures count { OnOk result (F.failures files.new ≡ F.failures files.old) }
    ensures stops { IfFault result (λ fault.
        StopsAt (F.files files.old) (map (λ name. name.now) names.now) fault.1.now) }
    ensures failed { IfErr result (λ failure. Counts failure (F.failures files.old) (F.failures files.new)) }
{
    let mut texts = Vec::new(alloc);
    let mut rest = names;
    while let [name, more @ ..] = rest {
        match files.read_file(name) {
            Ok(text) => texts.push(text)?,
            Err(Failure::Fault(fault)) => return Err(Failure::Fault((fault, *name))),
            Err(Failure::Memory) => return Err(Failure::Memory),
        }
        rest = more;
    }
    Ok(texts)
}
