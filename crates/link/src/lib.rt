//! Object files merged into one, as they are read; and the merge of object modules.
#![tactic(auto)]

mod contents;
mod files;
mod fixes;

ghost use Rattle.std.specs.Prelude.{◌≡◌, [], map, IfOk, OnOk, Err};
ghost use Rattle.std.specs.List.{AllZip};
ghost use Rattle.std.specs.Io.KnownBytes.{Keeps};
ghost use Rattle.failure.specs.Failure.{IfFault};
ghost use Rattle.object_modules.specs.Spelling.{Spells};
ghost use Rattle.link.specs.Streams.{HasStreamFault, Merges, WritesMerge};
ghost use Rattle.link.specs.internal.Causes.{HasNoMerge, IsFaultyAt};

use crate::files::ObjectFile;
use failure::Failure;
pub use link_laws::LinkFault;
use link_modules::{Input, merge};
pub use link_modules::{Merged, link};
use object_modules::{Fault, ObjectModule};
use object_writing::write;
use objmod::walk;
use std::alloc::Global;
use std::io::Write;

/// Why files can't be merged, or what was not written.
#[derive(Clone, Copy)]
pub enum StreamFault {
    /// A file is not an object file.
    Object { file: usize, fault: Fault },
    /// The modules have no merge.
    Link(LinkFault),
    /// The writer failed, in whatever way.
    Write,
}

// The file of this number, which spells a module.
#[tactic(auto, using(objmod::proofs::ReadFiles::walk_valid, objmod::proofs::ReadFiles::walk_fits, objmod::proofs::ReadFiles::told_spells))]
fn judged_file<'a>(
    alloc: Global,
    number: usize,
    file: &'a [u8],
) -> Result<Input<ObjectFile<'a>>, Failure<StreamFault>>
    ensures spelled { IfOk result (λ object. Spells file.now object) }
    ensures fault { IfFault result (λ fault. IsFaultyAt number file.now fault) }
{
    match walk(alloc, file) {
        Ok(front) => Ok(Input::new(ObjectFile::new(front))),
        Err(Failure::Fault(fault)) => Err(Failure::Fault(StreamFault::Object {
            file: number,
            fault,
        })),
        Err(Failure::Memory) => Err(Failure::Memory),
    }
}

// Judges the files in their order. Each of them must spell a module.
#[tactic(auto, using(crate::proofs::Reading::first_faulty))]
fn judge_files<'a>(
    alloc: Global,
    files: &[&'a [u8]],
    objects: &mut Vec<Input<ObjectFile<'a>>>,
) -> Result<(), Failure<StreamFault>>
    requires { objects.old.items ≡ [] }
    ensures spelled { OnOk result (AllZip Spells (map (λ file. file.now) files.now) objects.new.items) }
    ensures fault { IfFault result (λ fault. HasNoMerge (map (λ file. file.now) files.now) fault) }
{
    for file in files {
        let object = judged_file(alloc, objects.len(), file)?;
        objects.push(object)?;
    }
    Ok(())
}

// The merge of the modules that files spell.
fn merge_files(alloc: Global, files: &[&[u8]]) -> Result<ObjectModule, Failure<StreamFault>>
    ensures merges { IfOk result (λ merged. Merges (map (λ file. file.now) files.now) merged) }
    ensures fault { IfFault result (λ fault. HasNoMerge (map (λ file. file.now) files.now) fault) }
{
    let mut objects = Vec::new(alloc);
    judge_files(alloc, files, &mut objects)?;
    match merge(alloc, objects.as_slice()) {
        Ok(merged) => Ok(merged.into_module()),
        Err(Failure::Fault(fault)) => Err(Failure::Fault(StreamFault::Link(fault))),
        Err(Failure::Memory) => Err(Failure::Memory),
    }
}

/// Writes the text of the merge of the modules that files spell, in their order. Before the first byte is written it
/// answers the first file that is not an object file, why there is no merge, and out of memory. After that each
/// failure is one of the writer, which then has a beginning of the text.
///
/// It looks at one content at a time, and leaves the files' bytes where they are. Memory grows with the number of files
/// and with their names. Beside these it holds the code and the data of the merge, however long the files are: of each at
/// most 65535 bytes, with as many runs and fixes, which is about 5 MB.
pub fn link_records<W: Write>(
    alloc: Global,
    files: &[&[u8]],
    out: &mut W,
) -> Result<(), Failure<StreamFault>>
    ensures ok { OnOk result
        (WritesMerge (map (λ file. file.now) files.now) (W.contents out.old) (W.contents out.new)) }
    ensures fault { IfFault result (λ fault.
        HasStreamFault (map (λ file. file.now) files.now) (W.contents out.old) (W.contents out.new) fault) }
    ensures memory { result ≡ Err Failure.Memory → Keeps (W.contents out.old) (W.contents out.new) }
{
    let merged = merge_files(alloc, files)?;
    match write(&merged, out) {
        Ok(()) => Ok(()),
        Err(_) => Err(Failure::Fault(StreamFault::Write)),
    }
}
