//! Object files that are linked.

ghost use Rattle.std.specs.Prelude.{◌≡◌, ◌⊎◌, [], ◌∷◌, ◌++◌, IfOk, map};
ghost use Rattle.host.specs.Refusals.{Tells, TellsOther, TellsRefusal};
ghost use Rattle.link.specs.Faults.{refusal_of};
ghost use Rattle.object_commands.specs.Linking.{KeepsOthers, LinksFiles, MergesTo, StopsLinking};
ghost use Rattle.object_commands.specs.Merging.{file_at};
ghost use Rattle.object_commands.specs.internal.Merges.{merge_line, refused_line};

use crate::refusals::{refuse_link_at, refuse_object};
use crate::writing_files::write_file;
use host::{Ending, Failure, Files, read_files, refuse_file, refuse_memory, refuse_output};
use link::{LinkFault, StreamFault, link_records};
use std::alloc::{AllocError, Global};
use std::io::Write;

/// Merges object files, and writes the merge to the file `out`. That file is begun once all others were read and their
/// modules merged; after a write that failed it may have a beginning of the merge, which is no object file. Memory holds
/// the files and the merge.
#[tactic(auto, using(crate::proofs::FilesWritten::links_files))]
pub fn link_files<F: Files, E: Write>(
    alloc: Global,
    objects: &[&str],
    out: &str,
    files: &mut F,
    err: &mut E,
) -> Ending
    ensures others { KeepsOthers (F.files files.old) (F.files files.new) out.now }
    ensures linked { result ≡ Ending.Done → LinksFiles (F.files files.old) (F.files files.new)
        (map (λ name. name.now) objects.now) out.now }
    ensures refused { (result ≡ Ending.Done → ⊥) → StopsLinking (F.files files.old) (F.files files.new)
        (map (λ name. name.now) objects.now) out.now }
    ensures ending { (result ≡ Ending.Done) ⊎ (result ≡ Ending.Refused) }
    ensures told { result ≡ Ending.Refused → TellsRefusal (F.files files.old)
        (map (λ name. name.now) objects.now ++ out.now ∷ [])
        (F.failures files.old) (F.failures files.new) (E.contents err.old) (E.contents err.new) }
    ensures count { (result ≡ Ending.Refused → ⊥) → F.failures files.new ≡ F.failures files.old }
    ensures quiet { (result ≡ Ending.Refused → ⊥) → E.contents err.new ≡ E.contents err.old }
{
    let texts = match read_files(alloc, objects, files) {
        Ok(texts) => texts,
        Err(Failure::Fault((fault, name))) => return refuse_file(fault, name, err),
        Err(Failure::Memory) => return refuse_memory(err),
    };
    let merging = merge(alloc, texts.as_slice());
    drop(texts);
    let merged = match merging {
        Ok(merged) => merged,
        Err(Failure::Fault(fault)) => return refuse_merge(&fault, objects, err),
        Err(Failure::Memory) => return refuse_memory(err),
    };
    match write_file(out, merged.as_slice(), files) {
        Ok(()) => Ending::Done,
        Err(Failure::Fault(fault)) => refuse_file(fault, out, err),
        Err(Failure::Memory) => refuse_memory(err),
    }
}

/// The bytes of texts.
pub(crate) fn slices_of(alloc: Global, texts: &[Vec<u8>]) -> Result<Vec<&[u8]>, AllocError>
    ensures { IfOk result (λ slices.
        map (λ slice. slice.now) slices.items ≡ map (λ text. text.items) texts.now) }
{
    let mut slices = Vec::new(alloc);
    for text in texts {
        slices.push(text.as_slice())?;
    }
    Ok(slices)
}

// The text of the merge of the modules that files spell. Only memory can fail its writing.
#[tactic(auto, using(crate::proofs::FilesWritten::merges_to))]
fn merge(alloc: Global, texts: &[Vec<u8>]) -> Result<Vec<u8>, Failure<StreamFault>>
    ensures { IfOk result (λ bytes. MergesTo (map (λ text. text.items) texts.now) bytes.items) }
{
    let slices = slices_of(alloc, texts)?;
    let mut merged: Vec<u8> = Vec::new(alloc);
    let linking = link_records(alloc, slices.as_slice(), &mut merged);
    drop(slices);
    match linking {
        Ok(()) => Ok(merged),
        Err(Failure::Fault(StreamFault::Write)) => Err(Failure::Memory),
        Err(failure) => Err(failure),
    }
}

/// Prints why object files have no merge: the file that is no object file, the name that is there twice or not at all, or
/// a dash.
pub(crate) fn refuse_merge<E: Write>(fault: &StreamFault, objects: &[&str], err: &mut E) -> Ending
    ensures ending { result ≡ Ending.Refused }
    ensures line { Tells (merge_line (map (λ name. name.now) objects.now) fault.now)
        (E.contents err.old) (E.contents err.new) }
    ensures told { TellsOther (E.contents err.old) (E.contents err.new) }
{
    match fault {
        StreamFault::Object { file, fault } => refuse_object(fault, name_at(objects, *file), err),
        StreamFault::Link(fault) => refuse_link(fault, err),
        StreamFault::Write => refuse_output(err),
    }
}

// The name of the file of this number, or a dash.
fn name_at<'a>(objects: &[&'a str], number: usize) -> &'a str
    ensures { result.now ≡ file_at (map (λ name. name.now) objects.now) number }
{
    match objects.get(number) {
        Some(name) => *name,
        None => "-",
    }
}

// Prints why modules have no merge.
fn refuse_link<E: Write>(fault: &LinkFault, err: &mut E) -> Ending
    ensures ending { result ≡ Ending.Refused }
    ensures line { Tells (refused_line (refusal_of fault.now)) (E.contents err.old) (E.contents err.new) }
    ensures told { TellsOther (E.contents err.old) (E.contents err.new) }
{
    match fault {
        LinkFault::DuplicatePublic { name } | LinkFault::UnresolvedExternal { name } => {
            refuse_link_at(fault, name.as_slice(), err)
        }
        LinkFault::SegmentTooLong | LinkFault::NotOneMain | LinkFault::HighByteMoves => {
            refuse_link_at(fault, b"-", err)
        }
    }
}
