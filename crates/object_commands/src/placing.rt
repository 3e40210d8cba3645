//! Object files that are placed in memory.

ghost use Rattle.std.specs.Prelude.{◌≡◌, ◌⊎◌, ◌∷◌, [], IfErr, IfOk, OnErr, OnOk};
ghost use Rattle.std.specs.Io.KnownBytes.{Keeps};
ghost use Rattle.host.specs.Files.{KeepsFiles};
ghost use Rattle.host.specs.Refusals.{TellsOther, TellsRefusal};
ghost use Rattle.hex80.specs.Texts.{BeginsText, WritesText};
ghost use Rattle.object_commands.specs.Placing.{PlacesBytes, PlacesFile, PrintsHex, PrintsPlaces, StopsHex, StopsPlaces, pieces_with};
ghost use Rattle.object_commands.specs.Listing.{PrintsListing, StopsListing};
ghost use Rattle.object_commands.specs.internal.Rooms.{LeavesRoom};

use crate::jumps::{pieces_with_jump, refusal_of_jump};
use crate::listing::listing_of;
use crate::places::lines_of;
use crate::refusals::{refuse_object, refuse_place};
use hex80::write_hex;
use host::{
    Ending, Failure, Files, WriteFault, refuse_file, refuse_memory, refuse_output, write_bytes,
};
use locate::{Absolute, locate};
use mem80::Plan;
use object_modules::ObjectModule;
use objmod::read;
use std::alloc::Global;
use std::io::Write;

// An object file that was placed.
#[derive(Drop)]
struct Placed {
    object: ObjectModule,
    absolute: Absolute,
}

// Places what the bytes of an object file spell, or prints why it can't.
fn place_bytes<E: Write>(
    alloc: Global,
    file: &str,
    bytes: &[u8],
    plan: &Plan,
    err: &mut E,
) -> Result<Placed, Ending>
    ensures placed { IfOk result (λ placed. PlacesBytes bytes.now plan.now placed.object placed.absolute) }
    ensures refused { IfErr result (λ ending. ending ≡ Ending.Refused) }
    ensures told { OnErr result (TellsOther (E.contents err.old) (E.contents err.new)) }
    ensures silent { OnOk result (E.contents err.new ≡ E.contents err.old) }
{
    let object = match read(alloc, bytes) {
        Ok(object) => object,
        Err(Failure::Fault(fault)) => return Err(refuse_object(&fault, file, err)),
        Err(Failure::Memory) => return Err(refuse_memory(err)),
    };
    match locate(alloc, &object, plan) {
        Ok(absolute) => Ok(Placed { object, absolute }),
        Err(Failure::Fault(fault)) => {
            drop(object);
            Err(refuse_place(&fault, err))
        }
        Err(Failure::Memory) => {
            drop(object);
            Err(refuse_memory(err))
        }
    }
}

// Reads an object file and places it, or prints why it can't.
fn place_file<F: Files, E: Write>(
    alloc: Global,
    file: &str,
    plan: &Plan,
    files: &mut F,
    err: &mut E,
) -> Result<Placed, Ending>
    ensures kept { KeepsFiles (F.files files.old) (F.files files.new) }
    ensures placed { IfOk result (λ placed.
        PlacesFile (F.files files.old) file.now plan.now placed.object placed.absolute) }
    ensures refused { IfErr result (λ ending. ending ≡ Ending.Refused) }
    ensures told { OnErr result (TellsRefusal (F.files files.old) (file.now ∷ [])
        (F.failures files.old) (F.failures files.new) (E.contents err.old) (E.contents err.new)) }
    ensures silent { OnOk result (E.contents err.new ≡ E.contents err.old) }
    ensures count { OnOk result (F.failures files.new ≡ F.failures files.old) }
{
    match files.read_file(file) {
        Ok(bytes) => place_bytes(alloc, file, bytes.as_slice(), plan, err),
        Err(Failure::Fault(fault)) => Err(refuse_file(fault, file, err)),
        Err(Failure::Memory) => Err(refuse_memory(err)),
    }
}

/// Places an object file by a plan, and prints where its code, its data and the stack lie and how many bytes they have,
/// where it starts, and where its public names lie, in their order. After a write that failed a beginning of that was
/// printed, and after any other refusal nothing.
pub fn print_places<F: Files, O: Write, E: Write>(
    alloc: Global,
    file: &str,
    plan: &Plan,
    files: &mut F,
    out: &mut O,
    err: &mut E,
) -> Ending
    ensures kept { KeepsFiles (F.files files.old) (F.files files.new) }
    ensures printed { result ≡ Ending.Done → PrintsPlaces (F.files files.old) file.now plan.now
        (O.contents out.old) (O.contents out.new) }
    ensures refused { (result ≡ Ending.Done → ⊥) → StopsPlaces (F.files files.old) file.now plan.now
        (O.contents out.old) (O.contents out.new) }
    ensures ending { (result ≡ Ending.Done) ⊎ (result ≡ Ending.Refused) }
    ensures told { result ≡ Ending.Refused → TellsRefusal (F.files files.old) (file.now ∷ [])
        (F.failures files.old) (F.failures files.new) (E.contents err.old) (E.contents err.new) }
    ensures count { (result ≡ Ending.Refused → ⊥) → F.failures files.new ≡ F.failures files.old }
    ensures quiet { (result ≡ Ending.Refused → ⊥) → E.contents err.new ≡ E.contents err.old }
{
    let placed = match place_file(alloc, file, plan, files, err) {
        Ok(placed) => placed,
        Err(ending) => return ending,
    };
    let printed = lines_of(alloc, &placed.object, &placed.absolute, plan);
    drop(placed);
    let lines = match printed {
        Ok(lines) => lines,
        Err(_) => return refuse_memory(err),
    };
    match write_bytes(out, lines.as_slice()) {
        Ok(()) => Ending::Done,
        Err(Failure::Fault(_)) => refuse_output(err),
        Err(Failure::Memory) => refuse_memory(err),
    }
}

// Writes the bytes of an object that is placed as Intel HEX, with a jump to its start where one is wanted.
fn write_placed<O: Write>(
    alloc: Global,
    absolute: &Absolute,
    jump: Option<u16>,
    out: &mut O,
) -> Result<(), Failure<WriteFault>>
    requires { LeavesRoom jump absolute.now }
    ensures ok { OnOk result
        (WritesText (pieces_with jump absolute.now) (O.contents out.old) (O.contents out.new)) }
    ensures err { OnErr result (Keeps (O.contents out.old) (O.contents out.new)
        ⊎ BeginsText (pieces_with jump absolute.now) (O.contents out.old) (O.contents out.new)) }
{
    match jump {
        None => write_hex(alloc, absolute.pieces(), out),
        Some(address) => {
            let pieces = pieces_with_jump(alloc, absolute, address)?;
            write_hex(alloc, pieces.as_slice(), out)
        }
    }
}

/// Places an object file by a plan, and prints its bytes as Intel HEX, with those of a jump to its start at an address
/// where one is wanted. After a write that failed a beginning of that was printed, and after any other refusal nothing.
pub fn print_hex<F: Files, O: Write, E: Write>(
    alloc: Global,
    file: &str,
    plan: &Plan,
    jump: Option<u16>,
    files: &mut F,
    out: &mut O,
    err: &mut E,
) -> Ending
    ensures kept { KeepsFiles (F.files files.old) (F.files files.new) }
    ensures printed { result ≡ Ending.Done → PrintsHex (F.files files.old) file.now plan.now jump
        (O.contents out.old) (O.contents out.new) }
    ensures refused { (result ≡ Ending.Done → ⊥) → StopsHex (F.files files.old) file.now plan.now jump
        (O.contents out.old) (O.contents out.new) }
    ensures ending { (result ≡ Ending.Done) ⊎ (result ≡ Ending.Refused) }
    ensures told { result ≡ Ending.Refused → TellsRefusal (F.files files.old) (file.now ∷ [])
        (F.failures files.old) (F.failures files.new) (E.contents err.old) (E.contents err.new) }
    ensures count { (result ≡ Ending.Refused → ⊥) → F.failures files.new ≡ F.failures files.old }
    ensures quiet { (result ≡ Ending.Refused → ⊥) → E.contents err.new ≡ E.contents err.old }
{
    let placed = match place_file(alloc, file, plan, files, err) {
        Ok(placed) => placed,
        Err(ending) => return ending,
    };
    if let Some(fault) = refusal_of_jump(&placed.object, plan, jump) {
        drop(placed);
        return refuse_place(&fault, err);
    }
    let written = write_placed(alloc, &placed.absolute, jump, out);
    drop(placed);
    match written {
        Ok(()) => Ending::Done,
        Err(Failure::Fault(_)) => refuse_output(err),
        Err(Failure::Memory) => refuse_memory(err),
    }
}

/// Places what the bytes of an object file spell by a plan, and prints its bytes by rising addresses, with the instructions
/// that they encode and the public names that lie there. After a write that failed a beginning of that was printed, and after
/// any other refusal nothing.
pub fn print_list<O: Write, E: Write>(
    alloc: Global,
    file: &str,
    bytes: &[u8],
    plan: &Plan,
    out: &mut O,
    err: &mut E,
) -> Ending
    ensures printed { result ≡ Ending.Done → PrintsListing bytes.now plan.now
        (O.contents out.old) (O.contents out.new) }
    ensures refused { (result ≡ Ending.Done → ⊥) → StopsListing bytes.now plan.now
        (O.contents out.old) (O.contents out.new) }
    ensures ending { (result ≡ Ending.Done) ⊎ (result ≡ Ending.Refused) }
    ensures told { result ≡ Ending.Refused → TellsOther (E.contents err.old) (E.contents err.new) }
    ensures quiet { (result ≡ Ending.Refused → ⊥) → E.contents err.new ≡ E.contents err.old }
{
    let placed = match place_bytes(alloc, file, bytes, plan, err) {
        Ok(placed) => placed,
        Err(ending) => return ending,
    };
    let printed = listing_of(alloc, &placed.object, &placed.absolute, plan);
    drop(placed);
    let lines = match printed {
        Ok(lines) => lines,
        Err(_) => return refuse_memory(err),
    };
    match write_bytes(out, lines.as_slice()) {
        Ok(()) => Ending::Done,
        Err(Failure::Fault(_)) => refuse_output(err),
        Err(Failure::Memory) => refuse_memory(err),
    }
}
