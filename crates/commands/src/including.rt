//! The files that a source includes.

ghost use Rattle.std.specs.Prelude.{◌≡◌, Some, map, option_map, IfErr, IfOk, OnOk};
ghost use Rattle.host.specs.Failure.{IfFault};
ghost use Rattle.host.specs.Files.{Counts, KeepsFiles};
ghost use Rattle.clap.specs.Walk.{texts};
ghost use Rattle.convert.specs.Assembly.{assembled};
ghost use Rattle.convert.specs.Includes.{candidates};
ghost use Rattle.convert.specs.Lines.{plain};
ghost use Rattle.command_line.specs.internal.Orders.{convert_in};
ghost use Rattle.commands.specs.Including.{FindsText, IsIncluded, LooksUp, StopsLooking, StopsLookingForNext, first_of, found_view, most_names};

use command_line::ConvertOrder;
use convert::{Advice, Entry, Found, PlacedNote, assemble, candidates, plain};
use host::{Failure, Files};
use std::alloc::{AllocError, Global};
use std::str;

/// The most names of files that are looked for.
pub const MOST_NAMES: usize = 255;

// A file that was found under a name, with its text plain.
fn found_of(alloc: Global, opened: Vec<u8>, bytes: &[u8]) -> Result<Option<Found>, AllocError>
    ensures { IfOk result (λ found. option_map found_view found ≡ Some (opened.items, plain bytes.now)) }
{
    let text = plain(alloc, bytes)?;
    Ok(Some(Found { opened, text }))
}

// The file of a name, if there is one. A fault is that it can't be read, and comes with the name.
fn find_text<F: Files>(
    alloc: Global,
    name: &[u8],
    files: &mut F,
) -> Result<Option<Found>, Failure<Vec<u8>>>
    ensures found { IfOk result
        (λ found. FindsText (F.files files.old) name.now (option_map found_view found)) }
    ensures stops { IfFault result (λ stop. stop.items ≡ name.now) }
    ensures kept { KeepsFiles (F.files files.old) (F.files files.new) }
    ensures count { OnOk result (F.failures files.new ≡ F.failures files.old) }
    ensures failed { IfErr result (λ failure. Counts failure (F.failures files.old) (F.failures files.new)) }
{
    let opened = Vec::from_slice(alloc, name)?;
    let Ok(text) = str::from_utf8(name) else {
        return Ok(None);
    };
    match files.find_file(text) {
        Ok(Some(bytes)) => {
            let found = found_of(alloc, opened, bytes.as_slice())?;
            Ok(found)
        }
        Ok(None) => Ok(None),
        Err(Failure::Fault(_)) => Err(Failure::Fault(opened)),
        Err(Failure::Memory) => Err(Failure::Memory),
    }
}

// What was found under `names`: the first name that has a file.
fn look_at<F: Files>(
    alloc: Global,
    names: &[Vec<u8>],
    files: &mut F,
) -> Result<Option<Found>, Failure<Vec<u8>>>
    ensures found { IfOk result (λ found. LooksUp (F.files files.old)
        (map (λ name. name.items) names.now) (option_map found_view found)) }
    ensures stops { IfFault result (λ stop. StopsLooking (F.files files.old)
        (map (λ name. name.items) names.now) stop.items) }
    ensures kept { KeepsFiles (F.files files.old) (F.files files.new) }
    ensures count { OnOk result (F.failures files.new ≡ F.failures files.old) }
    ensures failed { IfErr result (λ failure. Counts failure (F.failures files.old) (F.failures files.new)) }
{
    let mut rest = names;
    while let [name, more @ ..] = rest {
        match find_text(alloc, name.as_slice(), files) {
            Ok(Some(found)) => return Ok(Some(found)),
            Ok(None) => rest = more,
            Err(failure) => return Err(failure),
        }
    }
    Ok(None)
}

// The file of a name after INCLUDE, if there is one.
fn look_up<F: Files>(
    alloc: Global,
    folders: &[&str],
    file: &str,
    name: &[u8],
    files: &mut F,
) -> Result<Option<Found>, Failure<Vec<u8>>>
    ensures found { IfOk result (λ found. LooksUp (F.files files.old)
        (candidates (texts folders.now) file.now name.now) (option_map found_view found)) }
    ensures stops { IfFault result (λ stop. StopsLooking (F.files files.old)
        (candidates (texts folders.now) file.now name.now) stop.items) }
    ensures kept { KeepsFiles (F.files files.old) (F.files files.new) }
    ensures count { OnOk result (F.failures files.new ≡ F.failures files.old) }
    ensures failed { IfErr result (λ failure. Counts failure (F.failures files.old) (F.failures files.new)) }
{
    let names = candidates(alloc, folders, file, name)?;
    look_at(alloc, names.as_slice(), files)
}

// The first of names.
fn first_of(alloc: Global, names: &[Vec<u8>]) -> Result<Option<Vec<u8>>, AllocError>
    ensures { IfOk result (λ name. option_map (λ one. one.items) name
        ≡ first_of (map (λ one. one.items) names.now)) }
{
    match names {
        [name, ..] => {
            let copy = Vec::from_slice(alloc, name.as_slice())?;
            Ok(Some(copy))
        }
        [] => Ok(None),
    }
}

// The first name of a file that a source includes and that was not looked for.
fn next_name(
    alloc: Global,
    advice: &Advice,
    entries: &[Entry],
    before: &[PlacedNote],
    sets: &[&str],
    source: &[u8],
) -> Result<Option<Vec<u8>>, AllocError>
    ensures { IfOk result (λ name. option_map (λ one. one.items) name
        ≡ first_of (assembled advice.now entries.now before.now (texts sets.now) source.now).wanted) }
{
    let assembly = assemble(alloc, advice, entries, before, sets, source)?;
    first_of(alloc, assembly.wanted.as_slice())
}

// How many names are looked for at most.
fn most_names(order: &ConvertOrder) -> usize
    ensures { result ≡ most_names (convert_in order.now) }
{
    if order.listing { 0 } else { MOST_NAMES }
}

/// What a source includes, which is plain, after what was told before. A fault comes with the name of a file that can't be read.
pub(crate) fn included_files<F: Files>(
    alloc: Global,
    advice: &Advice,
    order: &ConvertOrder,
    before: &[PlacedNote],
    source: &[u8],
    files: &mut F,
) -> Result<Vec<Entry>, Failure<Vec<u8>>>
    ensures included { IfOk result (λ entries. IsIncluded advice.now (convert_in order.now)
        (F.files files.old) before.now source.now entries.items) }
    ensures stops { IfFault result (λ stop. StopsLookingForNext advice.now (convert_in order.now)
        (F.files files.old) before.now source.now stop.items) }
    ensures kept { KeepsFiles (F.files files.old) (F.files files.new) }
    ensures count { OnOk result (F.failures files.new ≡ F.failures files.old) }
    ensures failed { IfErr result (λ failure. Counts failure (F.failures files.old) (F.failures files.new)) }
{
    let most = most_names(order);
    let mut entries = Vec::new(alloc);
    'names: while entries.len() < most {
        let sets = order.sets.as_slice();
        let next = next_name(alloc, advice, entries.as_slice(), before, sets, source)?;
        let Some(name) = next else {
            return Ok(entries);
        };
        let found = look_up(
            alloc,
            order.folders.as_slice(),
            order.file,
            name.as_slice(),
            files,
        )?;
        entries.push(Entry { name, found })?;
    }
    Ok(entries)
}
