//! The files that INCLUDE names.

ghost use Rattle.std.specs.Prelude.{◌≡◌, ◌≤◌, ◌∷◌, ◌++◌, [], length, map, IfOk};
ghost use Rattle.std.specs.List.{flat_map};
ghost use Rattle.convert.specs.Includes.{after_device, answer_of, answer_from, blank_at, candidates, file_name, folder_length, forms_in, name_of_file, opened_after, with_slash};
ghost use Rattle.convert.specs.internal.Answers.{answer_view};

use crate::controls::{after_blanks, is_blank};
use std::alloc::{AllocError, Global};

/// A file that was found: the name under which it was opened, and its text, plain.
#[derive(Drop)]
pub struct Found {
    pub opened: Vec<u8>,
    pub text: Vec<u8>,
}

/// A file that was looked for, by its name after INCLUDE, and what was found.
#[derive(Drop)]
pub struct Entry {
    pub name: Vec<u8>,
    pub found: Option<Found>,
}

/// What is known of the file of a name.
#[derive(Clone, Copy)]
pub(crate) enum Answer<'a> {
    /// The name is empty.
    NoName,
    /// It was not looked for.
    Unknown,
    /// There is no such file.
    Absent,
    /// Its number, from 1, and its text.
    Present(usize, &'a [u8]),
}

// What follows the last colon, or all.
fn after_device(argument: &[u8]) -> &[u8]
    ensures { result.now ≡ after_device argument.now argument.now }
{
    let mut name = argument;
    let mut rest = argument;
    while let [byte, more @ ..] = rest {
        if *byte == b':' {
            name = more;
        }
        rest = more;
    }
    name
}

// How many bytes come before the first blank, or all.
fn blank_at(line: &[u8]) -> usize
    ensures count { result ≡ blank_at line.now }
    ensures within { result ≤ length line.now }
{
    let mut count = 0;
    let mut rest = line;
    while let [byte, more @ ..] = rest {
        if is_blank(*byte) {
            return count;
        }
        count += 1;
        rest = more;
    }
    count
}

/// The name of a file in the group of an INCLUDE: without a device, and up to a blank after it.
pub(crate) fn file_name(argument: &[u8]) -> &[u8]
    ensures { result.now ≡ file_name argument.now }
{
    let name = after_blanks(after_device(argument));
    &name[..blank_at(name)]
}

// A folder with a slash at its end.
fn with_slash(alloc: Global, folder: &[u8]) -> Result<Vec<u8>, AllocError>
    ensures { IfOk result (λ text. text.items ≡ with_slash folder.now) }
{
    let mut text = Vec::from_slice(alloc, folder)?;
    if !folder.is_empty() && folder[folder.len() - 1] != b'/' {
        text.push(b'/')?;
    }
    Ok(text)
}

// How many bytes of a file's name are its folder's.
fn folder_length(name: &[u8]) -> usize
    ensures count { result ≡ folder_length 0 0 name.now }
    ensures within { result ≤ length name.now }
{
    let mut found = 0;
    let mut seen = 0;
    let mut rest = name;
    while let [byte, more @ ..] = rest {
        seen += 1;
        if *byte == b'/' {
            found = seen;
        }
        rest = more;
    }
    found
}

// A folder's name, and after it a file's.
fn form(alloc: Global, folder: &[u8], name: &[u8]) -> Result<Vec<u8>, AllocError>
    ensures { IfOk result (λ text. text.items ≡ folder.now ++ name.now) }
{
    let mut text = Vec::from_slice(alloc, folder)?;
    text.extend_from_slice(name)?;
    Ok(text)
}

// Adds the name of a file in a folder.
fn add_form(
    alloc: Global,
    folder: &[u8],
    name: &[u8],
    names: &mut Vec<Vec<u8>>,
) -> Result<(), AllocError>
    ensures { IfOk result (λ _. map (λ one. one.items) names.new.items
        ≡ map (λ one. one.items) names.old.items ++ (folder.now ++ name.now) ∷ []) }
{
    names.push(form(alloc, folder, name)?)?;
    Ok(())
}

// Adds the names under which a file is looked for in a folder.
fn add_forms(
    alloc: Global,
    folder: &[u8],
    name: &[u8],
    names: &mut Vec<Vec<u8>>,
) -> Result<(), AllocError>
    ensures { IfOk result (λ _. map (λ one. one.items) names.new.items
        ≡ map (λ one. one.items) names.old.items ++ forms_in name.now folder.now) }
{
    add_form(alloc, folder, name, names)?;
    let capitals = name.to_ascii_uppercase(alloc)?;
    add_form(alloc, folder, capitals.as_slice(), names)?;
    let small = name.to_ascii_lowercase(alloc)?;
    add_form(alloc, folder, small.as_slice(), names)
}

// Adds the names under which a file is looked for in folders.
fn add_candidates(
    alloc: Global,
    folders: &[&str],
    name: &[u8],
    names: &mut Vec<Vec<u8>>,
) -> Result<(), AllocError>
    ensures { IfOk result (λ _. map (λ one. one.items) names.new.items
        ≡ map (λ one. one.items) names.old.items
        ++ flat_map (forms_in name.now) (map with_slash (map (λ folder. folder.now) folders.now))) }
{
    let mut rest = folders;
    while let [folder, more @ ..] = rest {
        let place = with_slash(alloc, folder.as_bytes())?;
        add_forms(alloc, place.as_slice(), name, names)?;
        rest = more;
    }
    Ok(())
}

/// All names under which a file is looked for, in their order, that a source in this file names.
pub fn candidates(
    alloc: Global,
    folders: &[&str],
    file: &str,
    name: &[u8],
) -> Result<Vec<Vec<u8>>, AllocError>
    ensures { IfOk result (λ names. map (λ one. one.items) names.items
        ≡ candidates (map (λ folder. folder.now) folders.now) file.now name.now) }
{
    let mut names = Vec::new(alloc);
    add_candidates(alloc, folders, name, &mut names)?;
    let file = file.as_bytes();
    add_forms(alloc, &file[..folder_length(file)], name, &mut names)?;
    Ok(names)
}

// What is known of a file by what was looked for.
fn answer_from<'a>(entries: &'a [Entry], name: &[u8]) -> Answer<'a>
    ensures { answer_view result ≡ answer_from 1 name.now entries.now }
{
    let mut file = 1;
    let mut rest = entries;
    while let [entry, more @ ..] = rest {
        if entry.name.as_slice() == name {
            return match &entry.found {
                Some(found) => Answer::Present(file, found.text.as_slice()),
                None => Answer::Absent,
            };
        }
        file += 1;
        rest = more;
    }
    Answer::Unknown
}

/// What is known of the file of a name.
pub(crate) fn answer_of<'a>(entries: &'a [Entry], name: &[u8]) -> Answer<'a>
    ensures { answer_view result ≡ answer_of entries.now name.now }
{
    if name.is_empty() {
        Answer::NoName
    } else {
        answer_from(entries, name)
    }
}

// The name under which the file was opened that comes after this many of those that were looked for.
fn opened_after(passed: usize, entries: &[Entry]) -> &[u8]
    ensures { result.now ≡ opened_after passed entries.now }
{
    let mut passed = passed;
    let mut rest = entries;
    while let [entry, more @ ..] = rest {
        if passed == 0 {
            return match &entry.found {
                Some(found) => found.opened.as_slice(),
                None => &[],
            };
        }
        passed -= 1;
        rest = more;
    }
    &[]
}

/// The name of the file of a number; 0 is the source.
pub fn name_of_file<'a>(name: &'a [u8], entries: &'a [Entry], file: usize) -> &'a [u8]
    ensures { result.now ≡ name_of_file name.now entries.now file }
{
    if file == 0 {
        name
    } else {
        opened_after(file - 1, entries)
    }
}
