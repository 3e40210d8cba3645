//! The names of the object files that were read.

use crate::explanation::Seen;
use crate::globals::Shared;
use crate::kept_files::{Content, KeptFile};
use crate::page::{MARGIN, Page, Piece};
use object_commands::{ObjectModule, read};
use sources::Name;
use std::alloc::{AllocError, Global};

// How many missing names are listed at most.
const MOST_TOLD: usize = 10;

// What an object file has a name as.
#[derive(Clone, Copy)]
enum Role {
    Public,
    External,
}

impl Role {
    // The word for it.
    fn word(self) -> &'static str {
        match self {
            Role::Public => "public",
            Role::External => "external",
        }
    }
}

// What an object has a name as; none where it has no such name.
fn role_in(object: &ObjectModule, name: &[u8]) -> Option<Role> {
    if object.publics().iter().any(|it| it.name.as_slice() == name) {
        Some(Role::Public)
    } else if object.externals().iter().any(|it| it.as_slice() == name) {
        Some(Role::External)
    } else {
        None
    }
}

// Adds what an object file has a name as.
fn add_name<'x>(page: &mut Page, file: &'x [u8], name: &'x [u8], role: Role) {
    page.line(&[
        Piece::Shown(file),
        Piece::Text(" has "),
        Piece::Shown(name),
        Piece::Text(" as "),
        Piece::Text(role.word()),
    ]);
}

/// Adds the object files that have a name, and what each has it as.
pub(crate) fn add_objects(page: &mut Page, seen: &Seen, name: &[u8]) {
    for file in seen.files {
        if let Content::Bytes(bytes) = &file.content
            && let Ok(object) = read(seen.alloc, bytes.as_slice())
            && let Some(role) = role_in(&object, name)
        {
            add_name(page, file.name.as_slice(), name, role);
        }
    }
}

/// Adds the object files that have a start.
pub(crate) fn add_starts(page: &mut Page, seen: &Seen) {
    for file in seen.files {
        if let Content::Bytes(bytes) = &file.content
            && let Ok(object) = read(seen.alloc, bytes.as_slice())
            && object.start().is_some()
        {
            page.line(&[
                Piece::Shown(file.name.as_slice()),
                Piece::Text(" has a start"),
            ]);
        }
    }
}

// Adds the external names of an object.
fn add_externals_of(page: &mut Page, file: &[u8], object: &ObjectModule) {
    for name in object.externals() {
        add_name(page, file, name.as_slice(), Role::External);
    }
}

/// Adds the external names of the object files that were read.
pub(crate) fn add_externals(page: &mut Page, seen: &Seen) {
    for file in seen.files {
        if let Content::Bytes(bytes) = &file.content
            && let Ok(object) = read(seen.alloc, bytes.as_slice())
        {
            add_externals_of(page, file.name.as_slice(), &object);
        }
    }
}

// Takes in the public and the external names of the object file that bytes are.
fn add_names(shared: &mut Shared, alloc: Global, bytes: &[u8]) -> Result<(), AllocError> {
    if let Ok(object) = read(alloc, bytes) {
        for public in object.publics() {
            shared.public.push(public.name)?;
        }
        shared.external.extend_from_slice(object.externals())?;
    }
    Ok(())
}

// The public and the external names of the object files that were read.
fn shared_in(alloc: Global, files: &[KeptFile]) -> Result<Shared, AllocError> {
    let mut shared = Shared::new(alloc);
    for file in files {
        if let Content::Bytes(bytes) = &file.content {
            add_names(&mut shared, alloc, bytes.as_slice())?;
        }
    }
    Ok(shared)
}

// The external names of the object files that were read that none has as public, each of them once.
fn missing_in(alloc: Global, files: &[KeptFile]) -> Result<Vec<Name>, AllocError> {
    let shared = shared_in(alloc, files)?;
    let missing = shared.missing(alloc)?;
    Ok(missing)
}

// Adds a list of missing names, and how many more there are.
fn add_list(page: &mut Page, told: &[Name], more: &[Name]) {
    page.pieces(&[
        Piece::Text(MARGIN),
        Piece::Text("No object has these as public: "),
    ]);
    let mut between = "";
    for name in told {
        page.pieces(&[Piece::Text(between), Piece::Shown(name.as_slice())]);
        between = ", ";
    }
    if !more.is_empty() {
        page.pieces(&[
            Piece::Text(" and "),
            Piece::Number(more.len().min(4_294_967_295) as u32),
            Piece::Text(" more"),
        ]);
    }
    page.pieces(&[Piece::Text(".\n")]);
}

// Adds the objects that have one of these names as external. Those of the name `before` are there already.
fn add_users(page: &mut Page, seen: &Seen, told: &[Name], before: &[u8]) {
    for name in told {
        if name.as_slice() != before {
            add_objects(page, seen, name.as_slice());
        }
    }
}

/// Adds all external names that no object has as public, if there are several, with the objects that have each. Those of the name
/// `before` are there already. Of many names it adds the first ones, and how many more there are.
pub(crate) fn add_missing_objects(page: &mut Page, seen: &Seen, before: &[u8]) {
    match missing_in(seen.alloc, seen.files) {
        Ok(names) if names.len() > 1 => {
            let (told, more) = names.as_slice().split_at(names.len().min(MOST_TOLD));
            add_list(page, told, more);
            add_users(page, seen, told, before);
        }
        Ok(_) => {}
        Err(_) => page.note(false),
    }
}
