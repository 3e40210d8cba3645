//! Files that a command could not write, as their names and what was read of them tell.

use crate::explanation::Seen;
use crate::kept_files::{Content, find_kept};
use crate::page::Page;
use command_line::{Order, command};

// Whether one of the values of `--output-file` has a file of this name, after a port and a colon.
fn is_file_of(values: &[&str], name: &str) -> bool {
    for value in values {
        if let Some((_, file)) = value.split_once(':')
            && file == name
        {
            return true;
        }
    }
    false
}

// Whether an order has a file of this name written.
fn is_written_by(order: &Order, name: &str) -> bool {
    match order {
        Order::Compile(compile) => compile.object == name,
        Order::Link(link) => link.out == name,
        Order::Convert(convert) => convert.lines == Some(name),
        Order::Program(program) => is_file_of(program.output_files.as_slice(), name),
        Order::Execute(execute) => is_file_of(execute.output_files.as_slice(), name),
        Order::Place(_) | Order::Need(_) | Order::Explain(_) => false,
    }
}

// Whether the command line has a file of this name written.
fn is_written(page: &mut Page, seen: &Seen, name: &str) -> bool {
    match command(seen.alloc, seen.words) {
        Ok(order) => is_written_by(&order, name),
        // The words gave an order before, which was refused: so memory ran out.
        Err(_) => {
            page.note(false);
            false
        }
    }
}

// Whether a name is that of a folder.
fn is_folder(name: &str) -> bool {
    let last = match name.rsplit_once('/') {
        Some((_, last)) => last,
        None => name,
    };
    last == "" || last == "." || last == ".."
}

// Why a file of this name may not be written.
fn cause_of_name(name: &str) -> &'static str {
    if is_folder(name) {
        "It can't be written: this is the name of a folder"
    } else if name.contains('/') {
        "It can't be written: mostly it is a folder, its own folder is not there, or permissions do not allow it"
    } else {
        "It can't be written: mostly it is a folder, or permissions do not allow it"
    }
}

// Why a file that was not read is refused, and one that was, if the command line has it written.
fn cause_of_written(
    page: &mut Page,
    seen: &Seen,
    name: &str,
    was_read: bool,
) -> Option<&'static str> {
    if !is_written(page, seen, name) {
        None
    } else if was_read {
        Some("It can't be written: mostly its permissions do not allow it")
    } else {
        Some(cause_of_name(name))
    }
}

/// What is known of a file that could not be read or written.
pub(crate) fn cause_of_file(page: &mut Page, seen: &Seen, name: &str) -> Option<&'static str> {
    match find_kept(seen.files, name) {
        Some(Content::Missing) if name == "-" => Some(
            "No file of the name - is there: standard input is /dev/stdin",
        ),
        Some(Content::Missing) => Some("No such file is there"),
        Some(Content::Closed) => Some(
            "It is there and can't be read: a folder, or its permissions do not allow it",
        ),
        Some(Content::Bytes(_)) => cause_of_written(page, seen, name, true),
        None => cause_of_written(page, seen, name, false),
    }
}
