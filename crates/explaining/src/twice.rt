//! A file that a command line names twice.

use crate::explanation::Seen;
use crate::page::{Page, Piece};
use command_line::{Order, command};

// The names of the files that an order takes, if it may take several.
fn names_of<'o, 'a>(order: &'o Order<'a>) -> &'o [&'a str] {
    match order {
        Order::Program(program) => program.files.as_slice(),
        Order::Link(link) => link.objects.as_slice(),
        Order::Place(place) => place.files.as_slice(),
        Order::Need(need) => need.files.as_slice(),
        Order::Execute(execute) => execute.objects.as_slice(),
        Order::Compile(_) | Order::Explain(_) | Order::Convert(_) => &[],
    }
}

// The first of these names that stands twice among them.
fn first_twice<'o, 'a>(names: &'o [&'a str]) -> Option<&'a str> {
    for (at, name) in names.iter().enumerate() {
        if names.get(..at).unwrap_or(&[]).contains(name) {
            return Some(*name);
        }
    }
    None
}

// Adds which file an order names twice, if it may take several.
fn add_twice_of(page: &mut Page, order: &Order) {
    if let Some(name) = first_twice(names_of(order)) {
        page.sentence(&[
            Piece::Shown(name.as_bytes()),
            Piece::Text(" is named twice"),
        ]);
    }
}

/// Adds which file the command line names twice, if it is one that may take several.
pub(crate) fn add_named_twice(page: &mut Page, seen: &Seen) {
    match command(seen.alloc, seen.words) {
        Ok(order) => add_twice_of(page, &order),
        // The words gave an order before, which was refused: so memory ran out.
        Err(_) => page.note(false),
    }
}
