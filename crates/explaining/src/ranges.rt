//! Where the parts of a program lie that a command places, and its objects with AT.

use crate::explanation::Seen;
use crate::kept_files::Content;
use crate::left_out::is_same_name;
use crate::lengths::{Lengths, lengths_of};
use crate::page::Page;
use crate::parts::{Part, add_lines, add_meetings, add_meetings_of, add_passing};
use command_line::{Order, PlanTexts, command};
use object_commands::JUMP_SIZE;
use sources::read_source;
use typed_trees::{AtAddress, Home, TypedObject};

// What an order places: the program of these files by this plan, with a jump where one is wanted.
#[derive(Clone, Copy)]
struct Placing<'o, 'a> {
    names: &'o [&'a str],
    plan: &'o PlanTexts<'a>,
    jump: Option<&'a str>,
}

// What an order places, if it places something.
fn placing_of<'o, 'a>(order: &'o Order<'a>) -> Option<Placing<'o, 'a>> {
    let (names, plan, jump) = match order {
        Order::Program(program) => (&program.files, &program.plan, None),
        Order::Execute(execute) => (&execute.objects, &execute.plan, None),
        Order::Place(place) => (&place.files, &place.plan, place.jump),
        _ => return None,
    };
    Some(Placing {
        names: names.as_slice(),
        plan,
        jump,
    })
}

// The number that a text writes, or 0.
fn number_in(text: &str) -> u32 {
    text.parse::<u32>().unwrap_or(0)
}

// A part of `size` bytes that begins at an address.
fn part(name: &'static str, address: &str, size: u32) -> Part<'static> {
    let start = number_in(address);
    Part {
        before: "",
        name,
        start,
        end: start.saturating_add(size),
    }
}

// The parts of a program of these lengths. A jump has no bytes where none is wanted.
fn parts_of(placing: &Placing, lengths: Lengths) -> [Part<'static>; 4] {
    let plan = placing.plan;
    [
        part("code", plan.code, lengths.code),
        part("data", plan.data_base, lengths.variables),
        part("stack", plan.stack, number_in(plan.stack_size)),
        match placing.jump {
            Some(address) => part("jump", address, JUMP_SIZE as u32),
            None => part("jump", "0", 0),
        },
    ]
}

// Adds where the parts of what an order places lie, and which of them meet, or else which pass the end of memory.
fn add_placing(page: &mut Page, seen: &Seen, order: &Order, are_meeting: bool) {
    let Some(placing) = placing_of(order) else {
        return;
    };
    match lengths_of(seen.alloc, seen.files, placing.names) {
        Some(lengths) => {
            let parts = parts_of(&placing, lengths);
            add_lines(page, &parts);
            if are_meeting {
                add_meetings(page, &parts);
            } else {
                add_passing(page, &parts);
            }
        }
        None => page.note(false),
    }
}

/// Adds where the parts of the program lie that the words place, made of the files that were read, and which of them meet, or
/// else which pass the end of memory.
pub(crate) fn add_ranges(page: &mut Page, seen: &Seen, are_meeting: bool) {
    match command(seen.alloc, seen.words) {
        Ok(order) => add_placing(page, seen, &order, are_meeting),
        Err(_) => page.note(false),
    }
}

// Where an object lies that has an address by AT.
fn placed_at<'n>(object: &TypedObject, name: &'n str) -> Option<Part<'n>> {
    match object.home {
        Home::At(AtAddress::AtNumber(address)) => {
            let start = u32::from(address);
            Some(Part {
                before: "object ",
                name,
                start,
                end: start.saturating_add(object.size()),
            })
        }
        _ => None,
    }
}

// Adds where an object lies that has an address by AT, and which of these parts it meets, or that it passes the end of memory.
fn add_placed<'x>(page: &mut Page, object: &TypedObject, name: &'x str, parts: &'x [Part<'x>]) {
    if is_same_name(object.name.as_slice(), name.as_bytes())
        && let Some(placed) = placed_at(object, name)
    {
        add_lines(page, &[placed]);
        add_meetings_of(page, placed, parts);
        add_passing(page, &[placed]);
    }
}

// Adds where the objects of a name lie that have an address by AT, beside the code and the stack.
fn add_objects<'x>(page: &mut Page, seen: &Seen, name: &'x str, parts: &'x [Part<'x>]) {
    for file in seen.files {
        if let Content::Bytes(text) = &file.content
            && let Ok(module) = read_source(seen.alloc, text.as_slice())
        {
            for object in &module.typed.objects {
                add_placed(page, object, name, parts);
            }
        }
    }
}

/// Adds where the code, the data and the stack of the program lie that the words place, and an object of a name with AT; and
/// with which of them it meets, or that it passes the end of memory.
pub(crate) fn add_object(page: &mut Page, seen: &Seen, name: &str) {
    let Ok(order) = command(seen.alloc, seen.words) else {
        page.note(false);
        return;
    };
    let Some(placing) = placing_of(&order) else {
        return;
    };
    let Some(lengths) = lengths_of(seen.alloc, seen.files, placing.names) else {
        page.note(false);
        return;
    };
    let [code, data, stack, _jump] = parts_of(&placing, lengths);
    add_lines(page, &[code, data, stack]);
    add_objects(page, seen, name, &[code, stack]);
}
