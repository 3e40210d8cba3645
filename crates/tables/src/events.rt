//! What runs print: their ends and their events.

use crate::page::Page;
use cpu8080::{End, Step};
use ports::Event;

/// How a run ended, in words.
pub fn word_of(end: End) -> &'static str {
    match end {
        End::Halted => "halted",
        End::Illegal => "illegal",
        End::PortFault => "a port failed",
        End::Limit => "too long",
    }
}

/// What a step did, in words.
pub fn word_of_step(step: Step) -> &'static str {
    match step {
        Step::Ran => "ran",
        Step::Halted => "halted",
        Step::Illegal => "illegal",
        Step::PortFault => "a port failed",
    }
}

/// Prints events on a line: `<` or `>`, the port and the value of each.
pub fn print_events(page: &mut Page, events: &[Event]) {
    page.text("events:");
    for event in events {
        page.byte(if event.write { " >" } else { " <" }, event.port);
        page.byte(" ", event.value);
    }
    page.text("\n");
}
