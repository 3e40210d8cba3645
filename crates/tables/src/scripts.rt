//! Scripts: inputs by port, in their order, and 255 past the end.

use crate::events::print_events;
use crate::page::Page;
use ports::{Ports, Script};

/// Prints what the ports of a script give. A port is read before it has inputs: that read takes the place of the first.
pub fn print_scripts(page: &mut Page) {
    let mut script = Script::new(page.alloc());
    page.note(script.input(7).is_ok());
    page.note(script.push_input(7, 1).is_ok());
    page.note(script.push_input(7, 2).is_ok());
    page.note(script.push_input(255, 3).is_ok());
    for port in [7, 7, 255] {
        page.note(script.input(port).is_ok());
    }
    page.note(script.output(0, 4).is_ok());
    print_events(page, script.events());
}
