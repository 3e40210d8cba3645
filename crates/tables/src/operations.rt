//! The operations on bytes, with the condition bits as they are: the manual's examples.

use crate::page::Page;
use alu8080::{add, compare, decimal_adjust, rotate_left_carry, subtract};
use isa8080::Flags;

// Prints a result, and the byte of the flags that it leaves.
fn print_result(page: &mut Page, what: &str, byte: u8, flags: Flags) {
    page.text(what);
    page.byte(": ", byte);
    page.byte(", flags ", flags.byte());
    page.text("\n");
}

/// Prints what some operations give.
pub fn print_operations(page: &mut Page) {
    let (sum, mut flags): (u8, Flags) = add(0x6C, 0x2E, false);
    print_result(page, "6C + 2E", sum, flags);
    let adjusted = decimal_adjust(sum, &mut flags);
    print_result(page, "adjusted", adjusted, flags);
    let rotated = rotate_left_carry(0x35, &mut flags);
    print_result(page, "35 rotated through the carry", rotated, flags);
    let (difference, flags): (u8, Flags) = subtract(0x3E, 0x3E, false);
    print_result(page, "3E - 3E", difference, flags);
    let compared: Flags = compare(0x3E, 0x3E);
    print_result(page, "3E beside 3E", difference, compared);
}
