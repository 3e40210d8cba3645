//! Two object files, which stand below as bytes, are read, linked and placed, and the image is printed, as addresses and as
//! Intel HEX, which is read again.

use crate::images::place_files;
use anyhow::Result;
use hex80::{read_hex, write_hex};
use locate::{Absolute, Plan};
use std::str;

// A main module: CALL S and HLT, where S is an external name.
const MAIN: [u8; 51] = [
    0x02, 0x09, 0x00, 0x01, 0x41, 0x00, 0x00, 0x01, 0x04, 0x00, 0x03, 0xAB, 0x18, 0x04, 0x00, 0x01,
    0x53, 0x00, 0x90, 0x06, 0x08, 0x00, 0x01, 0x00, 0x00, 0xCD, 0x00, 0x00, 0x76, 0xAE, 0x20, 0x06,
    0x00, 0x03, 0x00, 0x00, 0x01, 0x00, 0xD6, 0x04, 0x05, 0x00, 0x01, 0x01, 0x00, 0x00, 0xF5, 0x0E,
    0x01, 0x00, 0xF1,
];

// The module that has S as a public name: MVI A,8, OUT 4 and RET.
const SHOW: [u8; 46] = [
    0x02, 0x09, 0x00, 0x01, 0x42, 0x00, 0x00, 0x01, 0x05, 0x00, 0x03, 0xA9, 0x16, 0x07, 0x00, 0x01,
    0x00, 0x00, 0x01, 0x53, 0x00, 0x8E, 0x06, 0x09, 0x00, 0x01, 0x00, 0x00, 0x3E, 0x08, 0xD3, 0x04,
    0xC9, 0x0A, 0x04, 0x05, 0x00, 0x00, 0x00, 0x00, 0x00, 0xF7, 0x0E, 0x01, 0x00, 0xF1,
];

// Where the code, the data and the stack are to lie.
pub const PLAN: Plan = Plan {
    code: 0x100,
    data_base: 0x4000,
    stack: 0xF000,
    stack_size: 0x400,
};

// Prints where an image starts, and where its public names lie.
fn print_places(rt: &HostRuntime, image: &Absolute) -> Result<()> {
    println!(rt; "start {:04X}", image.start())?;
    for symbol in image.symbols() {
        println!(rt; "{} {:04X}", symbol.name, symbol.address)?;
    }
    Ok(())
}

// Prints the bytes of an image as Intel HEX, and the pieces of memory that are read again from that text.
fn print_hex(rt: &HostRuntime, image: &Absolute) -> Result<()> {
    let mut text: Vec<u8> = Vec::new(rt.alloc());
    write_hex(rt.alloc(), image.pieces(), &mut text)?;
    print!(rt; "{}", str::from_utf8(text.as_slice())?)?;
    for piece in &read_hex(rt.alloc(), text.as_slice())? {
        println!(rt;
            "{} bytes from {:04X} on",
            piece.bytes.as_slice().len(),
            piece.start
        )?;
    }
    Ok(())
}

/// Prints the image of the two files.
pub fn print_image(rt: &HostRuntime) -> Result<()> {
    let image = place_files(rt.alloc(), &[&MAIN, &SHOW], &PLAN)?;
    print_places(rt, &image)?;
    print_hex(rt, &image)
}
