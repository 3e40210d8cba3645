//! Code that is assembled: as long as a segment and longer, and with many labels.

use crate::events::word_of;
use crate::page::Page;
use crate::runs::machine_with;
use asm8080::{Code, CodeBytes, Fault, Label, WordForm};
use host::Failure;
use isa8080::{Instr, Pair};
use objmod::{Segment, Target};
use std::alloc::Global;

// Code of `count` instructions of one byte and a jump to the end, which is bound or not.
fn long_code(alloc: Global, count: usize, is_bound: bool) -> Result<CodeBytes, Failure<Fault>> {
    let mut code = Code::new(alloc);
    for _ in 0..count {
        code.emit(Instr::Nop)?;
    }
    let end = code.label()?;
    code.jump(WordForm::Jump, end)?;
    if is_bound && !code.is_bound(end) {
        code.bind(end)?;
    }
    code.finish()
}

// Adds a jump over HLT to a label of its own.
#[tactic(auto, using(crate::proofs::Labels::still_unbound))]
fn jump_over(code: &mut Code) -> Result<(), Failure<Fault>> {
    let label = code.label()?;
    code.jump(WordForm::Jump, label)?;
    code.emit(Instr::Hlt)?;
    code.bind(label)?;
    Ok(())
}

// Code with `count` labels.
fn code_with_labels(alloc: Global, count: usize) -> Result<CodeBytes, Failure<Fault>> {
    let mut code = Code::new(alloc);
    for _ in 0..count {
        jump_over(&mut code)?;
    }
    code.finish()
}

// Prints what code is: how many bytes it has, and the last one, or why there is no code.
fn print_code(page: &mut Page, what: &str, made: &Result<CodeBytes, Failure<Fault>>) {
    page.text(what);
    match made {
        Ok(code) => {
            page.number(": ", code.bytes().len() as u64);
            page.byte(
                " bytes, the last ",
                code.bytes().last().copied().unwrap_or(0),
            );
            page.text("\n");
        }
        Err(Failure::Fault(fault)) => page.line(": ", fault.number()),
        Err(Failure::Memory) => page.line(": ", "MEMORY"),
    }
}

// Prints what code with 10,000 labels is, and where the machine comes to that carries it out for as many steps.
fn print_labels(page: &mut Page) {
    let made = code_with_labels(page.alloc(), 10_000);
    print_code(page, "10000 labels", &made);
    let Ok(code) = made else {
        return;
    };
    match machine_with(page.alloc(), 0, code.bytes(), false) {
        Ok(mut machine) => {
            page.text("after 10000 steps: ");
            page.text(word_of(machine.run(10_000)));
            page.word(", ", machine.registers().pc);
            page.text("\n");
        }
        Err(_) => page.line("after 10000 steps: ", "MEMORY"),
    }
}

// Adds instructions with each kind of word, a label, data of each kind and bytes that stay unset.
fn add_parts(code: &mut Code) -> Result<Label, Failure<Fault>> {
    code.emit_fixed(
        WordForm::LoadPair(Pair::Hl),
        Target::InSegment(Segment::Data),
        0x1234,
    )?;
    code.emit_number(WordForm::StoreA, 0xABCD)?;
    let label = code.label()?;
    code.bind(label)?;
    code.emit_byte(0x5A)?;
    code.emit_address(Target::InSegment(Segment::Stack), 0x0102)?;
    code.leave(2)?;
    code.emit_place(label)?;
    Ok(label)
}

// Prints what is made of code with a label: its parts, and two points for each byte that is not set.
fn print_made(page: &mut Page, labels: usize, label: Label, made: CodeBytes) {
    page.number("parts: labels ", labels as u64);
    page.number(", the last at ", made.place(label) as u64);
    let (bytes, are_set, fixes) = made.into_parts();
    page.number(", fixes ", fixes.len() as u64);
    page.text(", bytes");
    for (byte, is_set) in bytes.iter().zip(&are_set) {
        if *is_set {
            page.byte(" ", *byte);
        } else {
            page.text(" ..");
        }
    }
    page.text("\n");
}

// Prints what is made of code with a label.
fn print_labelled(page: &mut Page, code: Code, label: Label) {
    let labels = code.label_count();
    match code.finish() {
        Ok(made) => print_made(page, labels, label, made),
        Err(failure) => print_code(page, "parts", &Err(failure)),
    }
}

// Prints what code with each kind of part is.
fn print_parts(page: &mut Page) {
    let mut code = Code::new(page.alloc());
    match add_parts(&mut code) {
        Ok(label) => print_labelled(page, code, label),
        Err(failure) => print_code(page, "parts", &Err(failure)),
    }
}

/// Prints what code of these kinds is. With one allocation refused, one of the lines is another, and says so.
pub fn print_assemblies(page: &mut Page) {
    for (what, count, is_bound) in [
        ("65535 bytes", 65_532, true),
        ("65536 bytes", 65_533, true),
        ("65535 bytes, not bound", 65_532, false),
        ("65536 bytes, not bound", 65_533, false),
    ] {
        let made = long_code(page.alloc(), count, is_bound);
        print_code(page, what, &made);
    }
    print_labels(page);
    let again = long_code(page.alloc(), 65_532, true);
    print_code(page, "65535 bytes again", &again);
    print_parts(page);
}
