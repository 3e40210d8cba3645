//! The lines of a listing.

ghost use Rattle.std.specs.Prelude.{◌≡◌, ◌-◌, ◌∷◌, ◌++◌, [], None, OnOk, Some, length, map, option_and_then, option_map, replicate, ◌==◌, ◌||◌, nat_lt};
ghost use Rattle.std.specs.Fmt.{decimal};
ghost use Rattle.std.specs.List.{AllByRecursion};
ghost use Rattle.listings.specs.Listing.{instr_text, margin, name_line, numbered_line, part_lines, parts_beside, parts_in, parts_text, text_by, word_of};
ghost use Rattle.listings.specs.internal.Parts.{IsGood, lines_if, lined, part_view};
ghost use Rattle.listings.specs.internal.Views.{name_at, named_view};

use crate::named::{Named, name_at};
use crate::parts::Part;
use isa8080::Instr;
use object_commands::{put_lone, put_start};
use std::io;
use std::io::Write;

// Adds the room before what is printed below a line of a source.
fn put_margin(lines: &mut Vec<u8>) -> io::Result<()>
    ensures { OnOk result (lines.new.items ≡ lines.old.items ++ margin) }
{
    write!(lines, "      ")
}

// The room before a number, so that it ends in the fifth column.
fn room_before(number: u32) -> &'static str
    ensures { result.now ≡ replicate (5 - length (decimal number)) 32 }
{
    if number < 10 {
        "    "
    } else if number < 100 {
        "   "
    } else if number < 1_000 {
        "  "
    } else if number < 10_000 {
        " "
    } else {
        ""
    }
}

/// Adds a line of a source, after its number.
pub(crate) fn put_line(lines: &mut Vec<u8>, number: u32, line: &[u8]) -> io::Result<()>
    ensures { OnOk result (lines.new.items ≡ lines.old.items ++ numbered_line number line.now) }
{
    let room = room_before(number);
    write!(lines, "{room}{number} ")?;
    lines.extend_from_slice(line)?;
    writeln!(lines)
}

// Adds the line of the name of an address, if it has one.
fn put_name(lines: &mut Vec<u8>, names: &[Named], address: u16) -> io::Result<()>
    ensures { OnOk result (lines.new.items
        ≡ lines.old.items ++ name_line (name_at names.now address)) }
{
    match name_at(names, address) {
        Some(named) => {
            put_margin(lines)?;
            lines.extend_from_slice(named.as_bytes())?;
            writeln!(lines, ":")
        }
        None => Ok(()),
    }
}

// The word of an instruction that ends in one.
fn word_of(instr: Instr) -> Option<u16>
    ensures { result ≡ word_of instr }
{
    match instr {
        Instr::Lxi(_, word)
        | Instr::Shld(word)
        | Instr::Lhld(word)
        | Instr::Sta(word)
        | Instr::Lda(word)
        | Instr::JumpIf(_, word)
        | Instr::CallIf(_, word)
        | Instr::Jmp(word)
        | Instr::Call(word) => Some(word),
        _ => None,
    }
}

// The name of the word of an instruction, if it has one.
fn name_in(names: &[Named], instr: Instr) -> Option<&Named>
    ensures { option_map (λ named. named_view named.now) result
        ≡ option_and_then (name_at names.now) (word_of instr) }
{
    match word_of(instr) {
        Some(word) => name_at(names, word),
        None => None,
    }
}

// Adds the text of an instruction.
fn put_plain(lines: &mut Vec<u8>, instr: Instr) -> io::Result<()>
    ensures { OnOk result (lines.new.items ≡ lines.old.items ++ text_by instr None ++ 10 ∷ []) }
{
    writeln!(lines, "{instr}")
}

// Adds the text of an instruction, with a name in place of the four digits of its word.
fn put_named(lines: &mut Vec<u8>, instr: Instr, named: &Named) -> io::Result<()>
    ensures { OnOk result (lines.new.items
        ≡ lines.old.items ++ text_by instr (Some (named_view named.now)) ++ 10 ∷ []) }
{
    let mut text = Vec::new(*lines.allocator());
    write!(text, "{instr}")?;
    let kept = text.len().saturating_sub(4);
    lines.extend_from_slice(&text.as_slice()[..kept])?;
    drop(text);
    lines.extend_from_slice(named.as_bytes())?;
    writeln!(lines)
}

// Adds the text of an instruction, with the name of its word if that is an address and has one.
fn put_text(lines: &mut Vec<u8>, names: &[Named], instr: Instr, is_address: bool) -> io::Result<()>
    ensures { OnOk result (lines.new.items
        ≡ lines.old.items ++ instr_text (name_at names.now) is_address instr ++ 10 ∷ []) }
{
    if !is_address {
        return put_plain(lines, instr);
    }
    match name_in(names, instr) {
        Some(named) => put_named(lines, instr, named),
        None => put_plain(lines, instr),
    }
}

// Adds the lines of a part: the name of its address, and its bytes.
fn put_part(lines: &mut Vec<u8>, names: &[Named], part: &Part) -> io::Result<()>
    requires good { IsGood part.now }
    ensures { OnOk result (lines.new.items
        ≡ lines.old.items ++ part_lines (name_at names.now) (part_view (name_at names.now) part.now)) }
{
    put_name(lines, names, part.address)?;
    put_margin(lines)?;
    match part.instr {
        Some(instr) => {
            let size = part.size.min(3);
            put_start(lines, part.address, &part.bytes[..size as usize])?;
            put_text(lines, names, instr, part.is_address)
        }
        None => put_lone(lines, part.address, part.bytes[0]),
    }
}

// Adds the lines of a part, or nothing.
fn put_part_if(lines: &mut Vec<u8>, names: &[Named], part: &Part, is_shown: bool) -> io::Result<()>
    requires good { IsGood part.now }
    ensures { OnOk result (lines.new.items ≡ lines.old.items
        ++ lines_if is_shown (name_at names.now) (part_view (name_at names.now) part.now)) }
{
    if is_shown {
        put_part(lines, names, part)
    } else {
        Ok(())
    }
}

/// Adds the lines of the parts that stand below a line.
#[tactic(auto, using(crate::proofs::Shown::first_good, crate::proofs::Shown::rest_good, crate::proofs::Shown::none_shown, crate::proofs::Shown::next_in))]
pub(crate) fn put_parts_in(
    lines: &mut Vec<u8>,
    names: &[Named],
    parts: &[Part],
    line: u32,
) -> io::Result<()>
    requires good { AllByRecursion IsGood parts.now }
    ensures { OnOk result (lines.new.items ≡ lines.old.items
        ++ parts_text (name_at names.now) (parts_in line (map (lined (name_at names.now)) parts.now))) }
{
    let mut rest = parts;
    while let [part, more @ ..] = rest {
        put_part_if(lines, names, part, part.line == line)?;
        rest = more;
    }
    Ok(())
}

// Whether a line is not one of the lines 1 to `count`.
fn is_beside(line: u32, count: u32) -> bool
    ensures { result ≡ ((line == 0) || nat_lt count line) }
{
    line == 0 || count < line
}

/// Adds the lines of the parts that stand below none of the lines 1 to `count`.
#[tactic(auto, using(crate::proofs::Shown::first_good, crate::proofs::Shown::rest_good, crate::proofs::Shown::none_shown, crate::proofs::Shown::next_beside))]
pub(crate) fn put_parts_beside(
    lines: &mut Vec<u8>,
    names: &[Named],
    parts: &[Part],
    count: u32,
) -> io::Result<()>
    requires good { AllByRecursion IsGood parts.now }
    ensures { OnOk result (lines.new.items ≡ lines.old.items ++ parts_text (name_at names.now)
        (parts_beside count (map (lined (name_at names.now)) parts.now))) }
{
    let mut rest = parts;
    while let [part, more @ ..] = rest {
        let is_shown = is_beside(part.line, count);
        put_part_if(lines, names, part, is_shown)?;
        rest = more;
    }
    Ok(())
}
