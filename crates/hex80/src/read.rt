//! Which pieces a HEX text spells.

ghost use Rattle.std.specs.Prelude.{◌≡◌, ◌≢◌, ℕ, ◌+◌, ◌*◌, ◌<◌, ◌≤◌, ◌==◌, List, ◌∷◌, length, take, drop, slice_index, Bool, false, Some, None, Ok, Err, option_map, IfSome, MatchOption, IfOk, OnOk};
ghost use Rattle.std.specs.List.{list_any};
ghost use Rattle.std.specs.Str.{bytes_eq};
ghost use Rattle.std.specs.Str.Lines.{lines, strip_carriage_return};
ghost use Rattle.failure.specs.Failure.{IfFault};
ghost use Rattle.mem80.specs.declared.range.Piece.{Piece};
ghost use Rattle.mem80.specs.Pieces.{AreWritable};
ghost use Rattle.hex80.specs.Lines.{end_line};
ghost use Rattle.hex80.specs.Spelling.{digit_value, bytes_in, bytes_of_line, piece_in, read_line, fault_of_line, Spells, HasFirstFault};
ghost use Rattle.hex80.specs.internal.Judgement.{judgement_of};
ghost use Rattle.hex80.specs.internal.Reading.{byte_of, piece_at, line_at, Marks, marked_from, unmarked, TakesLine};

use crate::fault::Fault;
use crate::sum::byte_sum;
use failure::Failure;
use mem80::{Bytes, MEMORY_SIZE, Piece};
use std::alloc::Global;

// The most bytes that a data line has: four, the data and the checksum.
const MOST_BYTES: usize = 260;

// Where the data of a line goes: its first address, and how many bytes it has.
#[derive(Clone, Copy)]
struct Place {
    start: u16,
    count: u8,
}

// The number of an upper-case hexadecimal digit.
fn digit_value(character: u8) -> Option<u8>
    ensures value { result ≡ digit_value character }
    ensures small { IfSome result (λ value. value < 16) }
{
    match character {
        b'0'..=b'9' => Some(character - b'0'),
        b'A'..=b'F' => Some(character - (b'A' - 10)),
        _ => None,
    }
}

// The byte of two digits.
fn byte_of(high: u8, low: u8) -> Option<u8>
    ensures { result ≡ byte_of high low }
{
    let high = digit_value(high)?;
    let low = digit_value(low)?;
    Some(16 * high + low)
}

// Puts the bytes of digits at the front of a buffer, and returns how many there are.
fn put_bytes(digits: &[u8], buffer: &mut [u8]) -> Option<usize>
    requires { length digits.now ≤ 2 * length buffer.old }
    ensures bytes { bytes_in digits.now ≡ option_map (λ count. take count buffer.new) result }
    ensures count { IfSome result (λ count. count ≤ length buffer.new) }
{
    if digits.len() % 2 != 0 {
        return None;
    }
    let count = digits.len() / 2;
    for i in 0..count {
        buffer[i] = byte_of(digits[2 * i], digits[2 * i + 1])?;
    }
    Some(count)
}

// Puts the bytes of a line at the front of a buffer, and returns how many there are. It returns `None` for a line
// without a colon, with other characters than digits, or longer than data lines are.
fn put_line(line: &[u8], buffer: &mut [u8; MOST_BYTES]) -> Option<usize>
    ensures bytes { MatchOption result (read_line line.now ≡ None)
        (λ count. bytes_of_line line.now ≡ Some (take count buffer.new)) }
    ensures count { IfSome result (λ count. count ≤ MOST_BYTES) }
{
    if line.len() > 2 * MOST_BYTES + 1 {
        return None;
    }
    if line.is_empty() || line[0] != b':' {
        return None;
    }
    put_bytes(&line[1..], &mut *buffer)
}

// Where the data of a line goes, if its bytes have the form of a data line.
fn place_of(bytes: &[u8]) -> Option<Place>
    ensures place { option_map (piece_at bytes.now) result ≡ piece_in bytes.now }
    ensures size { IfSome result (λ place. length bytes.now ≡ place.count + 5) }
    ensures fits { IfSome result (λ place. place.start + place.count ≤ MEMORY_SIZE) }
{
    if bytes.len() < 4 {
        return None;
    }
    let count = bytes[0];
    let start = 256 * bytes[1] as usize + bytes[2] as usize;
    let rest = &bytes[4..];
    if bytes[3] != 0 || rest.len() != count as usize + 1 || start + count as usize > MEMORY_SIZE {
        return None;
    }
    Some(Place {
        start: start as u16,
        count,
    })
}

// Reads a line into a buffer.
fn read_line(line: &[u8], buffer: &mut [u8; MOST_BYTES]) -> Option<Place>
    ensures read { read_line line.now ≡ option_map (line_at buffer.new) result }
    ensures fits { IfSome result (λ place. place.start + place.count ≤ MEMORY_SIZE) }
{
    let count = put_line(line, buffer)?;
    place_of(&buffer[..count])
}

// Whether an address of a line is marked.
#[tactic(auto, using(crate::proofs::ReadLemmas::any_hit, crate::proofs::ReadLemmas::any_miss, crate::proofs::ReadLemmas::any_end))]
fn is_used(used: &[bool], place: Place) -> bool
    requires { place.start + place.count ≤ length used.now }
    ensures { result ≡ list_any (λ mark. mark) (take place.count (drop place.start used.now)) }
{
    let start = place.start as usize;
    for mark in &used[start..start + place.count as usize] {
        if *mark {
            return true;
        }
    }
    false
}

// Marks the addresses of a line.
#[tactic(auto, using(crate::proofs::ReadLemmas::mark_step, crate::proofs::ReadLemmas::mark_none, crate::proofs::ReadLemmas::mark_end))]
fn mark(used: &mut [bool], place: Place)
    requires { place.start + place.count ≤ length used.old }
    ensures { used.new ≡ marked_from place.start place.count used.old }
{
    let start = place.start as usize;
    for address in start..start + place.count as usize {
        used[address] = true;
    }
}

// Takes the piece of a line, if it has no fault.
#[tactic(auto, using(crate::proofs::ReadLemmas::wrong_sum))]
fn take_line(
    alloc: Global,
    line: &[u8],
    pieces: &mut Vec<Piece>,
    used: &mut [bool],
) -> Result<(), Failure<Fault>>
    requires { Marks used.old pieces.old.items }
    ensures ok { OnOk result (TakesLine pieces.old.items pieces.new.items line.now) }
    ensures marks { OnOk result (Marks used.new pieces.new.items) }
    ensures fault { IfFault result (λ fault. fault_of_line pieces.old.items line.now ≡ Some fault) }
{
    let mut buffer = [0; MOST_BYTES];
    let Some(place) = read_line(line, &mut buffer) else {
        return Err(Failure::Fault(Fault::BadLine));
    };
    let count = place.count as usize;
    if byte_sum(&buffer[..count + 5]) != 0 {
        return Err(Failure::Fault(Fault::WrongSum));
    }
    if is_used(used, place) {
        return Err(Failure::Fault(Fault::Overlap));
    }
    let bytes = Vec::from_slice(alloc, &buffer[4..4 + count])?;
    mark(used, place);
    pieces.push(Piece {
        start: place.start,
        bytes: Bytes::from_vec(bytes),
    })?;
    Ok(())
}

// A line without its carriage return.
fn without_return(line: &[u8]) -> &[u8]
    ensures { result.now ≡ strip_carriage_return line.now }
{
    let count = line.len();
    if count > 0 && line[count - 1] == b'\r' {
        &line[..count - 1]
    } else {
        line
    }
}

// Where the line in front ends.
fn line_end(text: &[u8]) -> usize
    ensures within { result ≤ length text.now }
    ensures before { (k : ℕ) → k < result → slice_index text.now k ≢ 10 }
    ensures found { result < length text.now → slice_index text.now result ≡ 10 }
{
    for (i, character) in text.iter().enumerate() {
        if *character == b'\n' {
            return i;
        }
    }
    text.len()
}

// The line in front of a text, and how long it is with its end.
#[derive(Clone, Copy)]
struct Line<'a> {
    characters: &'a [u8],
    size: usize,
}

// The line in front.
#[tactic(auto, using(crate::proofs::ReadLemmas::line_in_front, crate::proofs::ReadLemmas::last_line))]
fn first_line(text: &[u8]) -> Line<'_>
    requires { 0 < length text.now }
    ensures lines { lines text.now ≡ result.characters.now ∷ lines (drop result.size text.now) }
    ensures some { 0 < result.size }
    ensures within { result.size ≤ length text.now }
{
    let end = line_end(text);
    if end < text.len() {
        Line {
            characters: without_return(&text[..end]),
            size: end + 1,
        }
    } else {
        Line {
            characters: text,
            size: end,
        }
    }
}

// Whether a line is the end line.
fn is_end_line(line: &[u8]) -> bool
    ensures { result ≡ bytes_eq line.now end_line }
{
    line == b":00000001FF".as_slice()
}

// No address is marked.
fn unmarked() -> [bool; MEMORY_SIZE]
    ensures { result ≡ unmarked }
{
    [false; MEMORY_SIZE]
}

// The pieces that a text spells, or its first fault.
#[tactic(auto, using(crate::proofs::ReadLemmas::judge_end, crate::proofs::ReadLemmas::judge_more, crate::proofs::ReadLemmas::judge_none, crate::proofs::ReadLemmas::judge_fault))]
fn judge(alloc: Global, text: &[u8]) -> Result<Vec<Piece>, Failure<Fault>>
    ensures pieces { IfOk result (λ pieces. judgement_of text.now ≡ Ok pieces.items) }
    ensures fault { IfFault result (λ fault. judgement_of text.now ≡ Err fault) }
{
    let mut pieces = Vec::new(alloc);
    let mut used = unmarked();
    let mut at = 0;
    while at < text.len() {
        let line = first_line(&text[at..]);
        at += line.size;
        if is_end_line(line.characters) {
            return if at < text.len() {
                Err(Failure::Fault(Fault::BadLine))
            } else {
                Ok(pieces)
            };
        }
        match take_line(alloc, line.characters, &mut pieces, &mut used) {
            Ok(()) => {}
            Err(Failure::Fault(fault)) => return Err(Failure::Fault(fault)),
            Err(Failure::Memory) => return Err(Failure::Memory),
        }
    }
    Err(Failure::Fault(Fault::NoEnd))
}

/// The pieces that a text spells, one for each data line in the order of the text, also for one without
/// bytes. They can be written again by `write_hex`. Takes memory for these alone. The format is
/// `docs/formats.md`.
#[tactic(auto, using(crate::proofs::ReadLemmas::spelled_by, crate::proofs::ReadLemmas::faulty_by, crate::proofs::ReadLemmas::none_by, crate::proofs::Writable::read_writable))]
pub fn read_hex(alloc: Global, text: &[u8]) -> Result<Vec<Piece>, Failure<Fault>>
    ensures spelled { IfOk result (λ pieces. Spells text.now pieces.items) }
    ensures writable { IfOk result (λ pieces. AreWritable pieces.items) }
    ensures fault { IfFault result (λ fault. HasFirstFault text.now fault) }
    ensures none { IfFault result (λ _. (pieces : List Piece) → ¬ Spells text.now pieces) }
{
    judge(alloc, text)
}
