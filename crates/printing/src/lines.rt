//! What a run prints: its events, and how it ended.
#![tactic(auto)]

ghost use Rattle.std.specs.Prelude.{◌≡◌, ℕ, ◌*◌, ◌/◌, ◌%◌, ◌<◌, ◌≤◌, ◌∷◌, ◌++◌, [], length, take, OnOk, OnErr};
ghost use Rattle.std.specs.List.{flat_map};
ghost use Rattle.std.specs.Io.KnownBytes.{Appends};
ghost use Rattle.printing.specs.Report.{digit_of, report_of, shown_line};
ghost use Rattle.failure.specs.Writing.{AppendsBeginning};

use failure::{Failure, WriteFault, write_bytes};
use ports::Event;
use std::io::Write;

// The bytes of the longest line.
const LINE: usize = 10;

// How many lines are written at once.
const GROUP: usize = 64;

// The upper-case hexadecimal digit of a number below 16.
fn digit(number: u8) -> u8
    requires { number < 16 }
    ensures { result ≡ digit_of number }
{
    if number < 10 {
        b'0' + number
    } else {
        b'A' + (number - 10)
    }
}

// A byte as two hexadecimal digits, the high one first.
fn digits(byte: u8) -> (u8, u8)
    ensures high { result.0 ≡ digit_of (byte / 16) }
    ensures low { result.1 ≡ digit_of (byte % 16) }
{
    (digit(byte / 16), digit(byte % 16))
}

// Puts the line of an event at the front of the text, unless its port is quiet, and answers its length.
fn put_line(text: &mut [u8], quiet: &[u8], event: &Event) -> usize
    requires { LINE ≤ length text.old }
    ensures fits { result ≤ LINE }
    ensures line { take result text.new ≡ shown_line quiet.now event.now }
{
    if quiet.contains(&event.port) {
        return 0;
    }
    let (p, q) = digits(event.port);
    let (v, w) = digits(event.value);
    if event.write {
        text[..10].copy_from_slice(&[b'O', b'U', b'T', b' ', p, q, b' ', v, w, b'\n']);
        10
    } else {
        text[..9].copy_from_slice(&[b'I', b'N', b' ', p, q, b' ', v, w, b'\n']);
        9
    }
}

// Puts the lines of the events at the front of the text, and answers their length.
fn put_lines(text: &mut [u8], quiet: &[u8], events: &[Event]) -> usize
    requires { length events.now * LINE ≤ length text.old }
    ensures fits { result ≤ length text.new }
    ensures lines { take result text.new ≡ flat_map (shown_line quiet.now) events.now }
{
    let mut end = 0;
    for event in events {
        end += put_line(&mut text[end..], quiet, event);
    }
    end
}

// Writes the lines of a few events at once.
fn write_group<W: Write>(
    events: &[Event],
    quiet: &[u8],
    out: &mut W,
) -> Result<(), Failure<WriteFault>>
    requires { length events.now ≤ GROUP }
    ensures ok { OnOk result
        (Appends (W.contents out.old) (W.contents out.new) (flat_map (shown_line quiet.now) events.now)) }
    ensures err { OnErr result
        (AppendsBeginning (W.contents out.old) (W.contents out.new) (flat_map (shown_line quiet.now) events.now)) }
{
    let mut text = [0u8; LINE * GROUP];
    let end = put_lines(&mut text, quiet, events);
    write_bytes(out, &text[..end])
}

/// Writes a line for each event that is not of a quiet port, `IN pp vv` or `OUT pp vv` with port and value in two
/// upper-case hexadecimal digits. It looks for the port of each event in the list of quiet ports.
/// After a failure the writer has a beginning of that text.
pub fn write_events<W: Write>(
    events: &[Event],
    quiet: &[u8],
    out: &mut W,
) -> Result<(), Failure<WriteFault>>
    ensures ok { OnOk result
        (Appends (W.contents out.old) (W.contents out.new) (flat_map (shown_line quiet.now) events.now)) }
    ensures err { OnErr result
        (AppendsBeginning (W.contents out.old) (W.contents out.new) (flat_map (shown_line quiet.now) events.now)) }
{
    let mut at = 0;
    while at < events.len() {
        let count = GROUP.min(events.len() - at);
        write_group(&events[at..at + count], quiet, out)?;
        at += count;
    }
    Ok(())
}

/// Writes a line, the text `last` with a line feed. After a failure the writer has a beginning of that.
pub fn write_line<W: Write>(last: &str, out: &mut W) -> Result<(), Failure<WriteFault>>
    ensures ok { OnOk result
        (Appends (W.contents out.old) (W.contents out.new) (last.now ++ 10 ∷ [])) }
    ensures err { OnErr result
        (AppendsBeginning (W.contents out.old) (W.contents out.new) (last.now ++ 10 ∷ [])) }
{
    write_bytes(out, last.as_bytes())?;
    write_bytes(out, b"\n")
}

/// Writes a line for each event that is not of a quiet port, and then the line `last`. After a failure the writer has a beginning of that text.
pub fn report<W: Write>(
    events: &[Event],
    quiet: &[u8],
    last: &str,
    out: &mut W,
) -> Result<(), Failure<WriteFault>>
    ensures ok { OnOk result
        (Appends (W.contents out.old) (W.contents out.new) (report_of quiet.now events.now last.now)) }
    ensures err { OnErr result
        (AppendsBeginning (W.contents out.old) (W.contents out.new) (report_of quiet.now events.now last.now)) }
{
    write_events(events, quiet, out)?;
    write_line(last, out)
}
