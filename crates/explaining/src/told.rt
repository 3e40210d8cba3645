//! The line of a fault, taken apart.

use crate::meanings::MEANINGS;
use crate::sentences::said_of;

/// What the line of a fault tells: its number, what that means, where the fault is, and the line there, or 0.
#[derive(Clone, Copy)]
pub(crate) struct Told<'a> {
    pub(crate) number: &'a str,
    pub(crate) meaning: &'static str,
    pub(crate) place: &'a str,
    pub(crate) line: u32,
}

/// What the last line of a text tells, where it is that of a fault: `number where line`.
pub(crate) fn told_in(text: &[u8]) -> Option<Told<'_>> {
    let text = std::str::from_utf8(text).unwrap_or("");
    let text = text.strip_suffix("\n").unwrap_or("");
    let line = match text.rsplit_once('\n') {
        Some((_, last)) => last,
        None => text,
    };
    if let Some((number, rest)) = line.split_once(' ')
        && let Some((place, digits)) = rest.rsplit_once(' ')
        && let Some(meaning) = said_of(MEANINGS, number.as_bytes())
        && let Ok(line) = digits.parse::<u32>()
    {
        Some(Told {
            number,
            meaning,
            place,
            line,
        })
    } else {
        None
    }
}
