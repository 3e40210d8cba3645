//! Quotes and comments that end before they should, and bytes that may not stand in them.

/// Whether a quote ends a string between two letters, on the line of a place and at most before the byte there, and another
/// quote comes after it on that line.
pub(crate) fn ends_string_in_word(text: &[u8], place: usize) -> bool {
    let mut is_open = false;
    let mut is_after_quote = false;
    let mut is_found = false;
    let mut before = b' ';
    for (at, byte) in text.iter().enumerate() {
        is_found = is_found || (is_after_quote && at <= place && byte.is_ascii_alphabetic());
        is_after_quote = false;
        if at >= place && (*byte == b'\'' || *byte == b'\n') {
            return is_found && *byte == b'\'';
        }
        if *byte == b'\n' {
            is_open = false;
            is_found = false;
        } else if *byte == b'\'' {
            is_after_quote = is_open && before.is_ascii_alphabetic();
            is_open = !is_open;
        }
        before = *byte;
    }
    false
}

/// Whether the last comment before a place of a text holds the beginning of another, and the end of that comes at the place
/// or after it.
pub(crate) fn is_after_nested(text: &[u8], place: usize) -> bool {
    let mut begun = 0_u32;
    let mut is_nested = false;
    let mut before = b' ';
    for (at, byte) in text.iter().enumerate() {
        match (before, *byte) {
            (b'*', b'/') if at >= place => return is_nested && begun == 0,
            (b'/', b'*') if at > place => return false,
            (b'/', b'*') => {
                begun = begun.saturating_add(1);
                before = b' ';
            }
            (b'*', b'/') => {
                is_nested = begun > 1;
                begun = 0;
                before = b' ';
            }
            (_, other) => before = other,
        }
    }
    false
}

/// Where the first byte of the comment, or of the string, at a place is that may not stand in it, and the number of its line. The
/// place is on a line of this number. None where a string has a tab or does not end on its line.
pub(crate) fn refused_byte(text: &[u8], place: usize, line: u32) -> Option<(usize, u32)> {
    let rest = text.get(place..).unwrap_or(&[]);
    let is_string = matches!(rest, [b'\'', ..]);
    let mut number = line;
    for (at, byte) in rest.iter().enumerate() {
        match *byte {
            b'\n' | b'\t' if is_string => return None,
            b'\n' => number = number.saturating_add(1),
            b'\t' | b'\r' | b' '..=b'~' => {}
            _ => return Some((place.saturating_add(at), number)),
        }
    }
    None
}
