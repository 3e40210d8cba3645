//! Whether a text is a listing, as its first lines show it.

// How many bytes of a text are looked at.
const LOOKED_AT: usize = 2000;

// In how many lines that are not empty a heading is looked for.
const HEADING_LINES: u32 = 3;

// In how many columns a line of a listing has its number, and in how many it has what is no source.
const NUMBER_COLUMNS: usize = 4;

const COLUMNS: usize = 14;

// Whether columns have digits and blanks alone, and digits in the first ones.
fn are_numbered(columns: &[u8]) -> bool {
    let mut has_digit = false;
    for (at, byte) in columns.iter().enumerate() {
        match *byte {
            b' ' => {}
            b'0'..=b'9' if at < NUMBER_COLUMNS => has_digit = true,
            _ => return false,
        }
    }
    has_digit
}

// Whether a source begins with a name and a colon.
fn begins_with_label(source: &[u8]) -> bool {
    match std::str::from_utf8(source).unwrap_or("").split_once(':') {
        Some((name, _)) => {
            let name = name.trim().as_bytes();
            let is_one = name
                .iter()
                .all(|byte| byte.is_ascii_alphanumeric() || *byte == b'$');
            is_one && matches!(name, [first, ..] if first.is_ascii_alphabetic())
        }
        None => false,
    }
}

// Whether a line begins as a statement of a listing that is a module: with its number, and a name and a colon after the columns
// of numbers.
fn begins_module(line: &[u8]) -> bool {
    let columns = line.get(..COLUMNS).unwrap_or(&[]);
    are_numbered(columns) && begins_with_label(line.get(COLUMNS..).unwrap_or(&[]))
}

/// Whether a text begins as a listing: with a heading of the compiler, or with the statement 1, which is the module.
pub(crate) fn is_listing(text: &[u8]) -> bool {
    let beginning = text.get(..LOOKED_AT.min(text.len())).unwrap_or(&[]);
    let mut count = 0_u32;
    for line in std::str::from_utf8(beginning).unwrap_or("").lines() {
        let columns = line.as_bytes();
        let line = line.trim();
        if line.starts_with("PL/M-80 COMPILER") || line.starts_with("ISIS-II PL/M-80") {
            return true;
        }
        if !line.is_empty() {
            if count == 0 && begins_module(columns) {
                return true;
            }
            count = count.saturating_add(1);
        }
        if count == HEADING_LINES || line.starts_with("/*") {
            return false;
        }
    }
    false
}
