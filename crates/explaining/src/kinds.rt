//! What kind of file bytes are, as the first of them show it.

/// What an object file begins with: the type of its first record.
pub(crate) const OBJECT: u8 = 2;

// What a library of ISIS-II begins with: the type of its first record.
const LIBRARY: u8 = 0x2C;

// What is said of an object file where a command takes sources.
fn object_as_source(command: &str) -> &'static str {
    match command {
        "run" | "interpret" => {
            "An object file, where a source is taken: plm execute runs objects"
        }
        "list" => {
            "An object file, where a source is taken: plm list takes one object alone, and plm link makes one of several"
        }
        "symbols" => "An object file, where a source is taken: plm symbols takes sources alone",
        "compile" => {
            "An object file, where a source is taken: plm compile makes one of a source, and plm link makes one of several"
        }
        _ => {
            "An object file, where a source is taken: plm execute runs objects, and plm list takes one alone"
        }
    }
}

/// What is said of a file where a command takes a source, if it is an object file, a text of Intel HEX, which begins with a
/// colon and a digit, or begins as a library of ISIS-II.
pub(crate) fn as_source(bytes: &[u8], command: &str) -> Option<&'static str> {
    match bytes {
        [OBJECT, ..] => Some(object_as_source(command)),
        [b':', digit, ..] if digit.is_ascii_hexdigit() => {
            Some("A HEX text, where a source is taken: no command reads one")
        }
        [LIBRARY, ..] if !is_text(bytes) => Some(
            "It begins as a library of ISIS-II, where a source is taken: there LINK takes a module out, as LINK LIBRARY(MODULE) TO FILE",
        ),
        _ => None,
    }
}

/// Whether bytes are those of a text: printed characters and blanks, tabs, line ends, form feeds and ^Z alone.
pub(crate) fn is_text(bytes: &[u8]) -> bool {
    for byte in bytes {
        match *byte {
            b' '..=b'~' | b'\t' | b'\n' | b'\r' | 12 | 26 => {}
            _ => return false,
        }
    }
    !bytes.is_empty()
}

/// What is said of a file where an object file is taken, if it is a text, of Intel HEX or another, or begins as a library of
/// ISIS-II.
pub(crate) fn as_object(bytes: &[u8]) -> Option<&'static str> {
    match (is_text(bytes), bytes) {
        (true, [b':', digit, ..]) if digit.is_ascii_hexdigit() => {
            Some("A HEX text, where an object file is taken: no command reads one")
        }
        (true, _) => Some(
            "A text, where an object file is taken: plm compile makes one of a source, and plm run takes sources",
        ),
        (false, [LIBRARY, ..]) => Some(
            "It begins as a library of ISIS-II: there LINK takes a module out, as LINK LIBRARY(MODULE) TO FILE",
        ),
        (false, _) => None,
    }
}
