//! What is printed as an explanation, put together in memory and written once.

use itoa::Buffer;
use std::alloc::Global;
use std::io::Write;

const DIGITS: &[u8; 16] = b"0123456789ABCDEF";

/// The margin before each line.
pub(crate) const MARGIN: &str = "    ";

/// The two hexadecimal digits of a byte.
pub(crate) fn digits_of(byte: u8) -> [u8; 2] {
    [DIGITS[(byte / 16) as usize], DIGITS[(byte % 16) as usize]]
}

/// A piece of a line.
#[derive(Clone, Copy)]
pub(crate) enum Piece<'a> {
    /// A text as it is.
    Text(&'a str),
    /// Bytes of a file or of a name: a tab as a blank, and another that is no printed character by its digits.
    Shown(&'a [u8]),
    /// As many blanks as these bytes take that are shown.
    Blanks(&'a [u8]),
    /// A number.
    Number(u32),
    /// As many blanks as a number has digits.
    BlanksOf(u32),
    /// The first and the last of the addresses from one to before another.
    Addresses { start: u32, end: u32 },
}

/// A text that is put together piece by piece. No piece fails: where memory runs out, the text is not whole, and nothing
/// of it is printed.
#[derive(Drop)]
pub(crate) struct Page {
    text: Vec<u8>,
    is_whole: bool,
}

impl Page {
    /// An empty page.
    pub(crate) fn new(alloc: Global) -> Page {
        Page {
            text: Vec::new(alloc),
            is_whole: true,
        }
    }

    /// What was added, or nothing where a piece is missing.
    pub(crate) fn bytes(&self) -> &[u8] {
        if self.is_whole {
            self.text.as_slice()
        } else {
            &[]
        }
    }

    /// Notes whether a piece is there.
    pub(crate) fn note(&mut self, is_there: bool) {
        self.is_whole = self.is_whole && is_there;
    }

    // Adds bytes.
    fn add(&mut self, bytes: &[u8]) {
        let is_added = self.text.extend_from_slice(bytes).is_ok();
        self.note(is_added);
    }

    // Adds a text.
    fn text(&mut self, text: &str) {
        self.add(text.as_bytes());
    }

    // Adds addresses in hexadecimal digits, at least four each.
    fn addresses(&mut self, first: u32, last: u32) {
        let is_added = write!(self.text, "{first:04X}-{last:04X}").is_ok();
        self.note(is_added);
    }

    // Adds bytes as they are shown.
    fn shown(&mut self, bytes: &[u8]) {
        for byte in bytes {
            if is_printed(*byte) {
                self.add(&[*byte]);
            } else if *byte == b'\t' {
                self.text(" ");
            } else {
                let [high, low] = digits_of(*byte);
                self.add(&[b'<', high, low, b'>']);
            }
        }
    }

    // Adds as many blanks as the bytes take that are shown.
    fn blanks(&mut self, bytes: &[u8]) {
        for byte in bytes {
            let is_one = is_printed(*byte) || *byte == b'\t';
            self.text(if is_one { " " } else { "    " });
        }
    }

    /// Adds pieces, one after another.
    pub(crate) fn pieces(&mut self, pieces: &[Piece]) {
        for piece in pieces {
            match *piece {
                Piece::Text(text) => self.text(text),
                Piece::Shown(bytes) => self.shown(bytes),
                Piece::Blanks(bytes) => self.blanks(bytes),
                Piece::Number(number) => self.text(Buffer::new().format(number)),
                Piece::BlanksOf(number) => self.blanks(Buffer::new().format(number).as_bytes()),
                Piece::Addresses { start, end } => self.addresses(start, end.saturating_sub(1)),
            }
        }
    }

    /// Adds a line of the explanation.
    pub(crate) fn line(&mut self, pieces: &[Piece]) {
        self.text(MARGIN);
        self.pieces(pieces);
        self.text("\n");
    }

    /// Adds a sentence on a line of its own. It is given without its point.
    pub(crate) fn sentence(&mut self, pieces: &[Piece]) {
        self.text(MARGIN);
        self.pieces(pieces);
        self.text(".\n");
    }

    /// Adds what a fault means, and where to read more. The first letter may be a small one.
    pub(crate) fn cause(&mut self, sentence: &str, number: &str) {
        self.text(MARGIN);
        if let [first, rest @ ..] = sentence.as_bytes() {
            self.add(&[first.to_ascii_uppercase()]);
            self.add(rest);
        }
        self.pieces(&[
            Piece::Text(". See plm explain "),
            Piece::Text(number),
            Piece::Text(".\n"),
        ]);
    }
}

// Whether a byte is a character that is printed, or a blank.
fn is_printed(byte: u8) -> bool {
    byte == b' ' || byte.is_ascii_graphic()
}
