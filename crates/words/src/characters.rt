//! The characters of a source text.

ghost use Rattle.std.specs.Prelude.{◌≡◌, ◌==◌, length, count_by, take_while};
ghost use Rattle.words.specs.Characters.{is_word_byte, is_blank, is_printable, is_comment_byte};

// Whether a byte continues a name or a number: a letter, a digit or `$`.
fn is_word_byte(b: u8) -> bool
    ensures { result ≡ is_word_byte b }
{
    b.is_ascii_alphabetic() || b.is_ascii_digit() || b == b'$'
}

// Whether a byte separates words: space, tab, CR or LF.
pub(crate) fn is_blank(b: u8) -> bool
    ensures { result ≡ is_blank b }
{
    b == b' ' || b == b'\t' || b == b'\r' || b == b'\n'
}

// Whether a string may have this byte.
pub(crate) fn is_printable(b: u8) -> bool
    ensures { result ≡ is_printable b }
{
    b >= b' ' && b <= b'~'
}

// Whether a comment may have this byte.
pub(crate) fn is_comment_byte(b: u8) -> bool
    ensures { result ≡ is_comment_byte b }
{
    is_printable(b) || is_blank(b)
}

// The name or number at the front of a text.
pub(crate) fn run_of_word_bytes(text: &[u8]) -> &[u8]
    ensures { result.now ≡ take_while is_word_byte text.now }
{
    for (i, b) in text.iter().enumerate() {
        if !is_word_byte(*b) {
            return &text[..i];
        }
    }
    text
}

// How many blanks are at the front of a text.
pub(crate) fn count_of_blanks(text: &[u8]) -> usize
    ensures { result ≡ length (take_while is_blank text.now) }
{
    for (i, b) in text.iter().enumerate() {
        if !is_blank(*b) {
            return i;
        }
    }
    text.len()
}

// How many line feeds are in a text.
pub(crate) fn count_of_line_feeds(text: &[u8]) -> usize
    ensures { result ≡ count_by (λ b. b == 10) text.now }
{
    text.iter().filter(|b| **b == b'\n').count()
}
