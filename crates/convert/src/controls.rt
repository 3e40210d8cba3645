//! Controls on a line of an old source: words, each with a group in parentheses or without.

ghost use Rattle.std.specs.Prelude.{◌≡◌, ◌≤◌, false, drop, length};
ghost use Rattle.std.specs.Str.{str_eq_ignore_ascii_case};
ghost use Rattle.convert.specs.Controls.{after_blanks, argument_of, close_at, group_text, has_quote, is_blank, is_last, kind_at, kind_of, last_control, quote_at, quoted_after, step_at, word_length};

/// What a control does. IC is another word for INCLUDE.
#[derive(Clone, Copy)]
pub enum ControlKind {
    /// Puts a file in.
    Include,
    /// Begins lines that may not apply.
    If,
    /// Begins another part of these.
    ElseIf,
    /// Begins their last part.
    Else,
    /// Ends them.
    EndIf,
    /// Sets switches.
    Set,
    /// Resets switches.
    Reset,
    /// Was for another compiler.
    Other,
}

/// Whether two words are the same but for the case of letters.
pub(crate) fn is_same(one: &[u8], other: &[u8]) -> bool
    ensures { result ≡ str_eq_ignore_ascii_case one.now other.now }
{
    one.eq_ignore_ascii_case(other)
}

/// Whether a byte is a blank, a tab or a return.
pub(crate) fn is_blank(byte: u8) -> bool
    ensures { result ≡ is_blank byte }
{
    byte == b' ' || (byte == b'\t' || byte == b'\r')
}

/// What follows the blanks at the front.
pub(crate) fn after_blanks(line: &[u8]) -> &[u8]
    ensures { result.now ≡ after_blanks line.now }
{
    let mut rest = line;
    while let [byte, more @ ..] = rest {
        if !is_blank(*byte) {
            return rest;
        }
        rest = more;
    }
    rest
}

// How many letters are at the front.
fn word_length(line: &[u8]) -> usize
    ensures count { result ≡ word_length line.now }
    ensures within { result ≤ length line.now }
{
    let mut count = 0;
    let mut rest = line;
    while let [byte, more @ ..] = rest {
        if !byte.is_ascii_alphabetic() {
            return count;
        }
        count += 1;
        rest = more;
    }
    count
}

// What a word is.
fn kind_of(word: &[u8]) -> ControlKind
    ensures { result ≡ kind_of word.now }
{
    if is_same(word, b"INCLUDE") || is_same(word, b"IC") {
        ControlKind::Include
    } else if is_same(word, b"IF") {
        ControlKind::If
    } else if is_same(word, b"ELSEIF") {
        ControlKind::ElseIf
    } else if is_same(word, b"ELSE") {
        ControlKind::Else
    } else if is_same(word, b"ENDIF") {
        ControlKind::EndIf
    } else if is_same(word, b"SET") {
        ControlKind::Set
    } else if is_same(word, b"RESET") {
        ControlKind::Reset
    } else {
        ControlKind::Other
    }
}

/// What the word at the front is.
pub(crate) fn kind_at(line: &[u8]) -> ControlKind
    ensures { result ≡ kind_at line.now }
{
    kind_of(&line[..word_length(line)])
}

/// What follows the word at the front.
pub(crate) fn after_word(line: &[u8]) -> &[u8]
    ensures { result.now ≡ drop (word_length line.now) line.now }
{
    &line[word_length(line)..]
}

// Whether a quote follows.
fn has_quote(line: &[u8]) -> bool
    ensures { result ≡ has_quote line.now }
{
    line.contains(&b'\'')
}

// Whether the text after a byte is in quotes; `line` is the rest of the line after the byte.
fn quoted_after(quoted: bool, byte: u8, line: &[u8]) -> bool
    ensures { result ≡ quoted_after quoted byte line.now }
{
    if byte == b'\'' {
        !quoted && has_quote(line)
    } else {
        quoted
    }
}

// How many bytes come before the next quote, or all.
fn quote_at(line: &[u8]) -> usize
    ensures count { result ≡ quote_at line.now }
    ensures within { result ≤ length line.now }
{
    let mut count = 0;
    let mut rest = line;
    while let [byte, more @ ..] = rest {
        if *byte == b'\'' {
            return count;
        }
        count += 1;
        rest = more;
    }
    count
}

// How many bytes come before the next `)` that is not in quotes, or all.
fn close_at(line: &[u8]) -> usize
    ensures count { result ≡ close_at false line.now }
    ensures within { result ≤ length line.now }
{
    let mut count = 0;
    let mut quoted = false;
    let mut rest = line;
    while let [byte, more @ ..] = rest {
        if *byte == b')' && !quoted {
            return count;
        }
        quoted = quoted_after(quoted, *byte, more);
        count += 1;
        rest = more;
    }
    count
}

/// How many bytes at the front go together: a word, a group that is closed, a text in quotes, or else one.
pub(crate) fn step_at(line: &[u8]) -> usize
    ensures { result ≡ step_at line.now }
{
    match line {
        [first, rest @ ..] => {
            if first.is_ascii_alphabetic() {
                word_length(line)
            } else if *first == b'(' && close_at(rest) < rest.len() {
                close_at(rest) + 2
            } else if *first == b'\'' && has_quote(rest) {
                quote_at(rest) + 2
            } else {
                1
            }
        }
        [] => 1,
    }
}

// The text in the group at the front: all that follows, if it is not closed.
fn group_text(line: &[u8]) -> &[u8]
    ensures { result.now ≡ group_text line.now }
{
    match line {
        [first, rest @ ..] => {
            if *first == b'(' {
                &rest[..close_at(rest)]
            } else {
                &[]
            }
        }
        [] => &[],
    }
}

/// The text in the group after the word at the front.
pub(crate) fn argument_of(line: &[u8]) -> &[u8]
    ensures { result.now ≡ argument_of line.now }
{
    group_text(after_blanks(after_word(line)))
}

/// Whether a control ends its line.
pub(crate) fn is_last(kind: ControlKind) -> bool
    ensures { result ≡ is_last kind }
{
    match kind {
        ControlKind::Include
        | ControlKind::If
        | ControlKind::ElseIf
        | ControlKind::Else
        | ControlKind::EndIf => true,
        ControlKind::Set | ControlKind::Reset | ControlKind::Other => false,
    }
}

/// A line from the first control on that ends it; nothing if there is no such control.
pub(crate) fn last_control(line: &[u8]) -> &[u8]
    ensures { result.now ≡ last_control 0 line.now }
{
    let mut passed = 0;
    let mut rest = line;
    while let [_, more @ ..] = rest {
        if passed > 0 {
            passed -= 1;
            rest = more;
            continue;
        }
        if is_last(kind_at(rest)) {
            return rest;
        }
        passed = step_at(rest).saturating_sub(1);
        rest = more;
    }
    rest
}
