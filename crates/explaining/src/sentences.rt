//! Tables of what is said of words.

/// What a table says of a word: a line of it has the word, a blank, and what is said.
pub(crate) fn said_of(table: &'static str, word: &[u8]) -> Option<&'static str> {
    for line in table.lines() {
        if let Some((first, said)) = line.split_once(' ')
            && first.as_bytes() == word
        {
            return Some(said);
        }
    }
    None
}
