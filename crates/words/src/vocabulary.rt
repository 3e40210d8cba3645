//! The kinds of words, the reserved words and the marks.

/// A reserved word, which is not a name.
#[derive(Clone, Copy, PartialEq, Eq)]
pub enum ReservedWord {
    Address,
    And,
    At,
    Based,
    By,
    Byte,
    Call,
    Case,
    Data,
    Declare,
    Disable,
    Do,
    Else,
    Enable,
    End,
    Eof,
    External,
    Go,
    Goto,
    Halt,
    If,
    Initial,
    Interrupt,
    Label,
    Literally,
    Minus,
    Mod,
    Not,
    Or,
    Plus,
    Procedure,
    Public,
    Reentrant,
    Return,
    Structure,
    Then,
    To,
    While,
    Xor,
}

/// A mark: an operator or a separator, written with one or two special characters.
#[derive(Clone, Copy, PartialEq, Eq)]
pub enum Mark {
    /// `=`
    EqualSign,
    /// `<`
    LessSign,
    /// `>`
    GreaterSign,
    /// `<=`
    LessEqualSign,
    /// `>=`
    GreaterEqualSign,
    /// `<>`
    UnequalSign,
    /// `+`
    PlusSign,
    /// `-`
    MinusSign,
    /// `*`
    Asterisk,
    /// `/`
    Slash,
    /// `(`
    LeftParenthesis,
    /// `)`
    RightParenthesis,
    /// `,`
    Comma,
    /// `;`
    Semicolon,
    /// `:`
    Colon,
    /// `.`
    Period,
    /// `:=`
    AssignSign,
}

/// What a word is. The characters of a name and the bytes of a string stand in the word's text.
#[derive(Clone, Copy, PartialEq, Eq)]
pub enum Kind {
    Name,
    Reserved(ReservedWord),
    Number(u16),
    String,
    Mark(Mark),
}

/// How each reserved word is written.
pub(crate) static RESERVED_WORDS: [(&[u8], ReservedWord); 39] = [
    (b"ADDRESS", ReservedWord::Address),
    (b"AND", ReservedWord::And),
    (b"AT", ReservedWord::At),
    (b"BASED", ReservedWord::Based),
    (b"BY", ReservedWord::By),
    (b"BYTE", ReservedWord::Byte),
    (b"CALL", ReservedWord::Call),
    (b"CASE", ReservedWord::Case),
    (b"DATA", ReservedWord::Data),
    (b"DECLARE", ReservedWord::Declare),
    (b"DISABLE", ReservedWord::Disable),
    (b"DO", ReservedWord::Do),
    (b"ELSE", ReservedWord::Else),
    (b"ENABLE", ReservedWord::Enable),
    (b"END", ReservedWord::End),
    (b"EOF", ReservedWord::Eof),
    (b"EXTERNAL", ReservedWord::External),
    (b"GO", ReservedWord::Go),
    (b"GOTO", ReservedWord::Goto),
    (b"HALT", ReservedWord::Halt),
    (b"IF", ReservedWord::If),
    (b"INITIAL", ReservedWord::Initial),
    (b"INTERRUPT", ReservedWord::Interrupt),
    (b"LABEL", ReservedWord::Label),
    (b"LITERALLY", ReservedWord::Literally),
    (b"MINUS", ReservedWord::Minus),
    (b"MOD", ReservedWord::Mod),
    (b"NOT", ReservedWord::Not),
    (b"OR", ReservedWord::Or),
    (b"PLUS", ReservedWord::Plus),
    (b"PROCEDURE", ReservedWord::Procedure),
    (b"PUBLIC", ReservedWord::Public),
    (b"REENTRANT", ReservedWord::Reentrant),
    (b"RETURN", ReservedWord::Return),
    (b"STRUCTURE", ReservedWord::Structure),
    (b"THEN", ReservedWord::Then),
    (b"TO", ReservedWord::To),
    (b"WHILE", ReservedWord::While),
    (b"XOR", ReservedWord::Xor),
];
