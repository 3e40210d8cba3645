//! What is left of the words, and how single words are taken.

ghost use Rattle.std.specs.Prelude.{◌≡◌, ◌≢◌, ◌↔◌, MatchOption, MatchBool, Ok, None, ◌<◌, IsTrue, true, false, [], ◌∷◌, drop, length, IfOk, Some};
ghost use Rattle.words.specs.Spelling.{lexeme_of};
ghost use Rattle.grammar.specs.Symbols.{symbol_of, MarkSymbol, ReservedSymbol};
ghost use Rattle.words.specs.Strings.{characters_of, unquoted};
ghost use Rattle.trees.specs.internal.Views.{constant_tree, string_tree};
ghost use Rattle.syntax.specs.internal.Expressions.{operator_of, next_operator};
ghost use Rattle.syntax.specs.internal.Results.{left_of, cause_of, next_place, unexpected_of, Gives, Leaves, OrMemory};
ghost use Rattle.syntax.specs.internal.Reader.{Cause, Unexpected, TooDeep, at_mark, at_word, is_semicolon, keeps_place, place_of_word, next_semicolon, next_name, mark, word, semicolon, taken, name, number, string, constant, string_constant, number_constant};

use crate::fault::Fault;
use failure::Failure;
use std::alloc::{AllocError, Global};
use std::marker::Model;
use trees::{BinaryOperator, Constant, Identifier, Name, Number, Place, StringLiteral};
use words::{Kind, Mark, ReservedWord, Word};

/// The words that are left. Contracts see their symbols.
#[derive(Drop)]
pub(crate) struct Reader<'a> {
    pub(crate) alloc: Global,
    rest: &'a [Word<'a>],
    // The place of the word before, or the start of line 1.
    last: Place,
}

impl<'a> Model for Reader<'a> {
    ghost use Rattle.std.specs.Prelude.{List};
    ghost use Rattle.grammar.specs.Symbols.{Symbol};
    ghost use Rattle.syntax.specs.internal.Results.{left_of};

    ghost Value = { List Symbol };

    ghost view = { λ reader. left_of reader.rest.now };
}

/// The place of a word.
pub(crate) fn place_of(word: &Word) -> Place
    ensures start { result.start ≡ word.now.start }
    ensures line { result.line ≡ word.now.line }
{
    Place {
        start: word.start,
        line: word.line,
    }
}

impl<'a> Reader<'a> {
    /// The reader of words.
    pub(crate) fn new(alloc: Global, words: &'a [Word<'a>]) -> Reader<'a>
        ensures { result ≡ left_of words.now }
    {
        Reader {
            alloc,
            rest: words,
            last: Place { start: 0, line: 1 },
        }
    }

    /// Whether no word is left.
    pub(crate) fn is_at_end(&self) -> bool
        ensures { IsTrue result ↔ (self.now ≡ []) }
    {
        self.rest.is_empty()
    }

    /// The words that are left.
    pub(crate) fn words(&self) -> &'a [Word<'a>]
        ensures { left_of result.now ≡ self.now }
    {
        self.rest
    }

    // The next word.
    fn next(&self) -> Option<&'a Word<'a>>
        ensures { MatchOption result (self.now ≡ [])
            (λ word. self.now ≡ symbol_of (lexeme_of word.now) ∷ drop 1 self.now) }
    {
        self.rest.first()
    }

    /// Whether the next word is a mark other than a semicolon.
    pub(crate) fn at_mark(&self, mark: Mark) -> bool
        requires { is_semicolon mark ≡ false }
        ensures { result ≡ at_mark mark self.now }
    {
        match self.next() {
            Some(word) => word.kind == Kind::Mark(mark),
            None => false,
        }
    }

    /// Whether the next word is a reserved word.
    pub(crate) fn at_word(&self, wanted: ReservedWord) -> bool
        requires { keeps_place wanted ≡ false }
        ensures { result ≡ at_word wanted self.now }
    {
        match self.next() {
            Some(word) => word.kind == Kind::Reserved(wanted),
            None => false,
        }
    }

    /// Skips the next word.
    pub(crate) fn skip(&mut self)
        requires { self.old ≢ [] }
        ensures { self.new ≡ drop 1 self.old }
    {
        if let [first, rest @ ..] = self.rest {
            self.last = place_of(first);
            self.rest = rest;
        }
    }

    /// The place of a reserved word whose place is kept, if it is the next word.
    pub(crate) fn place_of_word(&self, wanted: ReservedWord) -> Option<Place>
        requires { keeps_place wanted ≡ true }
        ensures { result ≡ place_of_word wanted self.now }
    {
        match self.next() {
            Some(word) if word.kind == Kind::Reserved(wanted) => Some(place_of(word)),
            _ => None,
        }
    }

    /// The place of a semicolon, if it is the next word.
    pub(crate) fn next_semicolon(&self) -> Option<Place>
        ensures { result ≡ next_semicolon self.now }
    {
        match self.next() {
            Some(word) if word.kind == Kind::Mark(Mark::Semicolon) => Some(place_of(word)),
            _ => None,
        }
    }

    /// The next word, if it is a name.
    pub(crate) fn next_name(&self) -> Option<Identifier>
        ensures { result ≡ next_name self.now }
    {
        match self.next() {
            Some(word) if word.kind == Kind::Name => identifier_of(word),
            _ => None,
        }
    }

    /// The next word, if it is an operator between operands.
    pub(crate) fn next_operator(&self) -> Option<BinaryOperator>
        ensures { result ≡ next_operator self.now }
    {
        match self.next()?.kind {
            Kind::Mark(mark) => operator_of_mark(mark),
            Kind::Reserved(word) => operator_of_word(word),
            _ => None,
        }
    }

    /// A mark other than a semicolon.
    pub(crate) fn take_mark(&mut self, wanted: Mark) -> Result<(), Failure<Fault>>
        requires { is_semicolon wanted ≡ false }
        ensures { Leaves result self.new (mark wanted self.old) }
    {
        if !self.at_mark(wanted) {
            return Err(self.unexpected());
        }
        self.skip();
        Ok(())
    }

    /// A semicolon.
    pub(crate) fn take_semicolon(&mut self) -> Result<Place, Failure<Fault>>
        ensures { Gives (λ place. place) result self.new (semicolon self.old) }
    {
        match self.next_semicolon() {
            Some(place) => {
                self.skip();
                Ok(place)
            }
            None => Err(self.unexpected()),
        }
    }

    /// A reserved word whose place is not kept.
    pub(crate) fn take_word(&mut self, wanted: ReservedWord) -> Result<(), Failure<Fault>>
        requires { keeps_place wanted ≡ false }
        ensures { Leaves result self.new (word wanted self.old) }
    {
        if !self.at_word(wanted) {
            return Err(self.unexpected());
        }
        self.skip();
        Ok(())
    }

    /// A reserved word whose place is kept.
    pub(crate) fn take_placed(&mut self, wanted: ReservedWord) -> Result<Place, Failure<Fault>>
        requires { keeps_place wanted ≡ true }
        ensures { Gives (λ place. place) result self.new (taken (place_of_word wanted self.old) self.old) }
    {
        match self.place_of_word(wanted) {
            Some(place) => {
                self.skip();
                Ok(place)
            }
            None => Err(self.unexpected()),
        }
    }

    /// A name.
    pub(crate) fn take_name(&mut self) -> Result<Identifier, Failure<Fault>>
        ensures { Gives (λ found. found) result self.new (name self.old) }
    {
        match self.next_name() {
            Some(found) => {
                self.skip();
                Ok(found)
            }
            None => Err(self.unexpected()),
        }
    }

    /// A number.
    pub(crate) fn take_number(&mut self) -> Result<Number, Failure<Fault>>
        ensures { Gives (λ found. found) result self.new (number self.old) }
    {
        match self.next() {
            Some(
                Word {
                    kind: Kind::Number(value),
                    start,
                    line,
                    ..
                },
            ) => {
                let place = Place {
                    start: *start,
                    line: *line,
                };
                self.skip();
                Ok(Number {
                    value: *value,
                    place,
                })
            }
            _ => Err(self.unexpected()),
        }
    }

    /// A string.
    pub(crate) fn take_string(&mut self) -> Result<StringLiteral, Failure<Fault>>
        ensures { Gives string_tree result self.new (string self.old) }
    {
        match self.next() {
            Some(word) if word.kind == Kind::String => {
                let place = place_of(word);
                let characters = characters_of(self.alloc, word.text)?;
                self.skip();
                Ok(StringLiteral { characters, place })
            }
            _ => Err(self.unexpected()),
        }
    }

    /// A number or a string.
    pub(crate) fn take_constant(&mut self) -> Result<Constant, Failure<Fault>>
        ensures { Gives constant_tree result self.new (constant self.old) }
    {
        if self.at_string() {
            self.take_string_constant()
        } else {
            self.take_number_constant()
        }
    }

    // A string as a constant.
    fn take_string_constant(&mut self) -> Result<Constant, Failure<Fault>>
        ensures { Gives constant_tree result self.new (string_constant self.old) }
    {
        let literal = self.take_string()?;
        or_memory(Constant::string(self.alloc, literal))
    }

    // A number as a constant.
    fn take_number_constant(&mut self) -> Result<Constant, Failure<Fault>>
        ensures { Gives constant_tree result self.new (number_constant self.old) }
    {
        let number = self.take_number()?;
        Ok(Constant::number(number))
    }

    // Whether the next word is a string.
    fn at_string(&self) -> bool
        ensures { MatchBool result (constant self.now ≡ string_constant self.now)
            (constant self.now ≡ number_constant self.now) }
    {
        match self.next() {
            Some(word) => word.kind == Kind::String,
            None => false,
        }
    }

    /// The fault of a word that can't stand there, or of the end of the words.
    pub(crate) fn unexpected(&self) -> Failure<Fault>
        ensures { cause_of result ≡ Some Unexpected }
    {
        Failure::Fault(unexpected_at(self.rest, self.last))
    }

    /// The fault of nesting too deep.
    pub(crate) fn too_deep(&self) -> Failure<Fault>
        ensures { cause_of result ≡ Some TooDeep }
    {
        Failure::Fault(Fault::Depth {
            place: next_place(self.rest, self.last),
        })
    }
}

// The fault of the next word, which can't stand there, or of the end of the words, after the last word.
fn unexpected_at(rest: &[Word], last: Place) -> Fault
    ensures { result ≡ unexpected_of rest.now last }
{
    match rest {
        [first, ..] => Fault::Word {
            place: place_of(first),
        },
        [] => Fault::End { place: last },
    }
}

// The place of the next word, or of the last one.
fn next_place(rest: &[Word], last: Place) -> Place
    ensures { result ≡ next_place rest.now last }
{
    match rest {
        [first, ..] => place_of(first),
        [] => last,
    }
}

/// The value that was made, or the failure of memory.
pub(crate) fn or_memory<T: Drop>(made: Result<T, AllocError>) -> Result<T, Failure<Fault>>
    ensures { OrMemory made result }
{
    Ok(made?)
}

// The identifier that a word is, if its characters are a name's.
fn identifier_of(word: &Word) -> Option<Identifier>
    requires { word.now.kind ≡ Kind.Name }
    ensures { result ≡ next_name (symbol_of (lexeme_of word.now) ∷ []) }
{
    match Name::from_text(word.text) {
        Some(name) => Some(Identifier {
            name,
            place: place_of(word),
        }),
        None => None,
    }
}

// The bytes that a string stands for, from the bytes of its word.
fn characters_of(alloc: Global, text: &[u8]) -> Result<Vec<u8>, AllocError>
    ensures { IfOk result (λ made. made.items ≡ characters_of text.now) }
{
    match text {
        [_, after @ ..] => unquoted(alloc, after),
        [] => Ok(Vec::new(alloc)),
    }
}

// The bytes that a string stands for, from the bytes after its opening quote: of two quotes one stays.
fn unquoted(alloc: Global, text: &[u8]) -> Result<Vec<u8>, AllocError>
    ensures { IfOk result (λ made. made.items ≡ unquoted false text.now) }
{
    let mut characters = Vec::with_capacity(alloc, text.len().saturating_sub(1))?;
    let mut quoted = false;
    for byte in text {
        quoted = *byte == b'\'' && !quoted;
        if !quoted {
            characters.push(*byte)?;
        }
    }
    Ok(characters)
}

// The operator that a mark is.
fn operator_of_mark(mark: Mark) -> Option<BinaryOperator>
    ensures { result ≡ operator_of (MarkSymbol mark) }
{
    match mark {
        Mark::EqualSign => Some(BinaryOperator::Equal),
        Mark::LessSign => Some(BinaryOperator::Less),
        Mark::GreaterSign => Some(BinaryOperator::Greater),
        Mark::LessEqualSign => Some(BinaryOperator::LessOrEqual),
        Mark::GreaterEqualSign => Some(BinaryOperator::GreaterOrEqual),
        Mark::UnequalSign => Some(BinaryOperator::Unequal),
        Mark::PlusSign => Some(BinaryOperator::Add),
        Mark::MinusSign => Some(BinaryOperator::Subtract),
        Mark::Asterisk => Some(BinaryOperator::Multiply),
        Mark::Slash => Some(BinaryOperator::Divide),
        _ => None,
    }
}

// The operator that a reserved word is.
fn operator_of_word(word: ReservedWord) -> Option<BinaryOperator>
    ensures { result ≡ operator_of (ReservedSymbol word) }
{
    match word {
        ReservedWord::Or => Some(BinaryOperator::Or),
        ReservedWord::Xor => Some(BinaryOperator::Xor),
        ReservedWord::And => Some(BinaryOperator::And),
        ReservedWord::Mod => Some(BinaryOperator::Modulo),
        _ => None,
    }
}
