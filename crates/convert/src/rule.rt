//! The form of rules.

use crate::class::Class;

/// A part of what a rule looks for.
#[derive(Clone, Copy)]
pub enum Part {
    /// A word of a class.
    Is(Class),
    /// BYTE or ADDRESS.
    Type,
    /// PUBLIC or EXTERNAL.
    Scope,
    /// INITIAL or DATA.
    Values,
    /// Words in parentheses, with these.
    Group,
    /// A name, or words in parentheses.
    Names,
    /// A group of one item, with BASED.
    BasedOne,
    /// A group of several items, at least one with BASED.
    BasedList,
    /// A group of several items, none with BASED.
    List,
    /// A group with `:=` in no further parentheses.
    Assigning,
    /// A group with as many items as the rule's first part, and no string of several characters.
    ItemsFor,
    /// PUBLIC, EXTERNAL, AT, INITIAL or DATA.
    Attribute,
    /// EOF, if it is the last word of the text.
    EndOfText,
    /// The sides of a `=`, with it, one of which assigns a name that the other uses.
    Clash,
}

/// A piece of what a rule writes. A part is given by its number, from 0.
#[derive(Clone, Copy)]
pub enum Put {
    /// The text of a part.
    Copy(u8),
    /// The text after a part, up to the end of another.
    After(u8, u8),
    /// These bytes.
    Text(&'static [u8]),
    /// The text of a group without its parentheses.
    Inner(u8),
    /// A group, with parentheses around each item that has `:=` in no further parentheses.
    Wrapped(u8),
    /// For each item of the group that is the first part, with commas between them: the item, the text from one part to
    /// another, and a value.
    Each { first: u8, last: u8, value: Value },
}

/// The value of an item of a list.
#[derive(Clone, Copy)]
pub enum Value {
    /// None.
    Nothing,
    /// The item of the same number in a group, in parentheses.
    Item(u8),
    /// What a group holds, and the item's number, from 0, times this many bytes, in parentheses.
    Address(u8, u8),
}

/// What a rule does.
#[derive(Clone, Copy)]
pub enum Action {
    /// Writes this in place of what was found.
    Write(&'static [Put]),
    /// Leaves what was found, and says what to write.
    Tell(&'static str),
    /// Deletes what was found. If it begins with a number other than this one, says what to write, and then that number.
    DeleteNumber(u16, &'static str),
}

/// A rule: what it looks for, and what it does with it.
#[derive(Clone, Copy)]
pub struct Rule {
    pub parts: &'static [Part],
    pub action: Action,
}
