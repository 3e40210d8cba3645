//! What DECLARE declares.

use crate::identifier::{Constant, Identifier, Number, Place, StringLiteral};
use std::alloc::{AllocError, Global};

/// BYTE or ADDRESS.
#[derive(Clone, Copy)]
pub enum ScalarType {
    Byte,
    Address,
}

/// `+` or `-` between constants.
#[derive(Clone, Copy)]
pub enum Sign {
    Plus,
    Minus,
}

/// How many elements an array has.
#[derive(Clone, Copy)]
pub enum Dimension {
    /// `(number)`
    Count(Number),
    /// `(*)`: as many as the values of the list fill.
    Implied,
}

/// PUBLIC or EXTERNAL, and where the word stands.
#[derive(Clone, Copy)]
pub enum Linkage {
    Public(Place),
    External(Place),
}

/// A member of a structure: `name [(number)] BYTE` or `name [(number)] ADDRESS`.
#[derive(Clone, Copy)]
pub struct Member {
    pub name: Identifier,
    pub dimension: Option<Number>,
    pub scalar: ScalarType,
}

/// The type of a variable or of an element of an array.
pub enum ItemType {
    Scalar(ScalarType),
    /// STRUCTURE and its members, at least one.
    Structure(Vec<Member>),
}

/// The beginning of a restricted expression.
pub enum Origin {
    Constant(Constant),
    /// `.name`
    Location(Identifier),
}

/// `+` or `-`, and a constant.
pub struct Offset {
    pub sign: Sign,
    pub constant: Constant,
}

/// A restricted expression: a constant or a location, with constants added or subtracted.
pub struct Restricted {
    pub origin: Origin,
    pub offsets: Vec<Offset>,
}

/// `AT (..)`, and where the word AT stands.
pub struct At {
    pub place: Place,
    pub address: Restricted,
}

/// INITIAL or DATA, and where the word stands.
#[derive(Clone, Copy)]
pub enum Storage {
    Initial(Place),
    Data(Place),
}

/// `INITIAL (..)` or `DATA (..)`, with at least one value.
pub struct ValueList {
    pub storage: Storage,
    pub values: Vec<Restricted>,
}

/// The names that an item declares.
pub enum Subject {
    /// A name, and the name after BASED, if there is one.
    Single {
        name: Identifier,
        base: Option<Identifier>,
    },
    /// Names in parentheses, at least one.
    Group(Vec<Identifier>),
}

/// Variables that are declared together.
pub struct Item {
    pub subject: Subject,
    pub dimension: Option<Dimension>,
    pub item_type: ItemType,
    pub linkage: Option<Linkage>,
    pub at: Option<At>,
    pub value_list: Option<ValueList>,
}

/// A name and the text that it stands for: `name LITERALLY string`.
pub struct Definition {
    pub name: Identifier,
    pub text: StringLiteral,
}

/// An element of a DECLARE.
pub enum Element {
    /// `name LITERALLY string`
    Literally(Box<Definition>),
    Item(Box<Item>),
}

impl Element {
    ghost use Rattle.std.specs.Prelude.{◌≡◌, IfOk};
    ghost use Rattle.trees.specs.Trees.{LiterallyElement, ItemElement};
    ghost use Rattle.trees.specs.internal.Views.{element_tree, item_tree, string_tree};

    /// `name LITERALLY string`
    pub fn literally(
        alloc: Global,
        name: Identifier,
        text: StringLiteral,
    ) -> Result<Element, AllocError>
        ensures view { IfOk result (λ made. element_tree made ≡ LiterallyElement name (string_tree text)) }
    {
        Ok(Element::Literally(Box::new(alloc, Definition { name, text })?))
    }

    /// Variables that are declared together.
    pub fn item(alloc: Global, item: Item) -> Result<Element, AllocError>
        ensures view { IfOk result (λ made. element_tree made ≡ ItemElement (item_tree item)) }
    {
        Ok(Element::Item(Box::new(alloc, item)?))
    }
}

// Written out, so that these are freed here, and each crate that frees one calls this.
impl Drop for ItemType {
    fn drop(self) {
        match self {
            ItemType::Scalar(_) | ItemType::Structure(_) => {}
        }
    }
}

impl Drop for Origin {
    fn drop(self) {
        match self {
            Origin::Constant(_) | Origin::Location(_) => {}
        }
    }
}

impl Drop for Offset {
    fn drop(self) {
        let Offset {
            sign: _,
            constant: _,
        } = self;
    }
}

impl Drop for Restricted {
    fn drop(self) {
        let Restricted {
            origin: _,
            offsets: _,
        } = self;
    }
}

impl Drop for At {
    fn drop(self) {
        let At {
            place: _,
            address: _,
        } = self;
    }
}

impl Drop for ValueList {
    fn drop(self) {
        let ValueList {
            storage: _,
            values: _,
        } = self;
    }
}

impl Drop for Subject {
    fn drop(self) {
        match self {
            Subject::Single { name: _, base: _ } | Subject::Group(_) => {}
        }
    }
}

impl Drop for Item {
    fn drop(self) {
        let Item {
            subject: _,
            dimension: _,
            item_type: _,
            linkage: _,
            at: _,
            value_list: _,
        } = self;
    }
}

impl Drop for Definition {
    fn drop(self) {
        let Definition { name: _, text: _ } = self;
    }
}

impl Drop for Element {
    fn drop(self) {
        match self {
            Element::Literally(_) | Element::Item(_) => {}
        }
    }
}
