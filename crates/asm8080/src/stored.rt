//! Items as code keeps them.

ghost use Rattle.std.specs.Prelude.{◌≡◌, ◌++◌, [], ◌∷◌, OnErr, OnOk};
ghost use Rattle.asm8080.specs.declared.item.Item.TheVariants.{WithWord, Address};

use crate::item::{Item, Reference, WordForm};
use isa8080::Instr;
use object_modules::{Segment, Target};
use std::alloc::AllocError;
use std::marker::Model;

/// What an item is, with nothing nested.
#[derive(Clone, Copy)]
pub(crate) enum StoredForm {
    /// An instruction whose bytes are known.
    Plain(Instr),
    /// An instruction whose word is the place of a label, by its number.
    LabelWord(WordForm, u32),
    /// An instruction whose word is an offset from the start of a segment.
    SegmentWord(WordForm, Segment, u16),
    /// An instruction whose word is an offset from an external name, by its number.
    ExternalWord(WordForm, u16, u16),
    /// An instruction whose word is a number.
    NumberWord(WordForm, u16),
    /// A byte of data.
    Byte(u8),
    /// A word of data that is the place of a label, by its number.
    LabelAddress(u32),
    /// A word of data that is an offset from the start of a segment.
    SegmentAddress(Segment, u16),
    /// A word of data that is an offset from an external name, by its number.
    ExternalAddress(u16, u16),
    /// A word of data that is a number.
    NumberAddress(u16),
    /// A number of bytes that stay unset.
    Gap(u16),
    /// The place of a label, by its number.
    Mark(u32),
}

/// An item in less memory.
#[derive(Drop)]
pub(crate) struct StoredItem {
    form: StoredForm,
}

// Code has many items, so each is small.
const _: () = prove!(size_of::<StoredItem>() <= 8);

impl Model for StoredItem {
    ghost use Rattle.asm8080.specs.declared.item.Item.{Item};
    ghost use Rattle.asm8080.specs.internal.Stored.{item_of};

    ghost Value = { Item };

    ghost view = { λ stored. item_of stored.form };
}

// An instruction with its word.
fn stored_word(form: WordForm, reference: Reference) -> StoredItem
    ensures { result ≡ WithWord form reference }
{
    let form = match reference {
        Reference::AtLabel(label) => StoredForm::LabelWord(form, label),
        Reference::AtTarget(Target::InSegment(segment), offset) => {
            StoredForm::SegmentWord(form, segment, offset)
        }
        Reference::AtTarget(Target::External(number), offset) => {
            StoredForm::ExternalWord(form, number, offset)
        }
        Reference::AtNumber(number) => StoredForm::NumberWord(form, number),
    };
    StoredItem { form }
}

// A word of data.
fn stored_address(reference: Reference) -> StoredItem
    ensures { result ≡ Address reference }
{
    let form = match reference {
        Reference::AtLabel(label) => StoredForm::LabelAddress(label),
        Reference::AtTarget(Target::InSegment(segment), offset) => {
            StoredForm::SegmentAddress(segment, offset)
        }
        Reference::AtTarget(Target::External(number), offset) => {
            StoredForm::ExternalAddress(number, offset)
        }
        Reference::AtNumber(number) => StoredForm::NumberAddress(number),
    };
    StoredItem { form }
}

impl StoredItem {
    // An item as it is kept.
    fn of(item: Item) -> StoredItem
        ensures { result ≡ item }
    {
        let form = match item {
            Item::Plain(instruction) => StoredForm::Plain(instruction),
            Item::WithWord(form, reference) => return stored_word(form, reference),
            Item::Byte(value) => StoredForm::Byte(value),
            Item::Address(reference) => return stored_address(reference),
            Item::Gap(count) => StoredForm::Gap(count),
            Item::Mark(label) => StoredForm::Mark(label),
        };
        StoredItem { form }
    }

    /// The item.
    pub(crate) fn item(&self) -> Item
        ensures { result ≡ self.now }
    {
        match self.form {
            StoredForm::Plain(instruction) => Item::Plain(instruction),
            StoredForm::LabelWord(form, label) => Item::WithWord(form, Reference::AtLabel(label)),
            StoredForm::SegmentWord(form, segment, offset) => {
                Item::WithWord(
                    form,
                    Reference::AtTarget(Target::InSegment(segment), offset),
                )
            }
            StoredForm::ExternalWord(form, number, offset) => {
                Item::WithWord(form, Reference::AtTarget(Target::External(number), offset))
            }
            StoredForm::NumberWord(form, number) => {
                Item::WithWord(form, Reference::AtNumber(number))
            }
            StoredForm::Byte(value) => Item::Byte(value),
            StoredForm::LabelAddress(label) => Item::Address(Reference::AtLabel(label)),
            StoredForm::SegmentAddress(segment, offset) => {
                Item::Address(Reference::AtTarget(Target::InSegment(segment), offset))
            }
            StoredForm::ExternalAddress(number, offset) => {
                Item::Address(Reference::AtTarget(Target::External(number), offset))
            }
            StoredForm::NumberAddress(number) => Item::Address(Reference::AtNumber(number)),
            StoredForm::Gap(count) => Item::Gap(count),
            StoredForm::Mark(label) => Item::Mark(label),
        }
    }
}

/// Adds an item. Fails if memory runs out, and then the items stay as they were.
pub(crate) fn store(items: &mut Vec<StoredItem>, item: Item) -> Result<(), AllocError>
    ensures items { OnOk result ((items.new).items ≡ (items.old).items ++ item ∷ []) }
    ensures err { OnErr result ((items.new).items ≡ (items.old).items) }
{
    items.push(StoredItem::of(item))?;
    Ok(())
}
