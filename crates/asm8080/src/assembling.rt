//! Items as bytes and fixes.

ghost use Rattle.std.specs.Prelude.{◌≡◌, ◌+◌, ◌≤◌, length, replicate, ◌++◌, [], ◌∷◌, Some, OnOk, IfOk};
ghost use Rattle.object_modules.specs.declared.segment.TheConstants.{SEGMENT_LIMIT};
ghost use Rattle.isa8080.specs.State.{high_byte, low_byte, wrap};
ghost use Rattle.isa8080.specs.Code.{bytes_of};
ghost use Rattle.asm8080.specs.Standing.{size_of_instruction};
ghost use Rattle.asm8080.specs.Items.{flags_of_item, instruction_with, is_set, size_of, size_of_items, word_of};
ghost use Rattle.asm8080.specs.Assembled.{place_in, target_of, with_fix};
ghost use Rattle.asm8080.specs.internal.Assembling.{all_placed, layout_from, no_code, places_of, with_item, with_items, with_mark};

use crate::bytes::CodeParts;
use crate::item::{Item, Reference, WordForm};
use crate::stored::StoredItem;
use isa8080::{Instr, encode};
use object_modules::{Fix, FixKind, Segment, Target};
use std::alloc::{AllocError, Global};

// How many bytes an instruction takes.
fn instruction_size(instruction: Instr) -> u16
    ensures { result ≡ size_of_instruction instruction }
{
    match instruction {
        Instr::Lxi(_, _)
        | Instr::Shld(_)
        | Instr::Lhld(_)
        | Instr::Sta(_)
        | Instr::Lda(_)
        | Instr::JumpIf(_, _)
        | Instr::CallIf(_, _)
        | Instr::Jmp(_)
        | Instr::Call(_) => 3,
        Instr::Mvi(_, _) | Instr::AccumulateImmediate(_, _) | Instr::Out(_) | Instr::In(_) => 2,
        _ => 1,
    }
}

// How many bytes an item takes.
fn item_size(item: Item) -> u16
    ensures { result ≡ size_of item }
{
    match item {
        Item::Plain(instruction) => instruction_size(instruction),
        Item::WithWord(_, _) => 3,
        Item::Byte(_) => 1,
        Item::Address(_) => 2,
        Item::Gap(count) => count,
        Item::Mark(_) => 0,
    }
}

/// How many bytes items take.
pub(crate) fn items_size(items: &[StoredItem]) -> u128
    ensures { result ≡ size_of_items items.now }
{
    let mut size = 0;
    for stored in items {
        size += item_size(stored.item()) as u128;
    }
    size
}

// Puts the offset of an item into the table, if it is a label.
fn put_mark(places: &mut Vec<Option<u128>>, item: Item, offset: u128)
    ensures { (places.new).items ≡ with_mark item offset (places.old).items }
{
    if let Item::Mark(label) = item
        && (label as usize) < places.len()
    {
        places[label as usize] = Some(offset);
    }
}

// A table without places.
fn no_places(alloc: Global, labels: usize) -> Result<Vec<Option<u128>>, AllocError>
    ensures { IfOk result (λ places. places.items ≡ replicate labels None) }
{
    let places = vec![in alloc; None; labels]?;
    Ok(places)
}

/// The offset of each label from the start of the items, by its number, or none if it is not bound; and the number of
/// bytes that the items take.
pub(crate) fn label_places(
    alloc: Global,
    items: &[StoredItem],
    labels: usize,
) -> Result<(Vec<Option<u128>>, u128), AllocError>
    ensures places { IfOk result (λ found. found.0.items ≡ places_of labels items.now) }
    ensures size { IfOk result (λ found. found.1 ≡ size_of_items items.now) }
{
    let mut places = no_places(alloc, labels)?;
    let mut offset = 0;
    for stored in items {
        let item = stored.item();
        put_mark(&mut places, item, offset);
        offset += item_size(item) as u128;
    }
    Ok((places, offset))
}

/// Whether each label of a table has a place.
pub(crate) fn all_placed(places: &[Option<u128>]) -> bool
    ensures { result ≡ all_placed places.now }
{
    places.iter().all(|place| place.is_some())
}

/// The place of a label by a table, modulo 65536; 0 if it is not bound.
pub(crate) fn place_word(places: &[Option<u128>], label: usize) -> u16
    ensures { result ≡ wrap (place_in places.now label) }
{
    match places.get(label) {
        Some(Some(place)) => (*place % 65_536) as u16,
        _ => 0,
    }
}

// The word of a reference where code begins at 0 and each target lies at 0.
fn reference_word(reference: Reference, places: &[Option<u128>]) -> u16
    ensures { result ≡ word_of (layout_from (place_in places.now)) reference }
{
    match reference {
        Reference::AtLabel(label) => place_word(places, label as usize),
        Reference::AtTarget(_, offset) => offset,
        Reference::AtNumber(number) => number,
    }
}

// The target that a reference counts from; none if it is a number.
fn reference_target(reference: Reference) -> Option<Target>
    ensures { result ≡ target_of reference }
{
    match reference {
        Reference::AtLabel(_) => Some(Target::InSegment(Segment::Code)),
        Reference::AtTarget(target, _) => Some(target),
        Reference::AtNumber(_) => None,
    }
}

// Adds the fix of a word, if it counts from a target.
fn push_fix(fixes: &mut Vec<Fix>, offset: u16, target: Option<Target>) -> Result<(), AllocError>
    ensures { OnOk result ((fixes.new).items ≡ (fixes.old).items ++ with_fix offset target []) }
{
    let Some(target) = target else {
        return Ok(());
    };
    fixes.push(Fix {
        kind: FixKind::Both,
        target,
        offset,
    })?;
    Ok(())
}

// The instruction of a form with its word.
fn instruction_with(form: WordForm, word: u16) -> Instr
    ensures { result ≡ instruction_with form word }
{
    match form {
        WordForm::LoadPair(pair) => Instr::Lxi(pair, word),
        WordForm::StoreHl => Instr::Shld(word),
        WordForm::LoadHl => Instr::Lhld(word),
        WordForm::StoreA => Instr::Sta(word),
        WordForm::LoadA => Instr::Lda(word),
        WordForm::Jump => Instr::Jmp(word),
        WordForm::JumpWhere(condition) => Instr::JumpIf(condition, word),
        WordForm::CallTo => Instr::Call(word),
        WordForm::CallWhere(condition) => Instr::CallIf(condition, word),
    }
}

// Adds the bytes of an instruction.
fn push_instruction(bytes: &mut Vec<u8>, instruction: Instr) -> Result<(), AllocError>
    ensures { OnOk result ((bytes.new).items ≡ (bytes.old).items ++ bytes_of instruction) }
{
    let (code, size) = encode(instruction);
    bytes.extend_from_slice(&code[..size as usize])
}

// Adds a word, low byte first.
fn push_word(bytes: &mut Vec<u8>, word: u16) -> Result<(), AllocError>
    ensures { OnOk result ((bytes.new).items ≡ (bytes.old).items ++ low_byte word ∷ high_byte word ∷ []) }
{
    bytes.push((word % 256) as u8)?;
    bytes.push((word / 256) as u8)?;
    Ok(())
}

// Adds `count` bytes of 0.
fn push_zeros(bytes: &mut Vec<u8>, count: u16) -> Result<(), AllocError>
    requires { length (bytes.old).items + count ≤ SEGMENT_LIMIT }
    ensures { OnOk result ((bytes.new).items ≡ (bytes.old).items ++ replicate count 0) }
{
    bytes.resize(bytes.len() + count as usize, 0)
}

// Whether the bytes of an item are set.
fn is_set(item: Item) -> bool
    ensures { result ≡ is_set item }
{
    !matches!(item, Item::Gap(_))
}

// Adds a flag for each byte of an item: whether it is set.
fn push_flags(flags: &mut Vec<bool>, item: Item) -> Result<(), AllocError>
    requires { length (flags.old).items + size_of item ≤ SEGMENT_LIMIT }
    ensures { OnOk result ((flags.new).items ≡ (flags.old).items ++ flags_of_item item) }
{
    flags.resize(flags.len() + item_size(item) as usize, is_set(item))
}

// Adds an item, whose labels have places in a table.
fn push_item(code: &mut CodeParts, item: Item, places: &[Option<u128>]) -> Result<(), AllocError>
    requires bytes { length code.old.bytes + size_of item ≤ SEGMENT_LIMIT }
    requires flags { length code.old.is_set + size_of item ≤ SEGMENT_LIMIT }
    ensures { OnOk result (code.new ≡ with_item (layout_from (place_in places.now)) code.old item) }
{
    let offset = code.bytes.len();
    match item {
        Item::Plain(instruction) => push_instruction(&mut code.bytes, instruction)?,
        Item::WithWord(form, reference) => {
            let word = reference_word(reference, places);
            push_instruction(&mut code.bytes, instruction_with(form, word))?;
            push_fix(
                &mut code.fixes,
                (offset + 1) as u16,
                reference_target(reference),
            )?;
        }
        Item::Byte(value) => code.bytes.push(value)?,
        Item::Address(reference) => {
            push_word(&mut code.bytes, reference_word(reference, places))?;
            push_fix(&mut code.fixes, offset as u16, reference_target(reference))?;
        }
        Item::Gap(count) => push_zeros(&mut code.bytes, count)?,
        Item::Mark(_) => {}
    }
    push_flags(&mut code.is_set, item)
}

/// The code of items that fit a segment, whose labels have places in a table. It reserves memory for `room` bytes.
pub(crate) fn assemble(
    alloc: Global,
    items: &[StoredItem],
    places: &[Option<u128>],
    room: usize,
) -> Result<CodeParts, AllocError>
    requires { size_of_items items.now ≤ SEGMENT_LIMIT }
    ensures { IfOk result (λ code.
        code ≡ with_items (layout_from (place_in places.now)) no_code items.now) }
{
    let mut code = CodeParts::empty(alloc, room)?;
    for stored in items {
        push_item(&mut code, stored.item(), places)?;
    }
    Ok(code)
}
