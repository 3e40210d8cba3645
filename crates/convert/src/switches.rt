//! Switches, which SET and RESET change, and conditions of them.

ghost use Rattle.std.specs.Prelude.{◌≡◌, ◌++◌, map, true, IfOk};
ghost use Rattle.std.specs.List.{list_all, slice_split};
ghost use Rattle.convert.specs.Controls.{is_blank};
ghost use Rattle.convert.specs.Switches.{are_names, condition_value, is_between_names, is_name, is_name_byte, is_on, is_operator, items_of, no_words, switch_view, switches_of, with_operand, with_operator, with_value, with_word, with_words};

use crate::controls::{is_blank, is_same};
use crate::edit::is_word_byte;
use std::alloc::{AllocError, Global};

/// A switch that was set or reset.
#[derive(Clone, Copy)]
pub struct Switch<'a> {
    pub name: &'a [u8],
    pub on: bool,
}

/// What a condition expects next.
#[derive(Clone, Copy)]
pub enum Expects {
    /// A name, or NOT.
    Operand,
    /// The name after NOT.
    Negated,
    /// AND, OR or the end.
    Operator,
    /// Nothing: it is not understood.
    Nothing,
}

/// A condition up to a word.
#[derive(Clone, Copy)]
pub struct Condition {
    /// Whether one of the parts before the last OR holds.
    pub any: bool,
    /// Whether all names since the last OR hold.
    pub all: bool,
    /// What it expects next.
    pub expects: Expects,
}

// Whether a switch is on: its last change counts, and one that was never changed is off.
fn is_on(switches: &[Switch], name: &[u8]) -> bool
    ensures { result ≡ is_on (map switch_view switches.now) name.now }
{
    let mut on = false;
    let mut rest = switches;
    while let [switch, more @ ..] = rest {
        if is_same(switch.name, name) {
            on = switch.on;
        }
        rest = more;
    }
    on
}

// NOT, AND or OR.
fn is_operator(word: &[u8]) -> bool
    ensures { result ≡ is_operator word.now }
{
    is_same(word, b"NOT") || (is_same(word, b"AND") || is_same(word, b"OR"))
}

// A letter, a digit, `$` or `_`.
fn is_name_byte(byte: u8) -> bool
    ensures { result ≡ is_name_byte byte }
{
    is_word_byte(byte) || byte == b'_'
}

fn has_name_bytes(word: &[u8]) -> bool
    ensures { result ≡ list_all is_name_byte word.now }
{
    let mut rest = word;
    while let [byte, more @ ..] = rest {
        if !is_name_byte(*byte) {
            return false;
        }
        rest = more;
    }
    true
}

// A letter, and then letters, digits, `$` and `_`, but no operator.
fn is_name(word: &[u8]) -> bool
    ensures { result ≡ is_name word.now }
{
    match word {
        [first, ..] => {
            first.is_ascii_alphabetic() && (has_name_bytes(word) && !is_operator(word))
        }
        [] => false,
    }
}

// A condition with a name that has this value.
fn with_value(word: &[u8], value: bool, condition: Condition) -> Condition
    ensures { result ≡ with_value word.now value condition }
{
    if is_name(word) {
        Condition {
            any: condition.any,
            all: condition.all && value,
            expects: Expects::Operator,
        }
    } else {
        Condition {
            expects: Expects::Nothing,
            ..condition
        }
    }
}

fn with_operand(switches: &[Switch], word: &[u8], condition: Condition) -> Condition
    ensures { result ≡ with_operand (map switch_view switches.now) word.now condition }
{
    if is_same(word, b"NOT") {
        Condition {
            expects: Expects::Negated,
            ..condition
        }
    } else {
        with_value(word, is_on(switches, word), condition)
    }
}

fn with_operator(word: &[u8], condition: Condition) -> Condition
    ensures { result ≡ with_operator word.now condition }
{
    if is_same(word, b"AND") {
        Condition {
            expects: Expects::Operand,
            ..condition
        }
    } else if is_same(word, b"OR") {
        Condition {
            any: condition.any || condition.all,
            all: true,
            expects: Expects::Operand,
        }
    } else {
        Condition {
            expects: Expects::Nothing,
            ..condition
        }
    }
}

// A condition with one more word.
fn with_word(switches: &[Switch], word: &[u8], condition: Condition) -> Condition
    ensures { result ≡ with_word (map switch_view switches.now) word.now condition }
{
    if word.is_empty() {
        return condition;
    }
    match condition.expects {
        Expects::Operand => with_operand(switches, word, condition),
        Expects::Negated => with_value(word, !is_on(switches, word), condition),
        Expects::Operator => with_operator(word, condition),
        Expects::Nothing => condition,
    }
}

// A condition of these words.
fn with_words(switches: &[Switch], words: &[&[u8]]) -> Condition
    ensures { result
        ≡ with_words (map switch_view switches.now) (map (λ word. word.now) words.now) no_words }
{
    let mut condition = Condition {
        any: false,
        all: true,
        expects: Expects::Operand,
    };
    let mut rest = words;
    while let [word, more @ ..] = rest {
        condition = with_word(switches, word, condition);
        rest = more;
    }
    condition
}

// The texts with blanks between them.
fn words_of(alloc: Global, text: &[u8]) -> Result<Vec<&[u8]>, AllocError>
    ensures { IfOk result (λ words. map (λ word. word.now) words.items ≡ slice_split is_blank text.now) }
{
    text.split(|byte| is_blank(*byte)).collect(alloc)
}

/// What a text says as a condition; nothing if it is not understood.
pub(crate) fn condition_value(
    alloc: Global,
    switches: &[Switch],
    text: &[u8],
) -> Result<Option<bool>, AllocError>
    ensures { IfOk result (λ value. value ≡ condition_value (map switch_view switches.now) text.now) }
{
    let words = words_of(alloc, text)?;
    let condition = with_words(switches, words.as_slice());
    match condition.expects {
        Expects::Operator => Ok(Some(condition.any || condition.all)),
        Expects::Operand | Expects::Negated | Expects::Nothing => Ok(None),
    }
}

// A comma or a blank.
fn is_between_names(byte: &u8) -> bool
    ensures { result ≡ is_between_names byte.now }
{
    *byte == b',' || is_blank(*byte)
}

/// What is set or reset: texts with commas and blanks between them.
pub(crate) fn items_of(alloc: Global, argument: &[u8]) -> Result<Vec<&[u8]>, AllocError>
    ensures { IfOk result (λ items. map (λ item. item.now) items.items ≡ items_of argument.now) }
{
    argument.split(is_between_names).collect(alloc)
}

/// Whether there are items that are not empty, and these are names.
pub(crate) fn are_names(items: &[&[u8]]) -> bool
    ensures { result ≡ are_names (map (λ item. item.now) items.now) }
{
    let mut some = false;
    let mut rest = items;
    while let [item, more @ ..] = rest {
        if item.is_empty() {
            rest = more;
            continue;
        }
        if !is_name(item) {
            return false;
        }
        some = true;
        rest = more;
    }
    some
}

/// Whether these are names of switches.
pub(crate) fn are_switches(names: &[&str]) -> bool
    ensures { result ≡ list_all is_name (map (λ name. name.now) names.now) }
{
    let mut rest = names;
    while let [name, more @ ..] = rest {
        if !is_name(name.as_bytes()) {
            return false;
        }
        rest = more;
    }
    true
}

/// Adds the switches of the items but of empty ones, on or off.
pub(crate) fn add_switches<'a>(
    on: bool,
    items: &[&'a [u8]],
    switches: &mut Vec<Switch<'a>>,
) -> Result<(), AllocError>
    ensures { IfOk result (λ _. map switch_view switches.new.items
        ≡ map switch_view switches.old.items ++ switches_of on (map (λ item. item.now) items.now)) }
{
    let mut rest = items;
    while let [item, more @ ..] = rest {
        if !item.is_empty() {
            switches.push(Switch { name: *item, on })?;
        }
        rest = more;
    }
    Ok(())
}

/// Adds switches of these names that are set.
pub(crate) fn set_switches<'a>(
    names: &[&'a str],
    switches: &mut Vec<Switch<'a>>,
) -> Result<(), AllocError>
    ensures { IfOk result (λ _. map switch_view switches.new.items
        ≡ map switch_view switches.old.items ++ switches_of true (map (λ name. name.now) names.now)) }
{
    let mut rest = names;
    while let [name, more @ ..] = rest {
        if !name.is_empty() {
            switches.push(Switch {
                name: name.as_bytes(),
                on: true,
            })?;
        }
        rest = more;
    }
    Ok(())
}
