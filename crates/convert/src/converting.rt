//! Conversion of the words of a text.

ghost use Rattle.std.specs.Prelude.{◌≡◌, ◌≤◌, ◌+◌, [], ◌∷◌, ◌++◌, length, IfOk};
ghost use Rattle.convert.specs.Converting.{change_at, changes_after, first_commas, fit, note_at, notes_after, passed_by, replaced, rule_at};
ghost use Rattle.convert.specs.Edits.{changes_of};

use crate::class::Seen;
use crate::edit::Edit;
use crate::groups::{commas, group_length, inner};
use crate::matching::length_of_parts;
use crate::rule::{Action, Rule};
use crate::texts::{end_of, start_of};
use crate::writing::puts_text;
use std::alloc::{AllocError, Global};
use words::Kind;

/// What could not be changed: a line of the text, counted from 1, what to write, and the number that ends it.
#[derive(Clone, Copy)]
pub struct Note {
    pub line: usize,
    pub text: &'static str,
    pub number: Option<u16>,
}

// How many commas the group at the front has in no further parentheses.
fn first_commas(words: &[Seen]) -> usize
    requires { length words.now ≤ 4294967296 }
    ensures { result ≡ first_commas words.now }
{
    let count = group_length(words);
    commas(inner(&words[..count]))
}

// How many words at the front a rule fits; 0 if it does not.
fn fit(rule: &Rule, words: &[Seen]) -> usize
    requires { length words.now ≤ 4294967296 }
    ensures fit { result ≡ fit rule.now words.now }
    ensures within { result ≤ length words.now }
{
    length_of_parts(rule.parts, first_commas(words), words)
}

// The first rule that fits at the front of words.
fn rule_at(rules: &[Rule], words: &[Seen]) -> Option<Rule>
    requires { length words.now ≤ 4294967296 }
    ensures { result ≡ rule_at rules.now words.now }
{
    let mut rest = rules;
    while let [rule, more @ ..] = rest {
        if fit(rule, words) > 0 {
            return Some(*rule);
        }
        rest = more;
    }
    None
}

// Adds what a rule that was found changes at the front of words.
fn change_at(
    alloc: Global,
    source: &[u8],
    words: &[Seen],
    found: Option<Rule>,
    edits: &mut Vec<Edit>,
) -> Result<(), AllocError>
    requires { length words.now ≤ 4294967296 }
    ensures { IfOk result (λ _. changes_of edits.new.items
        ≡ changes_of edits.old.items ++ change_at source.now words.now found) }
{
    let Some(rule) = found else {
        return Ok(());
    };
    match rule.action {
        Action::Write(puts) => {
            let text = puts_text(alloc, source, rule.parts, first_commas(words), words, puts)?;
            replace(words, &rule, text, edits)
        }
        Action::Tell(_) => Ok(()),
        Action::DeleteNumber(_, _) => replace(words, &rule, Vec::new(alloc), edits),
    }
}

// Adds the change of what a rule has found at the front of words to a text.
fn replace(
    words: &[Seen],
    rule: &Rule,
    text: Vec<u8>,
    edits: &mut Vec<Edit>,
) -> Result<(), AllocError>
    requires { length words.now ≤ 4294967296 }
    ensures { IfOk result (λ _. changes_of edits.new.items
        ≡ changes_of edits.old.items ++ replaced words.now rule.now text.items ∷ []) }
{
    let count = fit(rule, words);
    let from = start_of(&words[..count]);
    let to = end_of(&words[..count]);
    edits.push(Edit { from, to, text })?;
    Ok(())
}

/// Adds the changes that the rules make in words.
pub(crate) fn change_all(
    alloc: Global,
    rules: &[Rule],
    source: &[u8],
    words: &[Seen],
    edits: &mut Vec<Edit>,
) -> Result<(), AllocError>
    requires { length words.now ≤ 4294967296 }
    ensures { IfOk result (λ _. changes_of edits.new.items
        ≡ changes_of edits.old.items ++ changes_after rules.now source.now 0 words.now) }
{
    let mut passed = 0;
    let mut rest = words;
    while let [_, more @ ..] = rest {
        if passed > 0 {
            passed -= 1;
            rest = more;
            continue;
        }
        let found = rule_at(rules, rest);
        change_at(alloc, source, rest, found, edits)?;
        passed = passed_by(rest, found);
        rest = more;
    }
    Ok(())
}

/// Adds what the rules tell of words.
pub(crate) fn note_all(
    rules: &[Rule],
    words: &[Seen],
    notes: &mut Vec<Note>,
) -> Result<(), AllocError>
    requires { length words.now ≤ 4294967296 }
    ensures { IfOk result (λ _. notes.new.items ≡ notes.old.items ++ notes_after rules.now 0 words.now) }
{
    let mut passed = 0;
    let mut rest = words;
    while let [seen, more @ ..] = rest {
        if passed > 0 {
            passed -= 1;
            rest = more;
            continue;
        }
        let found = rule_at(rules, rest);
        note_at(seen.word.line as usize, seen.word.kind, found, notes)?;
        passed = passed_by(rest, found);
        rest = more;
    }
    Ok(())
}

// How many words after the first a rule has found.
fn passed_by(words: &[Seen], found: Option<Rule>) -> usize
    requires { length words.now ≤ 4294967296 }
    ensures { result ≡ passed_by words.now found }
{
    match found {
        Some(rule) => fit(&rule, words).saturating_sub(1),
        None => 0,
    }
}

// Adds what a rule that was found tells of a word of a kind.
fn note_at(
    line: usize,
    kind: Kind,
    found: Option<Rule>,
    notes: &mut Vec<Note>,
) -> Result<(), AllocError>
    ensures { IfOk result (λ _. notes.new.items ≡ notes.old.items ++ note_at line kind found) }
{
    let Some(rule) = found else {
        return Ok(());
    };
    match rule.action {
        Action::Write(_) => Ok(()),
        Action::Tell(text) => {
            let number = None;
            notes.push(Note { line, text, number })?;
            Ok(())
        }
        Action::DeleteNumber(usual, text) => match kind {
            Kind::Number(value) if value != usual => {
                let number = Some(value);
                notes.push(Note { line, text, number })?;
                Ok(())
            }
            _ => Ok(()),
        },
    }
}
