//! Names are judged by the names that a file had before.

ghost use Rattle.std.specs.Prelude.{◌≡◌, ◌++◌, ◌∷◌, [], length, not, true, Some, is_some, if◌then◌else◌, IfOk};
ghost use Rattle.std.specs.List.{list_all};
ghost use Rattle.std.specs.Option.{option_map};
ghost use Rattle.failure.specs.Failure.{IfFault};
ghost use Rattle.symbols.specs.Names.{is_name, is_name_character};
ghost use Rattle.object_modules.specs.Module.{is_among};
ghost use Rattle.object_reading.specs.internal.NamesJudged.{entry_name, names_in, names_taken};

use crate::entries::{definition_in_front, listed_name_in_front};
use failure::Failure;
use indexmap::IndexSet;
use object_modules::Fault;
use std::alloc::Global;
use std::marker::Model;

/// Whose names a record lists.
#[derive(Clone, Copy)]
pub enum NameList {
    /// Those of other modules.
    Externals,
    /// Those of places of this module.
    Publics,
}

// Whether a byte is a capital letter or a digit.
fn is_character(byte: u8) -> bool
    ensures { result ≡ is_name_character byte }
{
    byte.is_ascii_uppercase() || byte.is_ascii_digit()
}

// Whether all bytes are capital letters and digits.
fn are_characters(text: &[u8]) -> bool
    ensures { result ≡ list_all is_name_character text.now }
{
    let mut rest = text;
    while let [first, after @ ..] = rest {
        if !is_character(*first) {
            return false;
        }
        rest = after;
    }
    true
}

/// Whether bytes are a name.
pub fn is_name(text: &[u8]) -> bool
    ensures { result ≡ is_name text.now }
{
    let [first, rest @ ..] = text else {
        return false;
    };
    first.is_ascii_uppercase() && are_characters(rest) && rest.len() <= 30
}

/// The external and public names of a file, each of them once. The file holds their bytes.
#[derive(Drop)]
pub struct NameSet<'a> {
    keys: IndexSet<&'a [u8]>,
}

impl<'a> Model for NameSet<'a> {
    ghost use Rattle.std.specs.Prelude.{ℕ, List, map};

    ghost Value = { List (List ℕ) };

    ghost view = { λ names. map (λ key. key.now) names.keys.keys };
}

impl<'a> NameSet<'a> {
    /// No names.
    pub fn new(alloc: Global) -> NameSet<'a>
        ensures { result ≡ [] }
    {
        NameSet {
            keys: IndexSet::new(alloc),
        }
    }

    /// How many names there are.
    pub fn count(&self) -> usize
        ensures { result ≡ length self.now }
    {
        self.keys.len()
    }

    /// Adds a name. Returns whether it is new.
    pub fn insert(&mut self, name: &'a [u8]) -> Result<bool, Failure<Fault>>
        ensures new { IfOk result (λ is_new. is_new ≡ not (is_among name.now self.old)) }
        ensures names { IfOk result (λ is_new. self.new
            ≡ (if is_new then self.old ++ name.now ∷ [] else self.old)) }
        ensures err { IfFault result (λ _. ⊥) }
    {
        let is_new = self.keys.insert(name)?;
        Ok(is_new)
    }
}

// The name that an entry in front of bytes has, and the bytes after the entry.
fn entry_name<'a>(list: NameList, entries: &'a [u8]) -> Option<(&'a [u8], &'a [u8])>
    ensures { option_map (λ named. (named.0.now, named.1.now)) result ≡ entry_name list entries.now }
{
    match list {
        NameList::Externals => listed_name_in_front(entries),
        NameList::Publics => {
            let (_, name, after) = definition_in_front(entries)?;
            Some((name, after))
        }
    }
}

/// Adds the names of the entries of a record. Returns whether each is a name that was not
/// known before.
#[tactic(auto, using(crate::proofs::NewNames::taken_more, crate::proofs::NewNames::taken_wrong, crate::proofs::NewNames::taken_again, crate::proofs::NewNames::taken_none, crate::proofs::NewNames::taken_end, crate::proofs::NewNames::name_shorter,))]
pub fn take_names<'a>(
    names: &mut NameSet<'a>,
    list: NameList,
    entries: &'a [u8],
) -> Result<bool, Failure<Fault>>
    ensures fit { IfOk result (λ fit. fit ≡ is_some (names_taken names.old (names_in list entries.now))) }
    ensures names { IfOk result (λ fit. fit ≡ true
        → names_taken names.old (names_in list entries.now) ≡ Some names.new) }
    ensures err { IfFault result (λ _. ⊥) }
{
    let mut entries = entries;
    while !entries.is_empty() {
        let Some((name, after)) = entry_name(list, entries) else {
            return Ok(false);
        };
        if !is_name(name) {
            return Ok(false);
        }
        let is_new = names.insert(name)?;
        if !is_new {
            return Ok(false);
        }
        entries = after;
    }
    Ok(true)
}
