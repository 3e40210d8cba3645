//! The bytes of a run with their fixes applied: a walk over the bytes, with the fixes beside them.

ghost use Rattle.std.specs.Prelude.{◌≡◌, ◌<◌, ◌≤◌, ◌+◌, length, IfOk};
ghost use Rattle.std.specs.Option.{option_map};
ghost use Rattle.object_modules.specs.Image.{gain_at};
ghost use Rattle.object_modules.specs.Moving.{first_byte_moved};
ghost use Rattle.locate.specs.Locating.{plan_view};
ghost use Rattle.locate.specs.internal.Fixing.{after_first, carry_by, first_at, fixes_after, second_by, value_at, value_by, values_from, walk_after, walk_at, word_by};
ghost use Rattle.locate.specs.internal.Views.{carry_view, walk_view};

use crate::plan::gain;
use mem80::{MEMORY_SIZE, Plan};
use object_modules::{Fix, FixKind, Run};
use std::alloc::{AllocError, Global};

// The first byte of a word as it was, and the gain of the word.
#[derive(Clone, Copy)]
struct Carry {
    first: u8,
    gain: u16,
}

// A place in a segment, the fixes from there on, and the word that began at the place before.
struct Walk<'a> {
    offset: u32,
    fixes: &'a [Fix],
    word: Option<Carry>,
}

impl Drop for Walk<'_> {
    fn drop(self) {
        let Walk {
            offset: _,
            fixes: _,
            word: _,
        } = self;
    }
}

// The new value of the first byte of a fix, if its target gains a number.
fn first_byte(kind: FixKind, value: u8, gain: u16) -> u8
    ensures { result ≡ first_byte_moved kind value gain }
{
    match kind {
        FixKind::Low => value.wrapping_add((gain % 256) as u8),
        FixKind::High => value.wrapping_add((gain / 256) as u8),
        FixKind::Both => value.wrapping_add((gain % 256) as u8),
    }
}

// The new value of a byte at which no fix begins.
fn second_byte(value: u8, word: Option<Carry>) -> u8
    ensures { result ≡ second_by value (option_map carry_view word) }
{
    match word {
        Some(word) => {
            let whole = word.first as u16 + 256 * value as u16;
            (whole.wrapping_add(word.gain) / 256) as u8
        }
        None => value,
    }
}

// The word that begins with a fix, if it takes two bytes.
fn word_from(kind: FixKind, first: u8, gain: u16) -> Option<Carry>
    ensures { option_map carry_view result ≡ carry_by kind first gain }
{
    match kind {
        FixKind::Low => None,
        FixKind::High => None,
        FixKind::Both => Some(Carry { first, gain }),
    }
}

// The first fix, if it begins at this offset, and the fixes after it.
fn take_first(fixes: &[Fix], offset: u32) -> (Option<Fix>, &[Fix])
    ensures fix { result.0 ≡ first_at offset fixes.now }
    ensures rest { result.1.now ≡ after_first (first_at offset fixes.now) fixes.now }
{
    match fixes {
        [fix, others @ ..] => {
            if fix.offset as u32 == offset {
                (Some(*fix), others)
            } else {
                (None, fixes)
            }
        }
        [] => (None, fixes),
    }
}

// The new value of a byte, by the fix that begins there and the word before it.
fn byte_with(value: u8, word: Option<Carry>, fix: Option<Fix>, plan: &Plan) -> u8
    ensures { result ≡ value_by (gain_at (plan_view plan.now)) value (option_map carry_view word) fix }
{
    match fix {
        Some(fix) => first_byte(fix.kind, value, gain(plan, fix.target)),
        None => second_byte(value, word),
    }
}

// The word that begins at a byte.
fn word_with(value: u8, fix: Option<Fix>, plan: &Plan) -> Option<Carry>
    ensures { option_map carry_view result ≡ word_by (gain_at (plan_view plan.now)) value fix }
{
    match fix {
        Some(fix) => word_from(fix.kind, value, gain(plan, fix.target)),
        None => None,
    }
}

impl Walk<'_> {
    // The new value of the byte at this place, and on to the next place.
    fn place(&mut self, value: u8, plan: &Plan) -> u8
        requires { self.old.offset < MEMORY_SIZE }
        ensures value { result ≡ value_at (gain_at (plan_view plan.now)) (walk_view self.old) value }
        ensures walk { walk_view self.new
            ≡ walk_after (gain_at (plan_view plan.now)) (walk_view self.old) value }
    {
        let (fix, rest) = take_first(self.fixes, self.offset);
        let placed = byte_with(value, self.word, fix, plan);
        self.word = word_with(value, fix, plan);
        self.fixes = rest;
        self.offset += 1;
        placed
    }
}

/// The bytes of a run with the first of the fixes applied, and the fixes that are left.
pub(crate) fn moved_bytes<'a>(
    alloc: Global,
    run: &Run,
    fixes: &'a [Fix],
    plan: &Plan,
) -> Result<(Vec<u8>, &'a [Fix]), AllocError>
    requires { run.now.offset + length run.now.items ≤ MEMORY_SIZE }
    ensures bytes { IfOk result (λ moved. moved.0.items
        ≡ values_from (gain_at (plan_view plan.now)) (walk_at run.now.offset fixes.now) run.now.items) }
    ensures fixes { IfOk result (λ moved. moved.1.now
        ≡ fixes_after (gain_at (plan_view plan.now)) (walk_at run.now.offset fixes.now) run.now.items) }
{
    let mut bytes = Vec::with_capacity(alloc, run.bytes().len())?;
    let mut walk = Walk {
        offset: run.offset() as u32,
        fixes,
        word: None,
    };
    let mut rest = run.bytes();
    while let [value, more @ ..] = rest {
        let placed = walk.place(*value, plan);
        bytes.push(placed)?;
        rest = more;
    }
    Ok((bytes, walk.fixes))
}
