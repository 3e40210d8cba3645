//! Marks.

ghost use Rattle.std.specs.Prelude.{◌≡◌, List, ℕ, [], ◌∷◌, MatchOption, option_copied, slice_get, length};
ghost use Rattle.words.specs.Marks.{mark_at, mark_item};

use crate::items::{Cause, Item};
use crate::vocabulary::{Kind, Mark};

// The item of a text that begins with this byte, which begins no other word: its longest mark, or a fault.
pub(crate) fn mark_item(first: u8, rest: &[u8]) -> Item
    ensures { result ≡ mark_item (first ∷ rest.now) }
{
    if let Some(second) = rest.first() {
        if let Some(mark) = long_mark(first, *second) {
            return Item::Spelled(Kind::Mark(mark), 2);
        }
    }
    match short_mark(first) {
        Some(mark) => Item::Spelled(Kind::Mark(mark), 1),
        None => Item::Wrong(Cause::BadCharacter),
    }
}

// The mark that is written with these two bytes.
#[tactic(auto, unfolding(crate::specs::Marks::mark_at))]
fn long_mark(first: u8, second: u8) -> Option<Mark>
    ensures { (text : List ℕ) → MatchOption result
        (mark_at (first ∷ second ∷ text) ≡ mark_at (first ∷ []))
        (λ mark. mark_at (first ∷ second ∷ text) ≡ Some (first ∷ second ∷ [], mark)) }
{
    match (first, second) {
        (b'<', b'=') => Some(Mark::LessEqualSign),
        (b'>', b'=') => Some(Mark::GreaterEqualSign),
        (b'<', b'>') => Some(Mark::UnequalSign),
        (b':', b'=') => Some(Mark::AssignSign),
        _ => None,
    }
}

// The mark that is written with this one byte.
#[tactic(auto, unfolding(crate::specs::Marks::mark_at))]
fn short_mark(b: u8) -> Option<Mark>
    ensures { MatchOption result
        (mark_at (b ∷ []) ≡ None)
        (λ mark. mark_at (b ∷ []) ≡ Some (b ∷ [], mark)) }
{
    match b {
        b'=' => Some(Mark::EqualSign),
        b'<' => Some(Mark::LessSign),
        b'>' => Some(Mark::GreaterSign),
        b'+' => Some(Mark::PlusSign),
        b'-' => Some(Mark::MinusSign),
        b'*' => Some(Mark::Asterisk),
        b'/' => Some(Mark::Slash),
        b'(' => Some(Mark::LeftParenthesis),
        b')' => Some(Mark::RightParenthesis),
        b',' => Some(Mark::Comma),
        b';' => Some(Mark::Semicolon),
        b':' => Some(Mark::Colon),
        b'.' => Some(Mark::Period),
        _ => None,
    }
}
