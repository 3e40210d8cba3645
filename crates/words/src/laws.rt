//! Laws that follow from the definitions of words. Each function does nothing: its contract is the law.

ghost use Rattle.std.specs.Prelude.{◌≡◌, ◌≤◌, ℕ, List, All, IsTrue, IsSomeAnd, Some, length, nat_eq};
ghost use Rattle.std.specs.List.{starts_with};
ghost use Rattle.words.specs.Marks.{marks, mark_at};
ghost use Rattle.words.specs.Names.{reserved_words, reserved_of};
ghost use Rattle.words.specs.Spelling.{HasOneReading};

/// Each text spells just one list of words, or it has just one first fault.
pub fn one_reading()
    ensures { (source : List ℕ) → HasOneReading source }
{}

/// The mark that is read at the beginning of a text is the longest mark there.
pub fn longest_mark()
    ensures { (text : List ℕ) → All (λ mark. IsTrue (starts_with nat_eq text mark.0)
        → IsSomeAnd (mark_at text) (λ taken. length mark.0 ≤ length taken.0)) marks }
{}

/// The table of reserved words has no two entries that are written alike: each entry is found by its characters.
pub fn each_reserved_word()
    ensures { All (λ entry. reserved_of entry.0 ≡ Some entry.1) reserved_words }
{}
