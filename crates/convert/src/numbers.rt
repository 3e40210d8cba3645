//! Numbers of classes, by which they are compared.

ghost use Rattle.std.specs.Prelude.{◌≡◌, ◌<◌};
ghost use Rattle.words.specs.Ordinals.{mark_number, word_number};
ghost use Rattle.convert.specs.Numbers.{class_number};

use crate::class::Class;
use words::{Mark, ReservedWord};

/// A number for each class.
pub(crate) fn class_number(class: Class) -> u8
    ensures { result ≡ class_number class }
{
    match class {
        Class::Name => 0,
        Class::Number => 1,
        Class::FirstNumber => 2,
        Class::String => 3,
        Class::EndOfDo => 4,
        Class::EndOfOther => 5,
        Class::Several => 6,
        Class::Constant => 7,
        Class::Mark(mark) => 8 + mark_number(mark),
        Class::Reserved(word) => 25 + word_number(word),
    }
}

fn mark_number(mark: Mark) -> u8
    ensures number { result ≡ mark_number mark }
    ensures small { result < 17 }
{
    mark as u8
}

fn word_number(word: ReservedWord) -> u8
    ensures number { result ≡ word_number word }
    ensures small { result < 39 }
{
    word as u8
}
