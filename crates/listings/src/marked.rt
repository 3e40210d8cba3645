//! The lines in which the code of a module begins, by its places.

ghost use Rattle.std.specs.Prelude.{◌≡◌, ◌<◌};

use tool::SourceMark;

/// The line of the source in which the code at a place begins, or 0, and the marks after that place.
#[derive(Clone, Copy)]
pub(crate) struct MarkedLine<'a> {
    pub(crate) line: u32,
    pub(crate) after: &'a [SourceMark],
}

/// The line at a place that is not before the one at which another line is known, or 0 in the constants, whose bytes come first.
pub(crate) fn line_at(known: MarkedLine<'_>, place: u32, constants: u32) -> MarkedLine<'_>
    ensures { place < constants → result.line ≡ 0 }
{
    if place < constants {
        return MarkedLine {
            line: 0,
            after: known.after,
        };
    }
    let mut line = known.line;
    let mut rest = known.after;
    while let [mark, more @ ..] = rest {
        if place < mark.place as u32 {
            return MarkedLine { line, after: rest };
        }
        line = mark.line;
        rest = more;
    }
    MarkedLine { line, after: rest }
}
