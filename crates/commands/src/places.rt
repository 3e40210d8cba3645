//! Where runs of images stand at their ends, and how that is told.

ghost use Rattle.std.specs.Prelude.{◌≡◌, ◌<◌, ◌++◌, ◌∷◌, length, IfOk, IfSome};
ghost use Rattle.std.specs.Fmt.{decimal};
ghost use Rattle.join.specs.Views.{modules_of};
ghost use Rattle.object_commands.specs.Placing.{address_digits};
ghost use Rattle.listings.specs.internal.Origins.{AreLinesOf};
ghost use Rattle.commands.specs.Standing.{NamesLine, module_names};
ghost use Rattle.commands.specs.internal.Lines.{IsLineOf};

use join::Joined;
use listings::{CodeLines, CodeOrigin, SourceLine};
use object_modules::Name;
use std::alloc::{AllocError, Global};

/// From which lines of its sources the code of a program comes, and the program, whose modules these are lines of.
#[derive(Clone, Copy)]
pub(crate) struct ProgramLines<'a> {
    pub(crate) program: &'a Joined,
    pub(crate) lines: &'a CodeLines,
    pub(crate) ghost are_its_lines: { AreLinesOf (length (modules_of program.now)) lines.now },
}

/// How the place of a run is told.
#[derive(Clone, Copy)]
pub(crate) enum Places<'a> {
    /// By its address.
    Addresses,
    /// By the line of a source from which the code there comes, where that is known.
    Lines(ProgramLines<'a>),
}

/// Where a run stands: the address, and the last line of a source whose code it met by then.
#[derive(Clone, Copy)]
pub(crate) struct Stand {
    pub(crate) address: u16,
    pub(crate) line: Option<SourceLine>,
}

// The digits of an address.
fn address_text(alloc: Global, address: u16) -> Result<String, AllocError>
    ensures { IfOk result (λ text. text.bytes.items ≡ address_digits address) }
{
    format!(in alloc; "{address:04X}")
}

// A name and a number.
#[tactic(auto, using(std::proofs::lemmas::List::append_assoc))]
fn spelled_line(alloc: Global, name: &Name, number: u32) -> Result<String, AllocError>
    ensures { IfOk result (λ text. text.bytes.items ≡ name.now ++ 32 ∷ decimal number) }
{
    format!(in alloc; "{name} {number}")
}

/// The name of the module of a number, and the number of a line.
pub(crate) fn line_text(
    alloc: Global,
    program: &Joined,
    number_of_module: usize,
    line: u32,
) -> Result<String, AllocError>
    requires within { number_of_module < length (modules_of program.now) }
    ensures { IfOk result (λ text. NamesLine (module_names program.now) text.bytes.items) }
{
    let typed = &program.modules()[number_of_module];
    spelled_line(alloc, &typed.name, line)
}

impl Places<'_> {
    ghost use Rattle.std.specs.Prelude.{IfOk, IfSome};
    ghost use Rattle.commands.specs.Standing.{NamesPlace};
    ghost use Rattle.commands.specs.internal.Places.{IsLineIn, names_in};

    /// The last line of a source whose code a run met that comes to an address, after this one.
    #[tactic(auto, using(listings::proofs::LineOrigins::line_there))]
    pub(crate) fn line_after(&self, before: Option<SourceLine>, address: u16) -> Option<SourceLine>
        requires before { IfSome before (IsLineIn self.now) }
        ensures { IfSome result (IsLineIn self.now) }
    {
        match *self {
            Places::Addresses => None,
            Places::Lines(known) => {
                match known.lines.origin(address) {
                    CodeOrigin::Line(line) => Some(line),
                    CodeOrigin::Routine | CodeOrigin::Outside => before,
                }
            }
        }
    }

    /// The text of the place where a run stands. In a routine that is the line of the statement that called it, and outside all
    /// code it is the address.
    #[tactic(auto, using(crate::proofs::PlacesTold::line_told, crate::proofs::PlacesTold::address_told))]
    pub(crate) fn text(&self, alloc: Global, stand: Stand) -> Result<String, AllocError>
        requires line { IfSome stand.line (IsLineIn self.now) }
        ensures { IfOk result (λ text. NamesPlace (names_in self.now) stand.address text.bytes.items) }
    {
        let Places::Lines(known) = *self else {
            return address_text(alloc, stand.address);
        };
        match known_line(known, stand) {
            Some(line) => line_text(alloc, known.program, line.module as usize, line.line),
            None => address_text(alloc, stand.address),
        }
    }
}

// The line of the code at which a run stands, or that of the statement that called the routine there.
#[tactic(auto, using(listings::proofs::LineOrigins::line_there))]
fn known_line(known: ProgramLines<'_>, stand: Stand) -> Option<SourceLine>
    requires line { IfSome stand.line (IsLineOf known.program.now) }
    ensures { IfSome result (IsLineOf known.entry.program.now) }
{
    match known.lines.origin(stand.address) {
        CodeOrigin::Line(line) => Some(line),
        CodeOrigin::Routine => stand.line,
        CodeOrigin::Outside => None,
    }
}
