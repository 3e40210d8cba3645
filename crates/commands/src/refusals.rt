//! What commands print where values are refused.

ghost use Rattle.std.specs.Prelude.{◌≡◌, codes};
ghost use Rattle.host.specs.Refusals.{Tells, TellsOther, refusal_line};

use command_line::ValueFault;
use host::{Ending, refuse};
use std::io::Write;

/// Prints that the text of an option is not one of its values, or that a file is one too many.
pub(crate) fn refuse_value<E: Write>(fault: &ValueFault, err: &mut E) -> Ending
    ensures ending { result ≡ Ending.WrongLine }
    ensures line { Tells (refusal_line (codes "U4") fault.now.text.now 0)
        (E.contents err.old) (E.contents err.new) }
    ensures told { TellsOther (E.contents err.old) (E.contents err.new) }
{
    let _refused = refuse(fault.number(), fault.text, 0, err);
    Ending::WrongLine
}
