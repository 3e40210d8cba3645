//! What is printed where sources have no need.

ghost use Rattle.std.specs.Prelude.{◌≡◌, map};
ghost use Rattle.host.specs.Refusals.{Tells, TellsOther};
ghost use Rattle.commands.specs.NeedFaults.{fault_line, joining_line};

use crate::needs::NeedFault;
use crate::programs::name_at;
use host::{Ending, refuse, refuse_name};
use std::io::Write;

/// Prints why sources have no need: the number of the fault, the name that it is about, or the file, or a dash, and the line.
pub(crate) fn refuse_need<E: Write>(fault: &NeedFault, names: &[&str], err: &mut E) -> Ending
    ensures ending { result ≡ Ending.Refused }
    ensures line { Tells (fault_line (map (λ name. name.now) names.now) fault.now)
        (E.contents err.old) (E.contents err.new) }
    ensures told { TellsOther (E.contents err.old) (E.contents err.new) }
{
    match fault {
        NeedFault::TooManySources => refuse("U1", "-", 0, err),
        NeedFault::Source { file, fault } => {
            refuse(fault.number(), name_at(names, *file), fault.line(), err)
        }
        NeedFault::Join(fault) => refuse_joining(fault, err),
    }
}

// Prints why modules make no program, with the name that the fault is about, or a dash.
fn refuse_joining<E: Write>(fault: &join::Fault, err: &mut E) -> Ending
    ensures ending { result ≡ Ending.Refused }
    ensures line { Tells (joining_line fault.now) (E.contents err.old) (E.contents err.new) }
    ensures told { TellsOther (E.contents err.old) (E.contents err.new) }
{
    match fault {
        join::Fault::NoPublic { name }
        | join::Fault::PublicTwice { name }
        | join::Fault::DeclarationsDiffer { name } => {
            refuse_name(fault.number(), name.as_slice(), 0, err)
        }
        join::Fault::NotOneMain => refuse_name(fault.number(), b"-", 0, err),
    }
}
