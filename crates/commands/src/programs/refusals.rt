//! What commands print where sources are refused.

ghost use Rattle.std.specs.Prelude.{◌≡◌, map};
ghost use Rattle.host.specs.Refusals.{Tells, TellsOther};
ghost use Rattle.tool.specs.Faults.{file_of};
ghost use Rattle.commands.specs.ProgramFaults.{fault_line, file_place};

use crate::programs::loading::name_at;
use host::{Ending, refuse, refuse_name};
use std::io::Write;
use tool::ToolFault;

/// Prints why sources are refused: the number of the fault, the name that it is about, or the file, or a dash, and the line.
#[tactic(auto, using(crate::proofs::Refused::of_name, crate::proofs::Refused::of_file))]
pub(crate) fn refuse_sources<E: Write>(fault: &ToolFault, files: &[&str], err: &mut E) -> Ending
    ensures ending { result ≡ Ending.Refused }
    ensures line { Tells (fault_line (map (λ name. name.now) files.now) fault.now)
        (E.contents err.old) (E.contents err.new) }
    ensures told { TellsOther (E.contents err.old) (E.contents err.new) }
{
    match fault.name() {
        Some(name) => refuse_name(fault.number(), name.as_slice(), fault.line(), err),
        None => refuse(
            fault.number(),
            place_of_file(fault, files),
            fault.line(),
            err,
        ),
    }
}

// The name of the file that a fault is in, or a dash.
fn place_of_file<'a>(fault: &ToolFault, files: &[&'a str]) -> &'a str
    ensures { result.now ≡ file_place (map (λ name. name.now) files.now) (file_of fault.now) }
{
    match fault.file() {
        Some(file) => name_at(files, file),
        None => "-",
    }
}
