//! What commands on object files print where these are refused.

ghost use Rattle.std.specs.Prelude.{◌≡◌, codes};
ghost use Rattle.host.specs.Refusals.{Tells, TellsOther, refusal_line};
ghost use Rattle.object_modules.specs.Numbers.{number_of};
ghost use Rattle.object_modules.specs.Merge.{link_number};
ghost use Rattle.object_modules.specs.Image.{placement_number};
ghost use Rattle.link.specs.Faults as merging;
ghost use Rattle.locate.specs.Locating as locating;

use host::{Ending, refuse, refuse_name};
use link::LinkFault;
use locate::LocateFault;
use object_modules::Fault;
use std::io::Write;

/// Prints why a file is no object file.
pub(crate) fn refuse_object<E: Write>(fault: &Fault, file: &str, err: &mut E) -> Ending
    ensures ending { result ≡ Ending.Refused }
    ensures line { Tells (refusal_line (number_of fault.now) file.now 0)
        (E.contents err.old) (E.contents err.new) }
    ensures told { TellsOther (E.contents err.old) (E.contents err.new) }
{
    refuse(fault.number(), file, 0, err)
}

/// Prints why an object can't lie as planned.
pub(crate) fn refuse_place<E: Write>(fault: &LocateFault, err: &mut E) -> Ending
    ensures ending { result ≡ Ending.Refused }
    ensures line { Tells (refusal_line (placement_number (locating.refusal_of fault.now)) (codes "-") 0)
        (E.contents err.old) (E.contents err.new) }
    ensures told { TellsOther (E.contents err.old) (E.contents err.new) }
{
    refuse(fault.number(), "-", 0, err)
}

/// Prints why modules have no merge, with the name that the fault is about, or a dash.
pub(crate) fn refuse_link_at<E: Write>(fault: &LinkFault, name: &[u8], err: &mut E) -> Ending
    ensures ending { result ≡ Ending.Refused }
    ensures line { Tells (refusal_line (link_number (merging.refusal_of fault.now)) name.now 0)
        (E.contents err.old) (E.contents err.new) }
    ensures told { TellsOther (E.contents err.old) (E.contents err.new) }
{
    refuse_name(fault.number(), name, 0, err)
}
