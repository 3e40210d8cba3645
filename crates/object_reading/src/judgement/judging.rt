//! A whole file is judged.

ghost use Rattle.std.specs.Prelude.{◌≡◌, IfOk};
ghost use Rattle.failure.specs.Failure.{IfFault};
ghost use Rattle.object_modules.specs.Module.{ObjectModule as ObjectValue};
ghost use Rattle.object_modules.specs.Rules.{fault_from_record};
ghost use Rattle.object_modules.specs.Spelling.{Spells, HasFirstFault};
ghost use Rattle.object_reading.specs.internal.Judging.{IsJudged};

use crate::judgement::header::Header;
use crate::judgement::state::State;
use failure::Failure;
use object_modules::Fault;
use omf80::Records;
use std::alloc::Global;

// The fault of a file with a record that has a fault of its own.
fn fault_from_record(fault: omf80::Fault) -> Fault
    ensures { result ≡ fault_from_record fault }
{
    match fault {
        omf80::Fault::Truncated => Fault::Truncated,
        omf80::Fault::WrongSum => Fault::WrongSum,
        omf80::Fault::WrongLength => Fault::WrongLength,
        omf80::Fault::UnknownType => Fault::UnknownType,
    }
}

/// Judges a whole file. It takes memory for the names of the file, and gives it back.
pub fn judge<'a>(alloc: Global, bytes: &'a [u8]) -> Result<Header<'a>, Failure<Fault>>
    ensures judged { IfOk result (λ header. IsJudged bytes.now header) }
    ensures fault { IfFault result (λ fault. HasFirstFault bytes.now fault) }
    ensures none { IfFault result (λ _. (object : ObjectValue) → ¬ Spells bytes.now object) }
{
    let mut state = State::new(alloc);
    let mut records = Records::new(bytes);
    while !state.is_ended() {
        match records.next_record() {
            Ok(read) => state.take(&read)?,
            Err(fault) => return Err(Failure::Fault(fault_from_record(fault))),
        }
    }
    if records.rest().is_empty() {
        Ok(state.header())
    } else {
        Err(Failure::Fault(Fault::OutOfOrder))
    }
}
