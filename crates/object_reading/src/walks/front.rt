//! A file is judged, and then a walk stands at its front.

ghost use Rattle.std.specs.Prelude.{IfOk};
ghost use Rattle.failure.specs.Failure.{IfFault};
ghost use Rattle.object_modules.specs.Module.{ObjectModule as ObjectValue};
ghost use Rattle.object_modules.specs.Spelling.{Spells, HasFirstFault};
ghost use Rattle.object_modules.specs.internal.Walks.{WalksOver};

use crate::judgement::judge;
use crate::walks::walks::Walk;
use failure::Failure;
use object_modules::Fault;
use std::alloc::Global;

/// Judges a whole file, and hands out its parts. It takes memory for the names of the file while it judges, and
/// none afterwards.
pub fn walk<'a>(alloc: Global, bytes: &'a [u8]) -> Result<Walk<'a>, Failure<Fault>>
    ensures walk { IfOk result (λ walk. WalksOver bytes.now walk) }
    ensures fault { IfFault result (λ fault. HasFirstFault bytes.now fault) }
    ensures none { IfFault result (λ _. (object : ObjectValue) → ¬ Spells bytes.now object) }
{
    let header = judge(alloc, bytes)?;
    Ok(Walk::at_front(bytes, &header))
}
