//! The line that tells a need.

ghost use Rattle.std.specs.Prelude.{◌≡◌, IfOk};
ghost use Rattle.commands.specs.Needs.{need_line};

use std::alloc::{AllocError, Global};

/// The line that tells a need.
pub(crate) fn line_of(alloc: Global, need: Option<u32>) -> Result<String, AllocError>
    ensures { IfOk result (λ line. line.bytes.items ≡ need_line need) }
{
    match need {
        Some(need) => format!(in alloc; "NEED {need}\n"),
        None => format!(in alloc; "NEED NONE\n"),
    }
}
