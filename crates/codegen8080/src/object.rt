//! Object modules of assembled code.

ghost use Rattle.std.specs.Prelude.{IfOk};
ghost use Rattle.codegen8080.specs.internal.Listing.{IsMadeOf};
ghost use Rattle.codegen8080.specs.internal.Segments.{KeepsFixes};

use crate::linkage::LinkageNames;
use crate::segments::segment_of;
use asm8080::CodeBytes;
use object_modules::{ModuleParts, Name, ObjectModule};
use std::alloc::{AllocError, Global};

/// The object module of this name with these segments and names. Its fixes refer to EXTERNAL names by numbers, and a
/// table maps these numbers to places among the names.
pub(crate) fn object_of(
    alloc: Global,
    name: Name,
    code: CodeBytes,
    variables: CodeBytes,
    names: LinkageNames,
    numbers: &[u16],
    start: Option<u16>,
) -> Result<ObjectModule, AllocError>
    requires code { KeepsFixes code }
    requires variables { KeepsFixes variables }
    ensures { IfOk result (λ object. IsMadeOf name code variables names numbers.now start object) }
{
    let count = names.external_count();
    let code = segment_of(alloc, code, numbers, count)?;
    let variables = segment_of(alloc, variables, numbers, count)?;
    let (externals, publics) = names.into_parts();
    Ok(ObjectModule::from_parts(ModuleParts {
        name,
        code,
        data_bytes: variables,
        stack_length: 0,
        publics,
        externals,
        start,
    }))
}
