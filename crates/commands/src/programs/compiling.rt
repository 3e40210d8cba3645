//! Sources that are compiled to object files.

ghost use Rattle.std.specs.Prelude.{◌≡◌, ◌⊎◌, ◌∷◌, [], IfOk};
ghost use Rattle.host.specs.Failure.{IfFault};
ghost use Rattle.host.specs.Refusals.{TellsRefusal};
ghost use Rattle.command_line.specs.internal.Orders.{compile_in};
ghost use Rattle.object_commands.specs.Linking.{KeepsOthers};
ghost use Rattle.tool.specs.Sources.{IsRefusedAlone};
ghost use Rattle.commands.specs.Compiling.{CompilesFile, CompilesTo, StopsCompiling};
ghost use Rattle.commands.specs.Refusing.{RefusesCompiling};

use crate::programs::refusals::refuse_sources;
use command_line::CompileOrder;
use host::{Ending, Failure, Files, refuse_file, refuse_memory};
use object_commands::{write, write_file};
use std::alloc::Global;
use std::io::Write;
use tool::{ToolFault, compile};

/// Compiles a source, and writes the object module to a file. That file is begun once the source was compiled; after a
/// write that failed it may have a beginning of the text, which is no object file.
pub fn compile_file<F: Files, E: Write>(
    alloc: Global,
    order: &CompileOrder,
    files: &mut F,
    err: &mut E,
) -> Ending
    ensures others { KeepsOthers (F.files files.old) (F.files files.new) order.now.object.now }
    ensures compiled { result ≡ Ending.Done
        → CompilesFile (F.files files.old) (F.files files.new) order.now.source.now order.now.object.now }
    ensures refused { (result ≡ Ending.Done → ⊥)
        → StopsCompiling (F.files files.old) (F.files files.new) order.now.source.now order.now.object.now }
    ensures ending { (result ≡ Ending.Done) ⊎ (result ≡ Ending.Refused) }
    ensures told { result ≡ Ending.Refused → TellsRefusal (F.files files.old)
        (order.now.source.now ∷ order.now.object.now ∷ [])
        (F.failures files.old) (F.failures files.new) (E.contents err.old) (E.contents err.new) }
    ensures refusal { result ≡ Ending.Refused → RefusesCompiling (compile_in order.now) (F.files files.old)
        (F.failures files.old) (F.failures files.new) (E.contents err.old) (E.contents err.new) }
    ensures count { (result ≡ Ending.Refused → ⊥) → F.failures files.new ≡ F.failures files.old }
    ensures quiet { (result ≡ Ending.Refused → ⊥) → E.contents err.new ≡ E.contents err.old }
{
    let text = match files.read_file(order.source) {
        Ok(text) => text,
        Err(Failure::Fault(fault)) => return refuse_file(fault, order.source, err),
        Err(Failure::Memory) => return refuse_memory(err),
    };
    let compiling = object_text(alloc, text.as_slice());
    drop(text);
    let bytes = match compiling {
        Ok(bytes) => bytes,
        Err(Failure::Fault(fault)) => return refuse_sources(&fault, &[order.source], err),
        Err(Failure::Memory) => return refuse_memory(err),
    };
    match write_file(order.object, bytes.as_slice(), files) {
        Ok(()) => Ending::Done,
        Err(Failure::Fault(fault)) => refuse_file(fault, order.object, err),
        Err(Failure::Memory) => refuse_memory(err),
    }
}

// The text of the object module of a source. Only memory can fail its writing.
fn object_text(alloc: Global, text: &[u8]) -> Result<Vec<u8>, Failure<ToolFault>>
    ensures compiled { IfOk result (λ bytes. CompilesTo text.now bytes.items) }
    ensures refused { IfFault result (IsRefusedAlone text.now) }
{
    let object = compile(alloc, text)?;
    let mut bytes: Vec<u8> = Vec::new(alloc);
    let writing = write(&object, &mut bytes);
    drop(object);
    match writing {
        Ok(()) => Ok(bytes),
        Err(_) => Err(Failure::Memory),
    }
}
