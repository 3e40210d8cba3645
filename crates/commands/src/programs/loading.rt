//! Sources and inputs of a command.

ghost use Rattle.std.specs.Prelude.{◌≡◌, ◌<◌, ℕ, [], IfOk, length, map, slice_index};
ghost use Rattle.mem80.specs.Pieces.{IsLoaded};
ghost use Rattle.mem80.specs.declared.memory.TheConstants.{MEMORY_SIZE};
ghost use Rattle.command_line.specs.Settings.{values_in};
ghost use Rattle.sources.specs.Programs.{texts_of};
ghost use Rattle.commands.specs.NeedFaults as of_needs;
ghost use Rattle.commands.specs.Ends.{GivesInput};
ghost use Rattle.commands.specs.Starting.{IsStart, byte_named};

use command_line::{InputByte, MemoryByte, Settings};
use mem80::{MEMORY_SIZE, Memory, Memory80Fault};
use ports::{PortFault, Script};
use std::alloc::{AllocError, Global};
use tool::Source;

/// The name of the file of this number, or a dash.
pub(crate) fn name_at<'a>(names: &[&'a str], number: usize) -> &'a str
    ensures { result.now ≡ of_needs.name_at (map (λ name. name.now) names.now) number }
{
    match names.get(number) {
        Some(name) => *name,
        None => "-",
    }
}

/// Texts with the names of their files.
pub fn sources_of<'a>(
    alloc: Global,
    names: &[&'a str],
    texts: &'a [Vec<u8>],
) -> Result<Vec<Source<'a>>, AllocError>
    ensures { IfOk result (λ sources.
        texts_of sources.items ≡ map (λ text. text.items) texts.now) }
{
    let mut sources = Vec::new(alloc);
    for text in texts {
        let name = name_at(names, sources.len());
        sources.push(Source {
            name,
            text: text.as_slice(),
        })?;
    }
    Ok(sources)
}

/// Ports that give these bytes.
#[tactic(auto, using(crate::proofs::Inputs::none_put, crate::proofs::Inputs::byte_put, crate::proofs::Inputs::all_put))]
pub(crate) fn script_of(alloc: Global, input: &[InputByte]) -> Result<Script, PortFault>
    ensures script { IfOk result (λ script. GivesInput input.now script.script) }
    ensures events { IfOk result (λ script. script.events ≡ []) }
    ensures failures { IfOk result (λ script. script.failures ≡ 0) }
{
    let mut script = Script::new(alloc);
    let mut rest = input;
    while let [one, more @ ..] = rest {
        script.push_input(one.port, one.byte)?;
        rest = more;
    }
    Ok(script)
}

/// A memory as values start it: with their fill at each address, and their bytes over it.
#[tactic(auto, using(crate::proofs::StartMemory::is_start))]
pub(crate) fn start_memory(alloc: Global, settings: &Settings) -> Result<Memory, Memory80Fault>
    ensures { IfOk result (IsStart (values_in settings.now)) }
{
    let mut memory = Memory::new(alloc)?;
    fill_memory(&mut memory, settings.fill);
    put_bytes(&mut memory, settings.memory.as_slice());
    Ok(memory)
}

// Puts a byte at each address.
#[tactic(auto, using(crate::proofs::StartMemory::none_filled, crate::proofs::StartMemory::one_filled))]
fn fill_memory(memory: &mut Memory, fill: u8)
    ensures size { length memory.new ≡ MEMORY_SIZE }
    ensures bytes { (address : ℕ) → address < MEMORY_SIZE → slice_index memory.new address ≡ fill }
{
    let mut next = 0;
    while next < MEMORY_SIZE {
        memory.set(next as u16, fill);
        next += 1;
    }
}

// Puts bytes at their addresses, each over what is there.
#[tactic(auto, using(crate::proofs::StartMemory::none_put, crate::proofs::StartMemory::one_put, crate::proofs::StartMemory::all_put))]
fn put_bytes(memory: &mut Memory, bytes: &[MemoryByte])
    ensures { IsLoaded (byte_named bytes.now) memory.old memory.new }
{
    let mut rest = bytes;
    while let [one, more @ ..] = rest {
        memory.set(one.address, one.byte);
        rest = more;
    }
}
