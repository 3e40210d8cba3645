//! How much of the stack the program of sources needs.

ghost use Rattle.std.specs.Prelude.{◌≡◌, ◌<◌, Err, IfOk, length, map};
ghost use Rattle.host.specs.Failure.{IfFault};
ghost use Rattle.typed_trees.specs.Views.{module_view};
ghost use Rattle.layout.specs.Joined.{IsJoined};
ghost use Rattle.join.specs.Views.{modules_of};
ghost use Rattle.sources.specs.Reading.{IsSourceOf};
ghost use Rattle.sources.specs.Programs.{AreSourcesOf, texts_of};
ghost use Rattle.commands.specs.Needs.{HasCause, IsNeedOf, IsNeedText};
ghost use Rattle.commands.specs.internal.Reading.{IsFirstFault, IsOfJoining, IsOfSource};

use crate::needs::fault::NeedFault;
use crate::needs::line::line_of;
use host::Failure;
use join::{Joined, join};
use sources::{MOST_SOURCES, Source, SourceModule, read_source};
use stack_need::need;
use std::alloc::Global;
use typed_trees::Typed;

/// How much of the stack the program of sources needs, wherever it lies: no code is made of it. Faults are those that a
/// build finds before it makes code, in its order: too many sources, those of each source in turn, those of joining.
#[tactic(auto, using(crate::proofs::NeedLemmas::is_need, crate::proofs::NeedLemmas::join_cause, crate::proofs::NeedLemmas::source_cause))]
pub fn need_of_sources(alloc: Global, sources: &[Source]) -> Result<Option<u32>, Failure<NeedFault>>
    ensures need { IfOk result (IsNeedOf (texts_of sources.now)) }
    ensures refused { IfFault result (λ fault. HasCause fault (texts_of sources.now)) }
    ensures too_many { MOST_SOURCES < length sources.now
        → result ≡ Err (Failure.Fault NeedFault.TooManySources) }
{
    if sources.len() > MOST_SOURCES {
        return Err(Failure::Fault(NeedFault::TooManySources));
    }
    let modules = read_all(alloc, sources)?;
    let program = join_all(alloc, modules)?;
    let need = need(alloc, &program)?;
    Ok(need)
}

/// The line that says how much of the stack the program of sources needs.
#[tactic(auto, using(crate::proofs::NeedLemmas::is_need_text))]
pub fn need_text(alloc: Global, sources: &[Source]) -> Result<String, Failure<NeedFault>>
    ensures text { IfOk result (λ line. IsNeedText (texts_of sources.now) line.bytes.items) }
    ensures refused { IfFault result (λ fault. HasCause fault (texts_of sources.now)) }
    ensures too_many { MOST_SOURCES < length sources.now
        → result ≡ Err (Failure.Fault NeedFault.TooManySources) }
{
    let need = need_of_sources(alloc, sources)?;
    let line = line_of(alloc, need)?;
    Ok(line)
}

// The typed modules of sources, in the order given.
fn read_all(alloc: Global, sources: &[Source]) -> Result<Vec<Typed>, Failure<NeedFault>>
    ensures modules { IfOk result
        (λ modules. AreSourcesOf (texts_of sources.now) (map module_view modules.items)) }
    ensures refused { IfFault result (IsFirstFault (texts_of sources.now)) }
{
    let mut modules = Vec::new(alloc);
    for (file, source) in sources.iter().enumerate() {
        let typed = read_typed(alloc, file, source.text)?;
        modules.push(typed)?;
    }
    Ok(modules)
}

// The typed module of a source.
fn read_typed(alloc: Global, file: usize, text: &[u8]) -> Result<Typed, Failure<NeedFault>>
    ensures source { IfOk result (λ typed. IsSourceOf text.now (module_view typed)) }
    ensures refused { IfFault result (IsOfSource file text.now) }
{
    match read_source(alloc, text) {
        Ok(SourceModule { typed, storage: _ }) => Ok(typed),
        Err(Failure::Fault(fault)) => Err(Failure::Fault(NeedFault::Source { file, fault })),
        Err(Failure::Memory) => Err(Failure::Memory),
    }
}

// The program of modules.
fn join_all(alloc: Global, modules: Vec<Typed>) -> Result<Joined, Failure<NeedFault>>
    ensures kept { IfOk result (λ program. modules_of program ≡ modules.items) }
    ensures joined { IfOk result (λ _. IsJoined (map module_view modules.items)) }
    ensures refused { IfFault result (IsOfJoining (map module_view modules.items)) }
{
    match join(alloc, modules) {
        Ok(program) => Ok(program),
        Err(Failure::Fault(fault)) => Err(Failure::Fault(NeedFault::Join(fault))),
        Err(Failure::Memory) => Err(Failure::Memory),
    }
}
