//! From a source text to its typed module.

ghost use Rattle.std.specs.Prelude.{◌≡◌, ◌<◌, ◌≤◌, length, IfOk};
ghost use Rattle.failure.specs.Failure.{IfFault};
ghost use Rattle.words.specs.declared.limits.TheConstants.{LONGEST_SOURCE};
ghost use Rattle.words.specs.Spelling.{lexemes_of};
ghost use Rattle.grammar.specs.Derivation.{Derives};
ghost use Rattle.trees.specs.internal.Views.{module_tree};
ghost use Rattle.typed_trees.specs.Frames.{FramesFit, ParametersFit};
ghost use Rattle.typed_trees.specs.Globals.{ListsGlobals};
ghost use Rattle.typed_trees.specs.Jumps.{JumpsAreSound};
ghost use Rattle.typed_trees.specs.Storable.{IsStorable};
ghost use Rattle.typed_trees.specs.Views.{module_view};
ghost use Rattle.typed_trees.specs.WellTyped.{IsWellTyped};
ghost use Rattle.typed_trees.specs.Numbers.{NumbersFitInModule};
ghost use Rattle.layout.specs.Storage.{storage_with};
ghost use Rattle.layout.specs.Views.{layout_view};
ghost use Rattle.layout.specs.Sound.{IsSoundlyTyped};
ghost use Rattle.typed_laws.specs.GlobalNames.{GlobalNamesDiffer};
ghost use Rattle.sources.specs.Reading.{HasTyping, IsSource, IsSourceOf, IsText};
ghost use Rattle.sources.specs.Causes.{HasReadCause, IsSyntaxFault};
ghost use Rattle.sources.specs.internal.Steps.{failure_as};

use failure::Failure;
use layout::Layout;
use std::alloc::Global;
use thiserror::Error;
use trees::{Module, Place};
use typed_trees::Typed;
use words::{LONGEST_SOURCE, Word};

/// Why a source text is refused.
#[derive(Clone, Copy, Debug, Error)]
pub enum ReadFault {
    /// It is longer than a source may be.
    #[error("a source of more than {most} bytes", most = LONGEST_SOURCE)]
    TooLong,
    /// It is not a list of words.
    #[error("{0}")]
    Words(words::Fault),
    /// Its words have no expansion by LITERALLY.
    #[error("{0}")]
    Expansion(literally::Fault),
    /// Its expanded words are not a module.
    #[error("{0}")]
    Syntax(syntax::Fault),
    /// It breaks a rule of names, types, attributes or constants.
    #[error("{0}")]
    Typing(typing::Fault),
    /// Its data or its constants are more than a segment holds.
    #[error("{0}")]
    Storage(layout::Fault),
}

impl ReadFault {
    ghost use Rattle.std.specs.Prelude.{◌≡◌};
    ghost use Rattle.sources.specs.Faults.{line_of, number_of, place_of};

    /// The number of the fault, as `plm` prints it.
    pub fn number(&self) -> &'static str
        ensures { result.now ≡ number_of self.now }
    {
        match self {
            ReadFault::TooLong => "U2",
            ReadFault::Words(fault) => fault.number(),
            ReadFault::Expansion(fault) => fault.number(),
            ReadFault::Syntax(fault) => fault.number(),
            ReadFault::Typing(fault) => fault.number(),
            ReadFault::Storage(fault) => fault.number(),
        }
    }

    /// The line of the fault, counted from 1, or 0 if the whole source is refused, or its segments.
    pub fn line(&self) -> u32
        ensures { result ≡ line_of self.now }
    {
        match self {
            ReadFault::TooLong => 0,
            ReadFault::Words(fault) => fault.line(),
            ReadFault::Expansion(fault) => fault.line(),
            ReadFault::Syntax(fault) => fault.line(),
            ReadFault::Typing(fault) => fault.line(),
            ReadFault::Storage(_) => 0,
        }
    }

    /// The place of the word at fault; none if the whole source is refused, or its segments.
    pub fn place(&self) -> Option<Place>
        ensures { result ≡ place_of self.now }
    {
        match self {
            ReadFault::Words(fault) => Some(Place {
                start: fault.start(),
                line: fault.line(),
            }),
            ReadFault::Expansion(fault) => Some(Place {
                start: fault.start(),
                line: fault.line(),
            }),
            ReadFault::Syntax(fault) => Some(fault.place()),
            ReadFault::Typing(fault) => Some(fault.place()),
            ReadFault::TooLong | ReadFault::Storage(_) => None,
        }
    }
}

/// A source as it is read: its typed module, and where the objects and constants of that lie in its segments.
#[derive(Drop)]
pub struct SourceModule {
    pub typed: Typed,
    pub storage: Layout,
}

/// The typed module that a text is, with its storage. It is soundly typed, and no two of its PUBLIC and EXTERNAL names are the
/// same. A text that is a source is not refused, unless memory runs out.
#[tactic(auto, using(crate::proofs::ReadLemmas::is_source, crate::proofs::ReadLemmas::stored, crate::proofs::OneSource::source_accepted))]
pub fn read_source(alloc: Global, text: &[u8]) -> Result<SourceModule, Failure<ReadFault>>
    ensures source { IfOk result (λ read. IsSourceOf text.now (module_view read.typed)) }
    ensures sound { IfOk result (λ read. IsSoundlyTyped (module_view read.typed)) }
    ensures names { IfOk result (λ read. GlobalNamesDiffer (module_view read.typed)) }
    ensures storage { IfOk result
        (λ read. layout_view read.storage ≡ storage_with (module_view read.typed)) }
    ensures storable { IfOk result (λ read. IsStorable (module_view read.typed)) }
    ensures jumps { IfOk result (λ read. JumpsAreSound (module_view read.typed)) }
    ensures types { IfOk result (λ read. IsWellTyped (module_view read.typed)) }
    ensures numbers { IfOk result (λ read. NumbersFitInModule (module_view read.typed)) }
    ensures globals { IfOk result (λ read. ListsGlobals (module_view read.typed)) }
    ensures frames { IfOk result (λ read. FramesFit (module_view read.typed)) }
    ensures parameters { IfOk result (λ read. ParametersFit (module_view read.typed)) }
    ensures refused { IfFault result (λ fault. HasReadCause fault text.now) }
    ensures accepted { IfFault result (λ fault. IsSource text.now → ⊥) }
    ensures too_long { LONGEST_SOURCE < length text.now → result ≡ Err (Failure.Fault ReadFault.TooLong) }
{
    if text.len() > LONGEST_SOURCE {
        return Err(Failure::Fault(ReadFault::TooLong));
    }
    let typed = type_text(alloc, text)?;
    let storage = layout::layout(alloc, &typed).map_err(from_storage)?;
    Ok(SourceModule { typed, storage })
}

// The typing of a text that is not too long.
#[tactic(auto, using(crate::proofs::ReadLemmas::has_typing))]
fn type_text(alloc: Global, text: &[u8]) -> Result<Typed, Failure<ReadFault>>
    requires { length text.now ≤ LONGEST_SOURCE }
    ensures typing { IfOk result (λ typed. HasTyping text.now (module_view typed)) }
    ensures storable { IfOk result (λ typed. IsStorable (module_view typed)) }
    ensures jumps { IfOk result (λ typed. JumpsAreSound (module_view typed)) }
    ensures types { IfOk result (λ typed. IsWellTyped (module_view typed)) }
    ensures numbers { IfOk result (λ typed. NumbersFitInModule (module_view typed)) }
    ensures globals { IfOk result (λ typed. ListsGlobals (module_view typed)) }
    ensures frames { IfOk result (λ typed. FramesFit (module_view typed)) }
    ensures parameters { IfOk result (λ typed. ParametersFit (module_view typed)) }
    ensures refused { IfFault result (λ fault. HasReadCause fault text.now) }
{
    let tree = parse_text(alloc, text)?;
    let typed = types::check(alloc, tree).map_err(from_typing)?;
    Ok(typed)
}

/// The module of a text that is not too long.
#[tactic(auto, using(crate::proofs::ReadLemmas::is_text))]
pub(crate) fn parse_text(alloc: Global, text: &[u8]) -> Result<Module, Failure<ReadFault>>
    requires { length text.now ≤ LONGEST_SOURCE }
    ensures read { IfOk result (λ parsed. IsText text.now (module_tree parsed)) }
    ensures refused { IfFault result (λ fault. HasReadCause fault text.now) }
{
    let words = words::scan(alloc, text).map_err(from_words)?;
    let expanded = literally::expand(alloc, words.as_slice()).map_err(from_expansion)?;
    let parsed = parse_words(alloc, expanded.as_slice()).map_err(from_syntax)?;
    Ok(parsed)
}

// The module that words derive.
fn parse_words(alloc: Global, words: &[Word]) -> Result<Module, Failure<syntax::Fault>>
    ensures derived { IfOk result (λ parsed. Derives (lexemes_of words.now) (module_tree parsed)) }
    ensures fault { IfFault result (IsSyntaxFault (lexemes_of words.now)) }
{
    syntax::parse(alloc, words)
}

fn from_words(failure: Failure<words::Fault>) -> Failure<ReadFault>
    ensures { result ≡ failure_as (λ fault. ReadFault.Words fault) failure }
{
    match failure {
        Failure::Fault(fault) => Failure::Fault(ReadFault::Words(fault)),
        Failure::Memory => Failure::Memory,
    }
}

fn from_expansion(failure: Failure<literally::Fault>) -> Failure<ReadFault>
    ensures { result ≡ failure_as (λ fault. ReadFault.Expansion fault) failure }
{
    match failure {
        Failure::Fault(fault) => Failure::Fault(ReadFault::Expansion(fault)),
        Failure::Memory => Failure::Memory,
    }
}

fn from_syntax(failure: Failure<syntax::Fault>) -> Failure<ReadFault>
    ensures { result ≡ failure_as (λ fault. ReadFault.Syntax fault) failure }
{
    match failure {
        Failure::Fault(fault) => Failure::Fault(ReadFault::Syntax(fault)),
        Failure::Memory => Failure::Memory,
    }
}

fn from_typing(failure: Failure<typing::Fault>) -> Failure<ReadFault>
    ensures { result ≡ failure_as (λ fault. ReadFault.Typing fault) failure }
{
    match failure {
        Failure::Fault(fault) => Failure::Fault(ReadFault::Typing(fault)),
        Failure::Memory => Failure::Memory,
    }
}

fn from_storage(failure: Failure<layout::Fault>) -> Failure<ReadFault>
    ensures { result ≡ failure_as (λ fault. ReadFault.Storage fault) failure }
{
    match failure {
        Failure::Fault(fault) => Failure::Fault(ReadFault::Storage(fault)),
        Failure::Memory => Failure::Memory,
    }
}
