//! Sources alone: what each is compiled to.

ghost use Rattle.std.specs.Prelude.{◌≡◌, ◌∷◌, ◌++◌, [], length, map, IfOk, OnOk};
ghost use Rattle.failure.specs.Failure.{IfFault};
ghost use Rattle.typed_trees.specs.Views.{module_view};
ghost use Rattle.layout.specs.Storage.{storage_with};
ghost use Rattle.layout.specs.Views.{layout_view};
ghost use Rattle.sources.specs.Reading.{IsSourceOf};
ghost use Rattle.object_modules.specs.Module.{length_of};
ghost use Rattle.object_modules.specs.declared.segment.Segment.TheVariants as segments;
ghost use Rattle.generation.specs.internal.Typed.{IsSoundlyMade};
ghost use Rattle.generation.specs.ModuleMarks.{LieInModule};
ghost use Rattle.sources.specs.GlobalNames.{GlobalNamesDiffer};
ghost use Rattle.sources.specs.Sound.{IsSoundlyTyped};
ghost use Rattle.sources.specs.Programs.{texts_of};
ghost use Rattle.tool.specs.Made.{IsCompiledTo};
ghost use Rattle.tool.specs.Sources.{AreWithoutFault, HasCause, IsInOrder, IsRefusedAlone};
ghost use Rattle.tool.specs.internal.Compiling.{AreCompiled, HasCompileCause, HasGenerationCause, HasSource, HasSourceCause, IsCompiled, failure_of_code};

use crate::fault::ToolFault;
use codegen8080::{CodeMarks, Generated};
use failure::Failure;
use generation::{generate, lower};
use layout::Layout;
use mem80::Plan;
use object_modules::{ObjectModule, Segment};
use sources::{Source, SourceModule, read_source};
use std::alloc::{AllocError, Global};
use typed_trees::Typed;

/// A source that is read, its object module, and the marks of the code of that.
#[derive(Drop)]
pub struct Compiled {
    pub source: SourceModule,
    pub object: ObjectModule,
    pub marks: CodeMarks,
}

/// The object module of one source, which is the source 0 of its faults.
pub fn compile(alloc: Global, text: &[u8]) -> Result<ObjectModule, Failure<ToolFault>>
    ensures compiled { IfOk result (IsCompiledTo text.now) }
    ensures refused { IfFault result (IsRefusedAlone text.now) }
{
    let Compiled {
        source,
        object,
        marks,
    } = compile_source(alloc, 0, text)?;
    drop(source);
    drop(marks);
    Ok(object)
}

/// Reads each source and makes its object module, in the order given.
pub fn compile_all(alloc: Global, sources: &[Source]) -> Result<Vec<Compiled>, Failure<ToolFault>>
    ensures compiled { IfOk result (λ compiled. AreCompiled (texts_of sources.now) compiled.items) }
    ensures well { IfOk result (λ _. AreWithoutFault (length sources.now) (texts_of sources.now)) }
    ensures refused { (plan : Plan) → IfFault result (λ fault. HasCause fault (texts_of sources.now) plan) }
    ensures order { IfFault result (λ fault. IsInOrder fault (texts_of sources.now)) }
{
    let mut compiled = Vec::new(alloc);
    for (file, source) in sources.iter().enumerate() {
        let one = compile_source(alloc, file, source.text)?;
        compiled.push(one)?;
    }
    Ok(compiled)
}

// Reads a source.
fn read(alloc: Global, file: usize, text: &[u8]) -> Result<SourceModule, Failure<ToolFault>>
    ensures source { IfOk result (λ read. IsSourceOf text.now (module_view read.typed)) }
    ensures sound { IfOk result (λ read. IsSoundlyTyped (module_view read.typed)) }
    ensures names { IfOk result (λ read. GlobalNamesDiffer (module_view read.typed)) }
    ensures storage { IfOk result
        (λ read. layout_view read.storage ≡ storage_with (module_view read.typed)) }
    ensures refused { IfFault result (HasSourceCause file text.now) }
{
    match read_source(alloc, text) {
        Ok(source) => Ok(source),
        Err(Failure::Fault(fault)) => Err(Failure::Fault(ToolFault::Source { file, fault })),
        Err(Failure::Memory) => Err(Failure::Memory),
    }
}

// The object module of a source that is read, and its marks.
fn generated_of(
    alloc: Global,
    file: usize,
    source: &SourceModule,
) -> Result<Generated, Failure<ToolFault>>
    requires source { HasSource (module_view source.now.typed) }
    requires sound { IsSoundlyTyped (module_view source.now.typed) }
    requires names { GlobalNamesDiffer (module_view source.now.typed) }
    requires storage { layout_view source.now.storage ≡ storage_with (module_view source.now.typed) }
    ensures made { IfOk result
        (λ generated. IsSoundlyMade (module_view source.now.typed) generated.object) }
    ensures marked { IfOk result
        (λ generated. LieInModule generated.marks (module_view source.now.typed) generated.object) }
    ensures refused { IfFault result (HasGenerationCause file (module_view source.now.typed)) }
{
    let tree = lower(alloc, &source.typed, &source.storage)?;
    let generated = generate(alloc, &tree);
    drop(tree);
    match generated {
        Ok(generated) => Ok(generated),
        Err(failure) => Err(of_code(file, failure)),
    }
}

// The failure of the code of the source of a number.
fn of_code(file: usize, failure: Failure<codegen8080::Fault>) -> Failure<ToolFault>
    ensures { result ≡ failure_of_code file failure }
{
    match failure {
        Failure::Fault(fault) => Failure::Fault(ToolFault::Code { file, fault }),
        Failure::Memory => Failure::Memory,
    }
}

// Reads a source, and makes its object module.
#[tactic(auto, using(crate::proofs::CompiledLemmas::has_source))]
fn compile_source(alloc: Global, file: usize, text: &[u8]) -> Result<Compiled, Failure<ToolFault>>
    ensures compiled { IfOk result (IsCompiled text.now) }
    ensures refused { IfFault result (λ fault. HasCompileCause fault file text.now) }
{
    let source = read(alloc, file, text)?;
    let Generated { object, marks } = generated_of(alloc, file, &source)?;
    Ok(Compiled {
        source,
        object,
        marks,
    })
}

/// The modules of sources, the storage of each, its object module, the length of its code segment and the marks of its code.
#[derive(Drop)]
pub struct Parts {
    pub modules: Vec<Typed>,
    pub storages: Vec<Layout>,
    pub objects: Vec<ObjectModule>,
    pub lengths: Vec<u32>,
    pub marks: Vec<CodeMarks>,
}

impl Parts {
    // Adds what one source is taken apart to.
    fn add(&mut self, one: Compiled) -> Result<(), AllocError>
        ensures modules { OnOk result
            (self.new.modules.items ≡ self.old.modules.items ++ one.source.typed ∷ []) }
        ensures storages { OnOk result
            (self.new.storages.items ≡ self.old.storages.items ++ one.source.storage ∷ []) }
        ensures objects { OnOk result (self.new.objects.items ≡ self.old.objects.items ++ one.object ∷ []) }
        ensures lengths { OnOk result
            (self.new.lengths.items ≡ self.old.lengths.items ++ length_of one.object segments.Code ∷ []) }
        ensures marks { OnOk result (self.new.marks.items ≡ self.old.marks.items ++ one.marks ∷ []) }
    {
        let Compiled {
            source,
            object,
            marks,
        } = one;
        self.lengths.push(object.length(Segment::Code) as u32)?;
        self.objects.push(object)?;
        let SourceModule { typed, storage } = source;
        self.modules.push(typed)?;
        self.storages.push(storage)?;
        self.marks.push(marks)?;
        Ok(())
    }
}

/// Takes sources apart.
pub fn parts_of(alloc: Global, compiled: Vec<Compiled>) -> Result<Parts, AllocError>
    ensures modules { IfOk result
        (λ parts. parts.modules.items ≡ map (λ one. one.source.typed) compiled.items) }
    ensures storages { IfOk result
        (λ parts. parts.storages.items ≡ map (λ one. one.source.storage) compiled.items) }
    ensures objects { IfOk result (λ parts. parts.objects.items ≡ map (λ one. one.object) compiled.items) }
    ensures lengths { IfOk result
        (λ parts. parts.lengths.items ≡ map (λ one. length_of one.object segments.Code) compiled.items) }
    ensures marks { IfOk result (λ parts. parts.marks.items ≡ map (λ one. one.marks) compiled.items) }
{
    let mut parts = Parts {
        modules: Vec::new(alloc),
        storages: Vec::new(alloc),
        objects: Vec::new(alloc),
        lengths: Vec::new(alloc),
        marks: Vec::new(alloc),
    };
    for one in compiled {
        parts.add(one)?;
    }
    Ok(parts)
}
