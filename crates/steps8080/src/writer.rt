//! Code with numbered labels and EXTERNAL names.

ghost use Rattle.std.specs.Prelude.{◌≡◌, [], ◌∷◌, ◌++◌, ◌<◌, Some, drop, length, IfOk, IsTrue, OnErr, OnOk, Err};
ghost use Rattle.failure.specs.Failure.{IfFault};
ghost use Rattle.asm8080.specs.declared.item.Item.TheVariants.{Plain, WithWord, Byte, Address, Gap, Mark};
ghost use Rattle.asm8080.specs.declared.item.Reference.TheVariants.{AtTarget, AtNumber};
ghost use Rattle.object_modules.specs.declared.segment.Target.TheVariants.{External, InSegment};
ghost use Rattle.object_modules.specs.Module.{is_movable};
ghost use Rattle.asm8080.specs.Assembled.{IsFinished};
ghost use Rattle.asm8080.specs.Items.{size_of_items};
ghost use Rattle.steps8080.specs.internal.Externals.{Extends, entry};
ghost use Rattle.steps8080.specs.internal.Instructions.{high, low};
ghost use Rattle.steps8080.specs.internal.Writer.{CountsOne, Finishes, KeepsMarks, Writes, WritesRoutine, address_items, external_call_item, jump_item, place_of_known, stack_end_item, word_item};

use crate::externals::Externals;
use crate::step::LabelNumber;
use asm8080::{Code, CodeBytes, Fault, Label, WordForm};
use failure::Failure;
use isa8080::Instr;
use object_modules::{Segment, Target};
use runtime8080::{Routine, emit_routine};
use std::alloc::{AllocError, Global};
use std::marker::Model;
use treecode::Place;

/// Code that grows at its end, with the labels of a module by their numbers and the EXTERNAL names that the code refers
/// to.
pub struct Writer {
    code: Code,
    /// The label of the code for each label number in use.
    labels: Vec<Option<Label>>,
    /// Whether each label has its place, by its label number.
    is_marked: Vec<bool>,
    externals: Externals,
}

impl Model for Writer {
    ghost use Rattle.steps8080.specs.internal.Writer.{Written};
    ghost use Rattle.steps8080.specs.internal.Labels.{AreKept};

    ghost Value = { Written };

    ghost view = { λ writer. record {
      code = writer.code;
      labels = writer.labels.items;
      marked = writer.is_marked.items;
      externals = writer.externals;
    } };

    ghost invariant = { λ writer. AreKept writer.labels.items writer.is_marked.items writer.code };
}

impl Writer {
    /// No code.
    pub fn new(alloc: Global) -> Writer
        ensures { result ≡ record {
          code = record { items = []; labels = 0 };
          labels = [];
          marked = [];
          externals = [];
        } }
    {
        Writer::sharing(alloc, Externals::new(alloc))
    }

    /// No code, in a module in which other code refers to these EXTERNAL names already.
    pub fn sharing(alloc: Global, externals: Externals) -> Writer
        ensures { result ≡ record {
          code = record { items = []; labels = 0 };
          labels = [];
          marked = [];
          externals = externals;
        } }
    {
        Writer {
            code: Code::new(alloc),
            labels: Vec::new(alloc),
            is_marked: Vec::new(alloc),
            externals,
        }
    }

    /// Adds an instruction.
    pub fn plain(&mut self, instruction: Instr) -> Result<(), AllocError>
        ensures { OnOk result (Writes self.old self.new (Plain instruction ∷ [])) }
    {
        self.code.emit(instruction)?;
        Ok(())
    }

    // Adds an instruction with a word relative to the start of a segment.
    fn fixed(&mut self, form: WordForm, segment: Segment, offset: u16) -> Result<(), AllocError>
        requires { IsTrue (is_movable segment) }
        ensures { OnOk result (Writes self.old self.new
            (WithWord form (AtTarget (InSegment segment) offset) ∷ [])) }
    {
        self.code
            .emit_fixed(form, Target::InSegment(segment), offset)?;
        Ok(())
    }

    // Adds an instruction with a word relative to the address of an EXTERNAL name.
    fn fixed_by_name(&mut self, form: WordForm, name: u32, offset: u16) -> Result<(), AllocError>
        ensures { OnOk result (Writes self.old self.new
            (WithWord form (AtTarget (External name) offset) ∷ [])) }
    {
        let number = self.externals.number(name)?;
        self.code
            .emit_fixed(form, Target::External(number), offset)?;
        Ok(())
    }

    // Adds an instruction with a number as its word.
    fn word_of_number(&mut self, form: WordForm, number: u16) -> Result<(), AllocError>
        ensures { OnOk result (Writes self.old self.new (WithWord form (AtNumber number) ∷ [])) }
    {
        self.code.emit_number(form, number)?;
        Ok(())
    }

    /// Adds an instruction with the word of a place.
    pub fn word(&mut self, form: WordForm, place: Place) -> Result<(), AllocError>
        ensures { OnOk result (Writes self.old self.new (word_item form place ∷ [])) }
    {
        match place {
            Place::Number(number) => self.word_of_number(form, number),
            Place::Code(offset) => self.fixed(form, Segment::Code, offset),
            Place::Data(offset) => self.fixed(form, Segment::Data, offset),
            Place::External { name, offset } => self.fixed_by_name(form, name, offset),
        }
    }

    /// Adds an instruction with the address just past the stack as its word.
    pub fn stack_end(&mut self, form: WordForm) -> Result<(), AllocError>
        ensures { OnOk result (Writes self.old self.new (stack_end_item form ∷ [])) }
    {
        self.fixed(form, Segment::Stack, 0)
    }

    /// Adds a call of a procedure in another module, by the index of its EXTERNAL name.
    pub fn call_external(&mut self, name: u32) -> Result<(), AllocError>
        ensures { OnOk result (Writes self.old self.new (external_call_item name ∷ [])) }
    {
        self.fixed_by_name(WordForm::CallTo, name, 0)
    }

    /// Adds a byte of data.
    pub fn byte(&mut self, value: u8) -> Result<(), AllocError>
        ensures { OnOk result (Writes self.old self.new (Byte value ∷ [])) }
    {
        self.code.emit_byte(value)?;
        Ok(())
    }

    // Adds a word of data relative to the start of a segment.
    fn fixed_address(&mut self, segment: Segment, offset: u16) -> Result<(), AllocError>
        requires { IsTrue (is_movable segment) }
        ensures { OnOk result (Writes self.old self.new
            (Address (AtTarget (InSegment segment) offset) ∷ [])) }
    {
        self.code.emit_address(Target::InSegment(segment), offset)?;
        Ok(())
    }

    // Adds a word of data relative to the address of an EXTERNAL name.
    fn address_by_name(&mut self, name: u32, offset: u16) -> Result<(), AllocError>
        ensures { OnOk result (Writes self.old self.new
            (Address (AtTarget (External name) offset) ∷ [])) }
    {
        let number = self.externals.number(name)?;
        self.code.emit_address(Target::External(number), offset)?;
        Ok(())
    }

    // Adds a number as a word of data.
    fn number(&mut self, number: u16) -> Result<(), AllocError>
        ensures { OnOk result (Writes self.old self.new (Byte (low number) ∷ Byte (high number) ∷ [])) }
    {
        self.byte((number % 256) as u8)?;
        self.byte((number / 256) as u8)?;
        Ok(())
    }

    /// Adds a word of data.
    pub fn address(&mut self, place: Place) -> Result<(), AllocError>
        ensures { OnOk result (Writes self.old self.new (address_items place)) }
    {
        match place {
            Place::Number(number) => self.number(number),
            Place::Code(offset) => self.fixed_address(Segment::Code, offset),
            Place::Data(offset) => self.fixed_address(Segment::Data, offset),
            Place::External { name, offset } => self.address_by_name(name, offset),
        }
    }

    /// Adds `count` bytes that stay unset.
    pub fn gap(&mut self, count: u16) -> Result<(), AllocError>
        ensures { OnOk result (Writes self.old self.new (Gap count ∷ [])) }
    {
        self.code.leave(count)?;
        Ok(())
    }

    /// How many items the code has.
    pub fn item_count(&self) -> usize
        ensures { result ≡ length self.now.code.items }
    {
        self.code.item_count()
    }

    /// How many bytes the items from one on take.
    pub fn size_from(&self, first: usize) -> u128
        ensures { result ≡ size_of_items (drop first self.now.code.items) }
    {
        self.code.size_from(first)
    }

    // Makes the tables of labels long enough for a label number.
    fn reach(&mut self, number: LabelNumber) -> Result<(), AllocError>
        ensures reached { OnOk result (number.index < length self.new.labels) }
        ensures code { self.new.code ≡ self.old.code }
        ensures labels { Extends self.old.labels self.new.labels }
        ensures marked { OnOk result (KeepsMarks self.old.marked self.new.marked) }
        ensures externals { self.new.externals ≡ self.old.externals }
    {
        let index = number.index as usize;
        if index < self.labels.len() {
            return Ok(());
        }
        self.is_marked.resize(index + 1, false)?;
        self.labels.resize(index + 1, None)?;
        Ok(())
    }

    // The label of the code for a label number; a new one at its first use.
    #[tactic(auto, using(crate::proofs::Labels::label_made))]
    fn label_of(&mut self, number: LabelNumber) -> Result<Label, AllocError>
        ensures reached { OnOk result (number.index < length self.new.labels) }
        ensures found { IfOk result (λ label. entry self.new.labels number.index ≡ Some label) }
        ensures items { OnOk result (self.new.code.items ≡ self.old.code.items) }
        ensures labels { OnOk result (Extends self.old.labels self.new.labels) }
        ensures counted { OnOk result (CountsOne number.index self.old self.new) }
        ensures marked { OnOk result (KeepsMarks self.old.marked self.new.marked) }
        ensures externals { OnOk result (self.new.externals ≡ self.old.externals) }
    {
        self.reach(number)?;
        let index = number.index as usize;
        if let Some(label) = self.labels[index] {
            return Ok(label);
        }
        let label = self.code.label()?;
        self.labels[index] = Some(label);
        Ok(label)
    }

    /// Adds a jump to a label, or another instruction with its place.
    pub fn jump(&mut self, form: WordForm, number: LabelNumber) -> Result<(), AllocError>
        ensures { OnOk result (Writes self.old self.new (jump_item form number ∷ [])) }
    {
        let label = self.label_of(number)?;
        self.code.jump(form, label)?;
        Ok(())
    }

    /// Gives a label its place here, unless it has one.
    #[tactic(auto, using(crate::proofs::Labels::label_placed))]
    pub fn mark(&mut self, number: LabelNumber) -> Result<(), AllocError>
        ensures { OnOk result (Writes self.old self.new (Mark number.index ∷ [])) }
    {
        let label = self.label_of(number)?;
        let index = number.index as usize;
        if self.is_marked[index] {
            return Ok(());
        }
        self.code.bind(label)?;
        self.is_marked[index] = true;
        Ok(())
    }

    /// Appends a routine to the code, with a label at its start. The code is dropped if memory runs out.
    pub fn with_routine(
        mut self,
        routine: Routine,
        number: LabelNumber,
    ) -> Result<Writer, AllocError>
        ensures { IfOk result (λ after. WritesRoutine routine number self after) }
    {
        self.mark(number)?;
        let Writer {
            code,
            labels,
            is_marked,
            externals,
        } = self;
        let code = emit_routine(code, routine)?;
        Ok(Writer {
            code,
            labels,
            is_marked,
            externals,
        })
    }

    /// The code as bytes and fixes, with its labels, and the EXTERNAL names that it refers to.
    pub fn finish(self) -> Result<(Finished, Externals), Failure<Fault>>
        ensures code { IfOk result (λ both. Finishes self both.0.bytes both.0.labels.items) }
        ensures externals { IfOk result (λ both. both.1 ≡ self.externals) }
        ensures fault { IfFault result (λ fault. IsFinished self.code (Err fault)) }
    {
        let Writer {
            code,
            labels,
            is_marked: _,
            externals,
        } = self;
        match code.finish() {
            Ok(bytes) => Ok((Finished { bytes, labels }, externals)),
            Err(Failure::Fault(fault)) => Err(Failure::Fault(fault)),
            Err(Failure::Memory) => Err(Failure::Memory),
        }
    }
}

/// The bytes of code, and its labels.
pub struct Finished {
    pub bytes: CodeBytes,
    pub labels: Vec<Option<Label>>,
}

impl Finished {
    /// The offset of a label from the start of the code; 0 if the code does not use it.
    pub fn place(&self, number: LabelNumber) -> u16
        ensures { result ≡ place_of_known self.now.bytes (entry self.now.labels.items number.index) }
    {
        match self.labels.get(number.index as usize) {
            Some(Some(label)) => self.bytes.place(*label),
            _ => 0,
        }
    }

    /// The bytes.
    pub fn into_bytes(self) -> CodeBytes
        ensures { result ≡ self.bytes }
    {
        let Finished { bytes, labels: _ } = self;
        bytes
    }
}

// Written out so that the fields are dropped in one place, which other crates call.
impl Drop for Writer {
    fn drop(self) {
        let Writer {
            code: _,
            labels: _,
            is_marked: _,
            externals: _,
        } = self;
    }
}

impl Drop for Finished {
    fn drop(self) {
        let Finished {
            bytes: _,
            labels: _,
        } = self;
    }
}
