//! Code with labels.

ghost use Rattle.std.specs.Prelude.{◌≡◌, ◌+◌, ◌^◌, ◌<◌, false, [], ◌∷◌, ◌++◌, drop, length, OnErr, OnOk, IfOk, IfSome, IsTrue, Ok, Err};
ghost use Rattle.failure.specs.Failure.{IfFault};
ghost use Rattle.asm8080.specs.declared.item.Item.TheVariants.{Plain, WithWord, Byte, Address, Gap, Mark};
ghost use Rattle.asm8080.specs.declared.item.Reference.TheVariants.{AtLabel, AtTarget, AtNumber};
ghost use Rattle.asm8080.specs.Items.{BindsSame, BindsSameBut, IsAssembly, is_bound, may_be_target, size_of_items};
ghost use Rattle.asm8080.specs.Assembled.{IsFinished};

use crate::assembling::{all_placed, assemble, items_size, label_places};
use crate::bytes::CodeBytes;
use crate::fault::Fault;
use crate::item::{Item, Reference, WordForm};
use crate::stored::{StoredItem, store};
use failure::Failure;
use isa8080::Instr;
use object_modules::{SEGMENT_LIMIT, Target};
use std::alloc::{AllocError, Global};
use std::marker::Model;

/// A place in code, to be bound once.
#[derive(Clone, Copy)]
pub struct Label {
    pub(crate) number: u32,
}

impl Model for Label {
    ghost use Rattle.std.specs.Prelude.{ℕ};

    ghost Value = { ℕ };

    ghost view = { λ label. label.number };

    ghost inverse = { λ number. record { number = number } };
}

/// Code to which more is added at its end. If memory runs out, it stays as it was.
#[derive(Drop)]
pub struct Code {
    items: Vec<StoredItem>,
    labels: u32,
}

impl Model for Code {
    ghost use Rattle.asm8080.specs.Items.{Assembly, IsAssembly};

    ghost Value = { Assembly };

    ghost view = { λ code. record { items = code.items.items; labels = code.labels } };

    ghost invariant = { λ code. IsAssembly (record { items = code.items.items; labels = code.labels }) };
}

impl Code {
    /// No code yet.
    pub fn new(alloc: Global) -> Code
        ensures { result ≡ record { items = []; labels = 0 } }
    {
        Code {
            items: Vec::new(alloc),
            labels: 0,
        }
    }

    /// Adds an instruction.
    pub fn emit(&mut self, instruction: Instr) -> Result<(), AllocError>
        ensures ok { OnOk result (self.new
            ≡ record self.old { items = self.old.items ++ Plain instruction ∷ [] }) }
        ensures bound { OnOk result (BindsSame self.old.items self.new.items) }
        ensures err { OnErr result (self.new ≡ self.old) }
    {
        store(&mut self.items, Item::Plain(instruction))?;
        Ok(())
    }

    /// Adds an instruction whose word counts from a target: code, data, the stack or an external name.
    pub fn emit_fixed(
        &mut self,
        form: WordForm,
        target: Target,
        offset: u16,
    ) -> Result<(), AllocError>
        requires target { IsTrue (may_be_target target) }
        ensures ok { OnOk result (self.new ≡ record self.old {
          items = self.old.items ++ WithWord form (AtTarget target offset) ∷ [];
        }) }
        ensures bound { OnOk result (BindsSame self.old.items self.new.items) }
        ensures err { OnErr result (self.new ≡ self.old) }
    {
        store(
            &mut self.items,
            Item::WithWord(form, Reference::AtTarget(target, offset)),
        )?;
        Ok(())
    }

    /// Adds an instruction whose word is a number.
    pub fn emit_number(&mut self, form: WordForm, number: u16) -> Result<(), AllocError>
        ensures ok { OnOk result (self.new
            ≡ record self.old { items = self.old.items ++ WithWord form (AtNumber number) ∷ [] }) }
        ensures bound { OnOk result (BindsSame self.old.items self.new.items) }
        ensures err { OnErr result (self.new ≡ self.old) }
    {
        store(
            &mut self.items,
            Item::WithWord(form, Reference::AtNumber(number)),
        )?;
        Ok(())
    }

    /// Adds a byte of data.
    pub fn emit_byte(&mut self, value: u8) -> Result<(), AllocError>
        ensures ok { OnOk result (self.new
            ≡ record self.old { items = self.old.items ++ Byte value ∷ [] }) }
        ensures bound { OnOk result (BindsSame self.old.items self.new.items) }
        ensures err { OnErr result (self.new ≡ self.old) }
    {
        store(&mut self.items, Item::Byte(value))?;
        Ok(())
    }

    /// Adds a word of data that counts from a target: code, data, the stack or an external name.
    pub fn emit_address(&mut self, target: Target, offset: u16) -> Result<(), AllocError>
        requires target { IsTrue (may_be_target target) }
        ensures ok { OnOk result (self.new ≡ record self.old {
          items = self.old.items ++ Address (AtTarget target offset) ∷ [];
        }) }
        ensures bound { OnOk result (BindsSame self.old.items self.new.items) }
        ensures err { OnErr result (self.new ≡ self.old) }
    {
        store(
            &mut self.items,
            Item::Address(Reference::AtTarget(target, offset)),
        )?;
        Ok(())
    }

    /// Adds a word of data that is the place of a label of this code.
    pub fn emit_place(&mut self, label: Label) -> Result<(), AllocError>
        requires known { label < self.old.labels }
        ensures ok { OnOk result (self.new
            ≡ record self.old { items = self.old.items ++ Address (AtLabel label) ∷ [] }) }
        ensures bound { OnOk result (BindsSame self.old.items self.new.items) }
        ensures err { OnErr result (self.new ≡ self.old) }
    {
        store(
            &mut self.items,
            Item::Address(Reference::AtLabel(label.number)),
        )?;
        Ok(())
    }

    /// Adds `count` bytes that stay unset.
    pub fn leave(&mut self, count: u16) -> Result<(), AllocError>
        ensures ok { OnOk result (self.new
            ≡ record self.old { items = self.old.items ++ Gap count ∷ [] }) }
        ensures bound { OnOk result (BindsSame self.old.items self.new.items) }
        ensures err { OnErr result (self.new ≡ self.old) }
    {
        store(&mut self.items, Item::Gap(count))?;
        Ok(())
    }

    /// How many items there are.
    pub fn item_count(&self) -> usize
        ensures { result ≡ length self.now.items }
    {
        self.items.len()
    }

    /// How many bytes the items from one on take.
    pub fn size_from(&self, first: usize) -> u128
        ensures { result ≡ size_of_items (drop first self.now.items) }
    {
        match self.items.as_slice().get(first..) {
            Some(items) => items_size(items),
            None => 0,
        }
    }

    /// How many labels there are. Their numbers are those below, and no label is bound but these, each once.
    pub fn label_count(&self) -> usize
        ensures count { result ≡ self.now.labels }
        ensures valid { IsAssembly self.now }
    {
        self.labels as usize
    }

    /// A label that is not bound yet. Fails if there are as many as 32 bits count.
    pub fn label(&mut self) -> Result<Label, AllocError>
        ensures ok { IfOk result (λ label. label ≡ self.old.labels) }
        ensures unbound { IfOk result (λ label. is_bound label self.old.items ≡ false) }
        ensures valid { IsAssembly self.old }
        ensures more { OnOk result (self.new ≡ record self.old { labels = self.old.labels + 1 }) }
        ensures err { OnErr result (self.new ≡ self.old) }
        ensures full { OnErr result (self.old.labels + 1 ≡ 2 ^ 32) }
    {
        let Some(labels) = self.labels.checked_add(1) else {
            // The last number of 32 bits is in use.
            return Err(AllocError);
        };
        let label = Label {
            number: self.labels,
        };
        self.labels = labels;
        Ok(label)
    }

    /// The label with this number, if there is one.
    pub fn known(&self, number: usize) -> Option<Label>
        ensures known { IfSome result (λ label. label < self.now.labels) }
        ensures same { IfSome result (λ label. label ≡ number) }
    {
        match u32::try_from(number) {
            Ok(number) if number < self.labels => Some(Label { number }),
            _ => None,
        }
    }

    /// Whether a label has its place. Looks at each item.
    pub fn is_bound(&self, label: Label) -> bool
        ensures { result ≡ is_bound label self.now.items }
    {
        self.items.iter().any(
            |stored| matches!(stored.item(), Item::Mark(number) if number == label.number),
        )
    }

    /// Gives a label of this code its place here. No label is bound twice.
    pub fn bind(&mut self, label: Label) -> Result<(), AllocError>
        requires known { label < self.old.labels }
        requires once { is_bound label self.old.items ≡ false }
        ensures ok { OnOk result (self.new
            ≡ record self.old { items = self.old.items ++ Mark label ∷ [] }) }
        ensures others { OnOk result (BindsSameBut label self.old.items self.new.items) }
        ensures err { OnErr result (self.new ≡ self.old) }
    {
        store(&mut self.items, Item::Mark(label.number))?;
        Ok(())
    }

    /// Adds an instruction whose word is the place of a label of this code: a jump, a call or any other.
    pub fn jump(&mut self, form: WordForm, label: Label) -> Result<(), AllocError>
        requires known { label < self.old.labels }
        ensures ok { OnOk result (self.new ≡ record self.old {
          items = self.old.items ++ WithWord form (AtLabel label) ∷ [];
        }) }
        ensures bound { OnOk result (BindsSame self.old.items self.new.items) }
        ensures err { OnErr result (self.new ≡ self.old) }
    {
        store(
            &mut self.items,
            Item::WithWord(form, Reference::AtLabel(label.number)),
        )?;
        Ok(())
    }

    /// The code as bytes and fixes of a code segment. Only where each label is bound and the code has no more
    /// bytes than a segment.
    pub fn finish(self) -> Result<CodeBytes, Failure<Fault>>
        ensures done { IfOk result (λ code. IsFinished self (Ok code)) }
        ensures fault { IfFault result (λ fault. IsFinished self (Err fault)) }
    {
        let alloc = *self.items.allocator();
        let items = self.items.as_slice();
        let (table, size) = label_places(alloc, items, self.labels as usize)?;
        let places = table.as_slice();
        if !all_placed(places) {
            return Err(Failure::Fault(Fault::UnboundLabel));
        }
        if size > SEGMENT_LIMIT as u128 {
            return Err(Failure::Fault(Fault::TooLong));
        }
        let code = assemble(alloc, items, places, size as usize)?;
        Ok(CodeBytes::with_places(code, table))
    }
}
