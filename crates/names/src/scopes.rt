//! What names stand for at a place of a text.

ghost use Rattle.std.specs.Prelude.{◌≡◌, ◌||◌, true, false, [], ◌∷◌, drop, reverse, length, OnOk, IfOk};
ghost use Rattle.std.specs.Map.{lookup};
ghost use Rattle.std.specs.Str.{bytes_eq};
ghost use Rattle.indexmap.specs.IndexSet.{insert_key};
ghost use Rattle.failure.specs.declared.Failure.TheVariants as failures;
ghost use Rattle.failure.specs.Failure.{IfFault};
ghost use Rattle.trees.specs.internal.Views.{statement_trees};
ghost use Rattle.names.specs.BuiltIns.{binding_of, built_in_of, jump_of};
ghost use Rattle.names.specs.internal.Declaring.{Declares};
ghost use Rattle.names.specs.DeclaredNames.{labels_of};
ghost use Rattle.names.specs.internal.Numbering.{AreNumbered};
ghost use Rattle.names.specs.Environment.{empty_body, at_the_start, body_after_block, body_with_name, is_declared_in, known_in, label_of, declared_in, declared_around, entity_of, is_among, is_declared_again, is_label_again, is_parameter_again, into_block, out_of_block, into_body, out_of_body, into_list, out_of_list, numbered_from, with_object, with_procedure, with_definition, with_parameter, with_label};

use crate::entity::{Binding, BuiltIn, Entity};
use crate::fault::Fault;
use crate::table::Names;
use failure::Failure;
use std::alloc::Global;
use std::marker::Model;
use std::mem;
use symbols::NameSet;
use trees::{Identifier, Name, Statement, UnaryFunction, next_number};

// What a name stands for in the last of these tables that has it.
fn find(tables: &[Names], name: Name) -> Option<Entity>
    ensures { result ≡ known_in (reverse tables.now) name }
{
    let mut rest = tables;
    while let Some((last, others)) = rest.split_last() {
        if let Some(entity) = last.get(name) {
            return Some(entity);
        }
        rest = others;
    }
    None
}

// What a text has declared so far in one body.
struct BodyNames {
    block: Names,
    outer_blocks: Vec<Names>,
    lists: Vec<Names>,
    declared: NameSet,
    labelled: NameSet,
}

impl Model for BodyNames {
    ghost use Rattle.std.specs.Prelude.{reverse};
    ghost use Rattle.names.specs.Environment.{Body};

    ghost Value = { Body };

    ghost view = { λ body. record {
      block = body.block;
      outer_blocks = reverse body.outer_blocks.items;
      lists = reverse body.lists.items;
      declared = body.declared;
      labelled = body.labelled;
    } };
}

impl BodyNames {
    // A body in which nothing is declared yet.
    fn new(alloc: Global) -> BodyNames
        ensures { result ≡ empty_body }
    {
        BodyNames {
            block: Names::new(alloc),
            outer_blocks: Vec::new(alloc),
            lists: Vec::new(alloc),
            declared: NameSet::new(alloc),
            labelled: NameSet::new(alloc),
        }
    }

    // Into a simple DO.
    fn open_block(&mut self, alloc: Global) -> Result<(), Failure<Fault>>
        ensures ok { OnOk result
            (self.new ≡ record self.old {
              block = [];
              outer_blocks = self.old.block ∷
                  self.old.outer_blocks;
            }) }
        ensures err { IfFault result (λ _. ⊥) }
    {
        let outer = mem::replace(&mut self.block, Names::new(alloc));
        self.outer_blocks.push(outer)?;
        Ok(())
    }

    // Out of a simple DO.
    fn close_block(&mut self)
        ensures { self.new ≡ body_after_block self.old.outer_blocks self.old }
    {
        if let Some(block) = self.outer_blocks.pop() {
            self.block = block;
        }
    }

    // Into a list of statements with these labels.
    fn open_list(&mut self, labels: Names) -> Result<(), Failure<Fault>>
        ensures ok { OnOk result (self.new ≡ record self.old { lists = labels ∷ self.old.lists }) }
        ensures err { IfFault result (λ _. ⊥) }
    {
        self.lists.push(labels)?;
        Ok(())
    }

    // Out of a list of statements.
    fn close_list(&mut self)
        ensures { self.new ≡ record self.old { lists = drop 1 self.old.lists } }
    {
        let _labels = self.lists.pop();
    }

    // The label of a name.
    fn label(&self, name: Name) -> Option<Entity>
        ensures { result ≡ known_in self.now.lists name }
    {
        find(self.lists.as_slice(), name)
    }

    // What the blocks of the body declare a name to be.
    fn declared(&self, name: Name) -> Option<Entity>
        ensures { result ≡ declared_in self.now name }
    {
        match self.block.get(name) {
            Some(entity) => Some(entity),
            None => find(self.outer_blocks.as_slice(), name),
        }
    }

    // A name of the innermost block.
    fn declare(&mut self, name: Identifier, entity: Entity) -> Result<(), Failure<Fault>>
        ensures { Declares result name (is_declared_in self.old name.name)
            self.new (body_with_name name.name entity self.old) }
    {
        if self.block.get(name.name).is_some() || self.labelled.contains(name.name) {
            return Err(declared_twice(name));
        }
        self.block.insert(name.name, entity)?;
        self.declared.insert(name.name)?;
        Ok(())
    }

    // A parameter in the heading of the body's procedure.
    fn declare_parameter(&mut self, name: Identifier) -> Result<(), Failure<Fault>>
        ensures { Declares result name (is_among self.old.declared name.name) self.new
            (record self.old { declared = insert_key bytes_eq self.old.declared name.name }) }
    {
        if self.declared.contains(name.name) {
            return Err(declared_twice(name));
        }
        self.declared.insert(name.name)?;
        Ok(())
    }

    // A label before a statement of the body.
    fn declare_label(&mut self, name: Identifier) -> Result<(), Failure<Fault>>
        ensures { Declares result name
            (is_among self.old.declared name.name || is_among self.old.labelled name.name) self.new
            (record self.old { labelled = insert_key bytes_eq self.old.labelled name.name }) }
    {
        if self.declared.contains(name.name) || self.labelled.contains(name.name) {
            return Err(declared_twice(name));
        }
        self.labelled.insert(name.name)?;
        Ok(())
    }
}

// Written out, so that each place that frees a body's names calls this.
impl Drop for BodyNames {
    fn drop(self) {
        let BodyNames {
            block: _,
            outer_blocks: _,
            lists: _,
            declared: _,
            labelled: _,
        } = self;
    }
}

// The refusal of a name that may not be declared again.
fn declared_twice(name: Identifier) -> Failure<Fault>
    ensures { result ≡ failures.Fault (Fault.DeclaredTwice name.place) }
{
    Failure::Fault(Fault::DeclaredTwice { place: name.place })
}

// Numbers the labels before a statement, and gives the number after them.
fn number_labels(
    labels: &[Identifier],
    first: u32,
    names: &mut Names,
) -> Result<u32, Failure<Fault>>
    ensures ok { IfOk result (λ next. AreNumbered first labels.now names.old next names.new) }
    ensures err { IfFault result (λ _. ⊥) }
{
    let mut number = first;
    for label in labels {
        let next = next_number(number)?;
        names.insert(label.name, Entity::Label(number))?;
        number = next;
    }
    Ok(number)
}

// Numbers the labels of the statements of a list, and gives the number after them.
fn number_statements(
    statements: &[Statement],
    first: u32,
    names: &mut Names,
) -> Result<u32, Failure<Fault>>
    ensures ok { IfOk result
        (λ next. AreNumbered first (labels_of (statement_trees statements.now)) names.old next names.new) }
    ensures err { IfFault result (λ _. ⊥) }
{
    let mut number = first;
    for statement in statements {
        number = number_labels(statement.labels.as_slice(), number, names)?;
    }
    Ok(number)
}

// What the bodies in a list declare a name to be, the last of them first.
fn find_around(bodies: &[BodyNames], name: Name) -> Option<Entity>
    ensures { result ≡ declared_around (reverse bodies.now) name }
{
    let mut rest = bodies;
    while let Some((last, others)) = rest.split_last() {
        if let Some(entity) = last.declared(name) {
            return Some(entity);
        }
        rest = others;
    }
    None
}

// The built-in procedure of a name.
#[tactic(auto, unfolding(crate::specs::BuiltIns::built_in_of))]
fn built_in(name: &[u8]) -> Option<BuiltIn>
    ensures { result ≡ built_in_of name.now }
{
    match name {
        b"INPUT" => Some(BuiltIn::Input),
        b"OUTPUT" => Some(BuiltIn::Output),
        b"LOW" => Some(BuiltIn::Unary(UnaryFunction::Low)),
        b"HIGH" => Some(BuiltIn::Unary(UnaryFunction::High)),
        b"DOUBLE" => Some(BuiltIn::Unary(UnaryFunction::Double)),
        b"LENGTH" => Some(BuiltIn::Length),
        b"LAST" => Some(BuiltIn::Last),
        b"SIZE" => Some(BuiltIn::Size),
        b"SHL" => Some(BuiltIn::ShiftLeft),
        b"SHR" => Some(BuiltIn::ShiftRight),
        b"ROL" => Some(BuiltIn::RotateLeft),
        b"ROR" => Some(BuiltIn::RotateRight),
        b"MOVE" => Some(BuiltIn::Move),
        _ => None,
    }
}

/// What names stand for at a place of a module. The caller goes through the text from the start. It opens each simple DO,
/// each body of a procedure and each list of statements where it begins, closes it where it ends, and declares each name
/// at its place. After a call that is refused, the scopes can only be dropped.
pub struct Scopes {
    alloc: Global,
    body: BodyNames,
    outer_bodies: Vec<BodyNames>,
    objects: u32,
    procedures: u32,
    labels: u32,
}

impl Model for Scopes {
    ghost use Rattle.std.specs.Prelude.{reverse};
    ghost use Rattle.names.specs.Environment.{Here};

    ghost Value = { Here };

    ghost view = { λ scopes. record {
      body = scopes.body;
      outer_bodies = reverse scopes.outer_bodies.items;
      objects = scopes.objects;
      procedures = scopes.procedures;
      labels = scopes.labels;
    } };
}

impl Scopes {
    /// The scopes at the start of a module.
    pub fn new(alloc: Global) -> Scopes
        ensures { result ≡ at_the_start }
    {
        Scopes {
            alloc,
            body: BodyNames::new(alloc),
            outer_bodies: Vec::new(alloc),
            objects: 0,
            procedures: 0,
            labels: 0,
        }
    }

    /// Goes into a simple DO.
    pub fn open_block(&mut self) -> Result<(), Failure<Fault>>
        ensures ok { OnOk result (self.new ≡ into_block self.old) }
        ensures err { IfFault result (λ _. ⊥) }
    {
        self.body.open_block(self.alloc)
    }

    /// Goes out of a simple DO.
    pub fn close_block(&mut self)
        ensures { self.new ≡ out_of_block self.old }
    {
        self.body.close_block();
    }

    /// Goes into the body of a procedure, once its name is declared.
    pub fn open_body(&mut self) -> Result<(), Failure<Fault>>
        ensures ok { OnOk result (self.new ≡ into_body self.old) }
        ensures err { IfFault result (λ _. ⊥) }
    {
        let outer = mem::replace(&mut self.body, BodyNames::new(self.alloc));
        self.outer_bodies.push(outer)?;
        Ok(())
    }

    /// Goes out of the body of a procedure.
    pub fn close_body(&mut self)
        ensures { self.new ≡ out_of_body self.old }
    {
        if let Some(body) = self.outer_bodies.pop() {
            self.body = body;
        }
    }

    /// Goes into a list of statements, with its labels known in the whole of it. They get the next numbers.
    pub fn open_list(&mut self, statements: &[Statement]) -> Result<(), Failure<Fault>>
        ensures ok { OnOk result
            (self.new ≡ into_list (labels_of (statement_trees statements.now)) self.old) }
        ensures err { IfFault result (λ _. ⊥) }
    {
        let mut names = Names::new(self.alloc);
        let next = number_statements(statements, self.labels, &mut names)?;
        self.body.open_list(names)?;
        self.labels = next;
        Ok(())
    }

    /// Goes out of a list of statements.
    pub fn close_list(&mut self)
        ensures { self.new ≡ out_of_list self.old }
    {
        self.body.close_list();
    }

    /// Declares a variable or a parameter, which gets the next number of an object.
    pub fn declare_object(&mut self, name: Identifier) -> Result<(), Failure<Fault>>
        ensures { Declares result name (is_declared_again self.old name.name)
            self.new (with_object name.name self.old) }
    {
        let number = self.objects;
        self.body.declare(name, Entity::Object(number))?;
        self.objects = next_number(number)?;
        Ok(())
    }

    /// Declares a procedure, which gets the next number of one.
    pub fn declare_procedure(&mut self, name: Identifier) -> Result<(), Failure<Fault>>
        ensures { Declares result name (is_declared_again self.old name.name)
            self.new (with_procedure name.name self.old) }
    {
        let number = self.procedures;
        self.body.declare(name, Entity::Procedure(number))?;
        self.procedures = next_number(number)?;
        Ok(())
    }

    /// Declares the name of a LITERALLY definition.
    pub fn declare_definition(&mut self, name: Identifier) -> Result<(), Failure<Fault>>
        ensures { Declares result name (is_declared_again self.old name.name)
            self.new (with_definition name.name self.old) }
    {
        self.body.declare(name, Entity::Definition)
    }

    /// Takes in a parameter from the heading of the procedure whose body the place is in. It is known once a DECLARE has
    /// declared it as an object.
    pub fn declare_parameter(&mut self, name: Identifier) -> Result<(), Failure<Fault>>
        ensures { Declares result name (is_parameter_again self.old name.name)
            self.new (with_parameter name.name self.old) }
    {
        self.body.declare_parameter(name)
    }

    /// Takes in a label before a statement of the list that the place is in.
    pub fn declare_label(&mut self, name: Identifier) -> Result<(), Failure<Fault>>
        ensures { Declares result name (is_label_again self.old name.name)
            self.new (with_label name.name self.old) }
    {
        self.body.declare_label(name)
    }

    /// What a name is bound to, if it is known: a declaration, or else a built-in procedure.
    pub fn binding(&self, name: Name) -> Option<Binding>
        ensures { result ≡ binding_of self.now name }
    {
        match self.entity(name) {
            Some(entity) => Some(Binding::Declared(entity)),
            None => match built_in(name.as_slice()) {
                Some(procedure) => Some(Binding::BuiltInName(procedure)),
                None => None,
            },
        }
    }

    // What a name stands for, if a declaration of it is known.
    fn entity(&self, name: Name) -> Option<Entity>
        ensures { result ≡ entity_of self.now name }
    {
        if let Some(entity) = self.body.declared(name) {
            return Some(entity);
        }
        if let Some(label) = self.body.label(name) {
            return Some(label);
        }
        find_around(self.outer_bodies.as_slice(), name)
    }

    /// What the innermost block around the place declares a name to be.
    pub fn declared_here(&self, name: Name) -> Option<Entity>
        ensures { result ≡ lookup (bytes_eq name) (self.now).body.block }
    {
        self.body.block.get(name)
    }

    /// The number of the next label.
    pub fn next_label(&self) -> u32
        ensures { result ≡ (self.now).labels }
    {
        self.labels
    }

    /// What the name after GOTO is bound to.
    pub fn jump(&self, name: Name) -> Binding
        ensures { result ≡ jump_of self.now name }
    {
        match self.body.label(name) {
            Some(label) => Binding::Declared(label),
            None => Binding::UnknownLabel,
        }
    }
}

// Written out, so that they are freed here, and each crate that frees scopes calls this.
impl Drop for Scopes {
    fn drop(self) {
        let Scopes {
            alloc: _,
            body: _,
            outer_bodies: _,
            objects: _,
            procedures: _,
            labels: _,
        } = self;
    }
}
