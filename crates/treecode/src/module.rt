//! Modules of tree code.

ghost use Rattle.std.specs.Prelude.{◌≡◌, IfOk};
ghost use Rattle.treecode.specs.internal.ExpressionWords.{ExpressionsAreWords};
ghost use Rattle.treecode.specs.internal.HomeWords.{HomesAreWords};

use crate::expression::{Expression, ExpressionForm, ExpressionNumber};
use crate::lists::{Range, entry};
use crate::place::{Home, Place};
use crate::procedure::TreeProcedure;
use crate::reference::Target;
use crate::statement::{Statement, StatementNumber};
use crate::stored::StoredExpression;
use crate::traits::{Traits, traits_of};
use std::alloc::AllocError;
use trees::{Name, ScalarType};

/// A piece of a segment. The pieces follow each other from its start on.
#[derive(Clone, Copy)]
pub enum Content {
    /// A byte.
    Byte(u8),
    /// Two bytes, the low one first.
    Word(Place),
    /// This number of unset bytes.
    Gap(u16),
}

/// A name that this module declares EXTERNAL.
#[derive(Clone, Copy)]
pub struct ExternalName {
    pub name: Name,
}

/// The item that a PUBLIC name refers to.
#[derive(Clone, Copy)]
pub enum PublicPlace {
    Object(Place),
    /// A procedure, by its number in the module.
    Procedure(u32),
}

/// A name that other modules may use.
#[derive(Clone, Copy)]
pub struct PublicName {
    pub name: Name,
    pub place: PublicPlace,
}

/// A module of tree code. Its tables hold what its numbers refer to, and the numbers in it have 16 bits.
pub struct TreeModule {
    pub name: Name,
    /// Where each object begins, by its number.
    pub homes: Vec<Home>,
    pub(crate) expressions: Vec<StoredExpression>,
    pub statements: Vec<Statement>,
    pub arguments: Vec<ExpressionNumber>,
    pub targets: Vec<Target>,
    pub lists: Vec<StatementNumber>,
    /// The procedures, by their numbers.
    pub procedures: Vec<TreeProcedure>,
    /// The statements at the outer level.
    pub main: TreeProcedure,
    /// The contents at the start of the code segment: the objects with DATA and the constant lists, in the order of the
    /// text.
    pub constants: Vec<Content>,
    /// The data segment: the objects without AT and DATA, in the order of their declarations.
    pub variables: Vec<Content>,
    /// The PUBLIC names, in the order of the text.
    pub publics: Vec<PublicName>,
    /// The EXTERNAL names, in the order of the text.
    pub externals: Vec<ExternalName>,
    pub ghost homes_are_words: { HomesAreWords homes.items },
    pub ghost numbers_are_words: { ExpressionsAreWords expressions.items },
}

impl TreeModule {
    ghost use Rattle.std.specs.Prelude.{◌≡◌, [], ◌∷◌, ◌++◌, length, slice_get, IfOk, OnOk};
    ghost use Rattle.treecode.specs.internal.Nodes.{home_at, item_of, nodes_of};
    ghost use Rattle.treecode.specs.internal.Queries.{low_byte_at};
    ghost use Rattle.treecode.specs.internal.Traits.{expression_of, number_at, traits_at};

    /// The home of an object; the address 0 if there is no object with this number.
    pub fn home(&self, object: u32) -> Home
        ensures { result ≡ home_at (nodes_of self.now).homes object }
    {
        match self.homes.get(object as usize) {
            Some(home) => *home,
            None => Home::Static(Place::Number(0)),
        }
    }

    /// The expression with this number, if any.
    pub fn expression(&self, number: ExpressionNumber) -> Option<Expression>
        ensures { result ≡ slice_get (nodes_of self.now).expressions number.index }
    {
        match self.expressions.get(number.index as usize) {
            Some(stored) => Some(stored.expression()),
            None => None,
        }
    }

    /// The operand of a conversion, or of a function that takes its low byte, which has the same low byte; else the
    /// expression itself.
    pub fn same_low_byte(&self, number: ExpressionNumber) -> ExpressionNumber
        ensures { result ≡ low_byte_at self.now number }
    {
        match self.expressions.get(number.index as usize) {
            Some(stored) => stored.same_low_byte(number),
            None => number,
        }
    }

    /// The statement with this number, if any.
    pub fn statement(&self, number: StatementNumber) -> Option<Statement>
        ensures { result ≡ slice_get (nodes_of self.now).statements number.index }
    {
        self.statements.get(number.index as usize).copied()
    }

    /// An argument of a call, counted from 0.
    pub fn argument(&self, arguments: Range, index: u32) -> Option<ExpressionNumber>
        ensures { result ≡ item_of (nodes_of self.now).arguments arguments index }
    {
        match entry(arguments, index) {
            Some(entry) => self.arguments.get(entry).copied(),
            None => None,
        }
    }

    /// A target of an assignment, counted from 0.
    pub fn target(&self, targets: Range, index: u32) -> Option<Target>
        ensures { result ≡ item_of (nodes_of self.now).targets targets index }
    {
        match entry(targets, index) {
            Some(entry) => self.targets.get(entry).copied(),
            None => None,
        }
    }

    /// A statement of a list, counted from 0.
    pub fn item(&self, list: Range, index: u32) -> Option<StatementNumber>
        ensures { result ≡ item_of (nodes_of self.now).lists list index }
    {
        match entry(list, index) {
            Some(entry) => self.lists.get(entry).copied(),
            None => None,
        }
    }

    /// The traits of an expression; those of an unknown one if there is none with this number. Reading them is faster
    /// than reading the expression.
    pub fn traits(&self, number: ExpressionNumber) -> Traits
        ensures { result ≡ traits_at (nodes_of self.now) number }
    {
        match self.expressions.get(number.index as usize) {
            Some(stored) => stored.traits(),
            None => Traits::none(),
        }
    }

    /// The value of an expression, if it is known as a number.
    pub(crate) fn number(&self, number: ExpressionNumber) -> Option<u16>
        ensures { result ≡ number_at (nodes_of self.now) number }
    {
        match self.traits(number).known {
            Some(place) => place.number(),
            None => None,
        }
    }

    /// Adds the home of the next object.
    #[tactic(auto, using(crate::proofs::HomeWords::one_home_more))]
    pub(crate) fn add_home(&mut self, home: Home) -> Result<(), AllocError>
        ensures kept { self.new ≡ record self.old {
          homes = self.new.homes;
          homes_are_words = self.new.homes_are_words;
        } }
        ensures ok { OnOk result ((nodes_of self.new).homes ≡ (nodes_of self.old).homes ++ (home ∷ [])) }
    {
        self.homes.push(home)?;
        Ok(())
    }

    /// Adds an expression of a type, after its parts.
    pub(crate) fn add_expression(
        &mut self,
        scalar: ScalarType,
        form: ExpressionForm,
    ) -> Result<ExpressionNumber, AllocError>
        ensures kept { self.new ≡ record self.old {
          expressions = self.new.expressions;
          numbers_are_words = self.new.numbers_are_words;
        } }
        ensures ok { IfOk result (λ number. (number.index ≡ length (nodes_of self.old).expressions)
            × ((nodes_of self.new).expressions ≡ (nodes_of self.old).expressions
            ++ (expression_of (nodes_of self.old) scalar form ∷ []))) }
    {
        let index = next_index(self.expressions.len())?;
        let traits = traits_of(self, scalar, &form);
        self.expressions
            .push(StoredExpression::of(Expression { form, traits }))?;
        Ok(ExpressionNumber { index })
    }

    /// Adds a statement, after its parts.
    pub(crate) fn add_statement(
        &mut self,
        statement: Statement,
    ) -> Result<StatementNumber, AllocError>
        ensures kept { self.new ≡ record self.old { statements = self.new.statements } }
        ensures ok { IfOk result (λ number. (number.index ≡ length (nodes_of self.old).statements)
            × ((nodes_of self.new).statements ≡ (nodes_of self.old).statements ++ (statement ∷ []))) }
    {
        let index = next_index(self.statements.len())?;
        self.statements.push(statement)?;
        Ok(StatementNumber { index })
    }

    /// Adds arguments in a row.
    pub(crate) fn add_arguments(
        &mut self,
        arguments: &[ExpressionNumber],
    ) -> Result<Range, AllocError>
        ensures kept { self.new ≡ record self.old { arguments = self.new.arguments } }
        ensures ok { IfOk result (λ range. (range.first ≡ length (nodes_of self.old).arguments)
            × (range.count ≡ length arguments.now)
            × ((nodes_of self.new).arguments ≡ (nodes_of self.old).arguments ++ arguments.now)) }
    {
        let first = next_index(self.arguments.len())?;
        let count = next_index(arguments.len())?;
        self.arguments.extend_from_slice(arguments)?;
        Ok(Range { first, count })
    }

    /// Adds targets in a row.
    pub(crate) fn add_targets(&mut self, targets: &[Target]) -> Result<Range, AllocError>
        ensures kept { self.new ≡ record self.old { targets = self.new.targets } }
        ensures ok { IfOk result (λ range. (range.first ≡ length (nodes_of self.old).targets)
            × (range.count ≡ length targets.now)
            × ((nodes_of self.new).targets ≡ (nodes_of self.old).targets ++ targets.now)) }
    {
        let first = next_index(self.targets.len())?;
        let count = next_index(targets.len())?;
        self.targets.extend_from_slice(targets)?;
        Ok(Range { first, count })
    }

    /// Adds a list of statements in a row.
    pub(crate) fn add_list(&mut self, list: &[StatementNumber]) -> Result<Range, AllocError>
        ensures kept { self.new ≡ record self.old { lists = self.new.lists } }
        ensures ok { IfOk result (λ range. (range.first ≡ length (nodes_of self.old).lists)
            × (range.count ≡ length list.now)
            × ((nodes_of self.new).lists ≡ (nodes_of self.old).lists ++ list.now)) }
    {
        let first = next_index(self.lists.len())?;
        let count = next_index(list.len())?;
        self.lists.extend_from_slice(list)?;
        Ok(Range { first, count })
    }
}

/// The index after `count` entries. A table of more than 4,294,967,295 entries is out of memory.
pub(crate) fn next_index(count: usize) -> Result<u32, AllocError>
    ensures { IfOk result (λ index. index ≡ count) }
{
    match u32::try_from(count) {
        Ok(index) => Ok(index),
        // The table has more entries than 32 bits count.
        Err(_) => Err(AllocError),
    }
}

// Written out so that the fields are dropped in one place, which other crates call.
impl Drop for TreeModule {
    fn drop(self) {
        let TreeModule {
            name: _,
            homes: _,
            expressions: _,
            statements: _,
            arguments: _,
            targets: _,
            lists: _,
            procedures: _,
            main: _,
            constants: _,
            variables: _,
            publics: _,
            externals: _,
        } = self;
    }
}
