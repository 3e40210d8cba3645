//! Statements.

ghost use Rattle.std.specs.Prelude.{◌≡◌, ◌<◌, ◌≤◌, true, not, [], ◌∷◌, map, length, OnOk, IfOk, IfErr, Some, None};
ghost use Rattle.std.specs.Option.{option_map};
ghost use Rattle.words.specs.Spelling.{lexeme_of};
ghost use Rattle.grammar.specs.declared.TheConstants.{NESTING_LIMIT};
ghost use Rattle.grammar.specs.Forms.{expression_level};
ghost use Rattle.grammar.specs.Symbols.{symbol_of};
ghost use Rattle.trees.specs.internal.Views.{expression_tree, reference_tree, argument_trees, statement_tree, kind_tree, else_tree, statement_trees, declaration_tree, declaration_trees, iteration_tree, head_tree};
ghost use Rattle.syntax.specs.internal.Expressions.{expression, reference, arguments};
ghost use Rattle.syntax.specs.internal.Results.{cause_of, Gives, Leaves};
ghost use Rattle.syntax.specs.internal.Inside.{block_in, block_trees, condition, value, is_name_symbol, kind_inside, next_beginning};
ghost use Rattle.syntax.specs.internal.Lists.{all_more_items};
ghost use Rattle.syntax.specs.internal.Reader.{Unexpected, next_name};
ghost use Rattle.syntax.specs.internal.Statements.{at_semicolon, beginning_at, next_label, labels_before, after_labels, begins_procedure, ends_declarations, end_of_do, end_name, ending, assignment, call, return_value, halt, goto, otherwise, conditional, step, iteration, loop_head, body_of_do, do_statement, simple_do, case_do, loop_do, statements, declarations, procedure, declare, statement, declaration};

use crate::fault::Fault;
use crate::measured::EXPRESSION_LEVEL;
use crate::reader::{Reader, or_memory, place_of};
use failure::Failure;
use std::marker::Model;
use trees::{
    Block, Declaration, Element, Expression, Identifier, Iteration, LoopHead, Name, Place,
    Reference, Selector, Statement, StatementKind,
};
use words::{Kind, Mark, ReservedWord, Word};

// What a statement begins with, by its first word.
#[derive(Clone, Copy)]
pub(crate) enum Beginning {
    Semicolon(Place),
    Name,
    Call(Place),
    Return(Place),
    Halt(Place),
    Goto(Place),
    If(Place),
    Do(Place),
    // No statement begins so.
    Other,
}

// What a statement begins with at a reserved word.
fn beginning_at(word: ReservedWord, place: Place) -> Beginning
    ensures { result ≡ beginning_at word place }
{
    match word {
        ReservedWord::Call => Beginning::Call(place),
        ReservedWord::Return => Beginning::Return(place),
        ReservedWord::Halt => Beginning::Halt(place),
        ReservedWord::Goto => Beginning::Goto(place),
        ReservedWord::If => Beginning::If(place),
        ReservedWord::Do => Beginning::Do(place),
        _ => Beginning::Other,
    }
}

// Whether a word is a name.
fn is_name(word: &Word) -> bool
    ensures { is_name_symbol (symbol_of (lexeme_of word.now)) ≡ result }
{
    word.kind == Kind::Name && Name::from_text(word.text).is_some()
}

// What a statement begins with at a word. A word that is said to be a name and has other characters is found by
// whoever takes it.
#[tactic(auto, using(crate::proofs::StatementBeginnings::next_beginning_reserved, crate::proofs::StatementBeginnings::next_beginning_name))]
fn beginning_with(word: &Word) -> Beginning
    ensures { result ≡ next_beginning (symbol_of (lexeme_of word.now) ∷ []) }
{
    match word.kind {
        Kind::Name => Beginning::Name,
        Kind::Mark(Mark::Semicolon) => Beginning::Semicolon(place_of(word)),
        Kind::Reserved(reserved) => beginning_at(reserved, place_of(word)),
        _ => Beginning::Other,
    }
}

impl<'a> Reader<'a> {
    // What a statement begins with here.
    fn beginning(&self) -> Beginning
        ensures { result ≡ next_beginning self.now }
    {
        match self.words() {
            [word, ..] => beginning_with(word),
            [] => Beginning::Other,
        }
    }

    // Whether a procedure begins here: a name, a colon and PROCEDURE.
    fn begins_procedure(&self) -> bool
        ensures { result ≡ begins_procedure self.now }
    {
        match self.words() {
            [name, colon, word, ..] => {
                is_name(name)
                    && colon.kind == Kind::Mark(Mark::Colon)
                    && word.kind == Kind::Reserved(ReservedWord::Procedure)
            }
            _ => false,
        }
    }

    // Whether a declaration begins here.
    fn begins_declaration(&self) -> bool
        ensures { not result ≡ ends_declarations self.now }
    {
        self.at_word(ReservedWord::Declare) || self.begins_procedure()
    }

    // Whether a semicolon stands here.
    fn at_semicolon(&self) -> bool
        ensures { result ≡ at_semicolon self.now }
    {
        self.next_semicolon().is_some()
    }

    // END `;`
    fn take_end_of_do(&mut self) -> Result<(), Failure<Fault>>
        ensures { Leaves result self.new (end_of_do self.old) }
    {
        self.take_word(ReservedWord::End)?;
        self.take_semicolon()?;
        Ok(())
    }

    /// END [name] `;`, where what ends has a name of its own.
    #[tactic(auto, unfolding(crate::specs::internal::Statements::ending))]
    pub(crate) fn take_ending(
        &mut self,
        own: &Identifier,
    ) -> Result<Option<Identifier>, Failure<Fault>>
        ensures { Gives (λ found. found) result self.new (ending true own.now self.old) }
    {
        self.take_word(ReservedWord::End)?;
        let found = self.take_end_name(*own)?;
        Ok(found)
    }

    // [name] `;`, after END.
    fn take_end_name(&mut self, own: Identifier) -> Result<Option<Identifier>, Failure<Fault>>
        ensures { Gives (λ found. found) result self.new (end_name true own (next_name self.old) self.old) }
    {
        match self.next_name() {
            None => {
                self.take_semicolon()?;
                Ok(None)
            }
            Some(found) => {
                if found.name != own.name {
                    return Err(Failure::Fault(Fault::EndName { place: found.place }));
                }
                self.skip();
                self.take_semicolon()?;
                Ok(Some(found))
            }
        }
    }

    // expression
    fn take_expression(&mut self, room: u8) -> Result<Expression, Failure<Fault>>
        requires { room ≤ NESTING_LIMIT }
        ensures { Gives expression_tree result self.new (expression room expression_level self.old) }
    {
        let found = self.expression(EXPRESSION_LEVEL, room)?;
        Ok(found.expression)
    }

    // reference
    fn take_reference(&mut self, room: u8) -> Result<Reference, Failure<Fault>>
        requires { room ≤ NESTING_LIMIT }
        ensures { Gives reference_tree result self.new (reference (expression room) self.old) }
    {
        let found = self.reference(room)?;
        Ok(found.reference)
    }

    // [arguments]
    fn take_arguments(&mut self, room: u8) -> Result<Vec<Expression>, Failure<Fault>>
        requires { room ≤ NESTING_LIMIT }
        ensures { Gives (λ found. argument_trees found.items) result self.new
            (arguments (expression room) self.old) }
    {
        let found = self.arguments(room)?;
        Ok(found.items)
    }

    // reference {`,` reference} `=` expression `;`
    #[tactic(auto, unfolding(crate::specs::internal::Statements::assignment))]
    fn take_assignment(&mut self, room: u8) -> Result<StatementKind, Failure<Fault>>
        requires { room ≤ NESTING_LIMIT }
        ensures { Gives kind_tree result self.new (assignment (expression room) self.old) }
    {
        let first = self.take_reference(room)?;
        let others = self.take_more_targets(room)?;
        self.take_mark(Mark::EqualSign)?;
        let value = self.take_expression(room)?;
        self.take_semicolon()?;
        or_memory(StatementKind::assignment(self.alloc, first, others, value))
    }

    // {`,` reference}
    fn take_more_targets(&mut self, room: u8) -> Result<Vec<Reference>, Failure<Fault>>
        requires { room ≤ NESTING_LIMIT }
        ensures { Gives (λ found. map reference_tree found.items) result self.new
            (all_more_items (reference (expression room)) self.old) }
    {
        let mut targets = Vec::new(self.alloc);
        'more: while self.at_mark(Mark::Comma) {
            self.skip();
            let target = self.take_reference(room)?;
            targets.push(target)?;
        }
        targets.shrink_to_fit();
        Ok(targets)
    }

    // name [arguments] `;`, after CALL.
    #[tactic(auto, unfolding(crate::specs::internal::Statements::call))]
    fn take_call(&mut self, place: Place, room: u8) -> Result<StatementKind, Failure<Fault>>
        requires { room ≤ NESTING_LIMIT }
        ensures { Gives kind_tree result self.new (call (expression room) place self.old) }
    {
        let name = self.take_name()?;
        let arguments = self.take_arguments(room)?;
        self.take_semicolon()?;
        let procedure = Selector { name, arguments };
        or_memory(StatementKind::call(self.alloc, place, procedure))
    }

    // [expression] `;`, after RETURN.
    #[tactic(auto, using(crate::proofs::StatementValues::return_value_is))]
    fn take_return(&mut self, place: Place, room: u8) -> Result<StatementKind, Failure<Fault>>
        requires { room ≤ NESTING_LIMIT }
        ensures { Gives kind_tree result self.new (return_value (expression room) place self.old) }
    {
        let value = self.take_value(room)?;
        or_memory(StatementKind::return_value(self.alloc, place, value))
    }

    // [expression] `;`
    fn take_value(&mut self, room: u8) -> Result<Option<Expression>, Failure<Fault>>
        requires { room ≤ NESTING_LIMIT }
        ensures { Gives (λ found. option_map expression_tree found) result self.new
            (value (expression room) self.old) }
    {
        if self.at_semicolon() {
            self.skip();
            return Ok(None);
        }
        let value = self.take_condition(room)?;
        Ok(Some(value))
    }

    // `;`, after HALT.
    fn take_halt(&mut self, place: Place) -> Result<StatementKind, Failure<Fault>>
        ensures { Gives kind_tree result self.new (halt place self.old) }
    {
        self.take_semicolon()?;
        Ok(StatementKind::halt(place))
    }

    // name `;`, after GOTO.
    #[tactic(auto, unfolding(crate::specs::internal::Statements::goto))]
    fn take_goto(&mut self, place: Place) -> Result<StatementKind, Failure<Fault>>
        ensures { Gives kind_tree result self.new (goto place self.old) }
    {
        let label = self.take_name()?;
        self.take_semicolon()?;
        or_memory(StatementKind::goto(self.alloc, place, label))
    }

    // WHILE expression, or the head of an iterative DO.
    #[tactic(auto, unfolding(crate::specs::internal::Statements::loop_head))]
    fn take_loop_head(&mut self, room: u8) -> Result<LoopHead, Failure<Fault>>
        requires { room ≤ NESTING_LIMIT }
        ensures { Gives head_tree result self.new (loop_head (expression room) self.old) }
    {
        if self.at_word(ReservedWord::While) {
            self.skip();
            let condition = self.take_expression(room)?;
            return Ok(LoopHead::While(condition));
        }
        let iteration = self.take_iteration(room)?;
        Ok(LoopHead::Count(iteration))
    }

    // name `=` expression TO expression [BY expression]
    #[tactic(auto, unfolding(crate::specs::internal::Statements::iteration))]
    fn take_iteration(&mut self, room: u8) -> Result<Iteration, Failure<Fault>>
        requires { room ≤ NESTING_LIMIT }
        ensures { Gives iteration_tree result self.new (iteration (expression room) self.old) }
    {
        let variable = self.take_name()?;
        self.take_mark(Mark::EqualSign)?;
        let first = self.take_expression(room)?;
        self.take_word(ReservedWord::To)?;
        let last = self.take_expression(room)?;
        let step = self.take_step(room)?;
        Ok(Iteration {
            variable,
            first,
            last,
            step,
        })
    }

    // [BY expression]
    fn take_step(&mut self, room: u8) -> Result<Option<Expression>, Failure<Fault>>
        requires { room ≤ NESTING_LIMIT }
        ensures { Gives (λ found. option_map expression_tree found) result self.new
            (step (expression room) self.old) }
    {
        if !self.at_word(ReservedWord::By) {
            return Ok(None);
        }
        self.skip();
        let step = self.take_expression(room)?;
        Ok(Some(step))
    }

    // expression `;`
    fn take_condition(&mut self, room: u8) -> Result<Expression, Failure<Fault>>
        requires { room ≤ NESTING_LIMIT }
        ensures { Gives expression_tree result self.new (condition (expression room) self.old) }
    {
        let condition = self.take_expression(room)?;
        self.take_semicolon()?;
        Ok(condition)
    }

    // A word where a statement must begin or END must stand.
    fn expect_word(&self) -> Result<(), Failure<Fault>>
        ensures ok { OnOk result (0 < length self.now) }
        ensures err { IfErr result (λ fault. (cause_of fault ≡ Some Unexpected) × (self.now ≡ [])) }
    {
        if self.is_at_end() {
            return Err(self.unexpected());
        }
        Ok(())
    }

    // The label that stands here, if one does: a name before a colon.
    fn next_label(&self) -> Option<Identifier>
        ensures { result ≡ next_label self.now }
    {
        match self.words() {
            [_, colon, ..] if colon.kind == Kind::Mark(Mark::Colon) => self.next_name(),
            _ => None,
        }
    }

    // The labels before a statement.
    fn take_labels(&mut self) -> Result<Vec<Identifier>, Failure<Fault>>
        ensures ok { IfOk result (λ found. found.items ≡ labels_before self.old) }
        ensures left { IfOk result (λ found. self.new ≡ after_labels self.old) }
        ensures err { IfErr result (λ failure. cause_of failure ≡ None) }
    {
        let mut labels = Vec::new(self.alloc);
        'more: while let Some(label) = self.next_label() {
            self.skip();
            self.skip();
            labels.push(label)?;
        }
        labels.shrink_to_fit();
        Ok(labels)
    }

    /// A statement of no more levels than the room. Its labels take none.
    #[cycle(statement)]
    fn take_statement(&mut self, room: u8) -> Result<Statement, Failure<Fault>>
        requires { room ≤ NESTING_LIMIT }
        ensures { Gives statement_tree result self.new (statement true room self.old) }
    {
        if room == 0 {
            return Err(self.too_deep());
        }
        let labels = self.take_labels()?;
        let kind = self.take_kind(room - 1)?;
        Ok(Statement::new(labels, kind))
    }

    // A statement without labels whose parts fit into a room.
    #[cycle(statement)]
    fn take_kind(&mut self, room: u8) -> Result<StatementKind, Failure<Fault>>
        requires { room ≤ NESTING_LIMIT }
        ensures { Gives kind_tree result self.new (kind_inside room self.old) }
    {
        let beginning = self.beginning();
        if matches!(beginning, Beginning::Other) {
            return Err(self.unexpected());
        }
        if matches!(beginning, Beginning::Name) {
            return self.take_assignment(room);
        }
        self.skip();
        match beginning {
            Beginning::Call(place) => self.take_call(place, room),
            Beginning::Return(place) => self.take_return(place, room),
            Beginning::Halt(place) => self.take_halt(place),
            Beginning::Goto(place) => self.take_goto(place),
            Beginning::If(place) => self.take_if(place, room),
            Beginning::Do(place) => self.take_do(place, room),
            Beginning::Semicolon(place) => Ok(StatementKind::null(place)),
            Beginning::Name | Beginning::Other => Err(self.unexpected()),
        }
    }

    // expression THEN statement [ELSE statement], after IF.
    #[cycle(statement)]
    #[tactic(auto, unfolding(crate::specs::internal::Statements::conditional))]
    fn take_if(&mut self, place: Place, room: u8) -> Result<StatementKind, Failure<Fault>>
        requires { room ≤ NESTING_LIMIT }
        ensures { Gives kind_tree result self.new
            (conditional (expression room) (statement true room) place self.old) }
    {
        let condition = self.take_expression(room)?;
        self.take_word(ReservedWord::Then)?;
        let body = self.take_statement(room)?;
        let otherwise = self.take_otherwise(room)?;
        or_memory(StatementKind::if_then(self.alloc, place, condition, body, otherwise))
    }

    // [ELSE statement]
    #[cycle(statement)]
    fn take_otherwise(&mut self, room: u8) -> Result<Option<Statement>, Failure<Fault>>
        requires { room ≤ NESTING_LIMIT }
        ensures { Gives else_tree result self.new (otherwise (statement true room) self.old) }
    {
        if !self.at_word(ReservedWord::Else) {
            return Ok(None);
        }
        self.skip();
        let statement = self.take_statement(room)?;
        Ok(Some(statement))
    }

    // The rest of a statement, after DO.
    #[cycle(statement)]
    #[tactic(auto, unfolding(crate::specs::internal::Statements::do_statement))]
    fn take_do(&mut self, place: Place, room: u8) -> Result<StatementKind, Failure<Fault>>
        requires { room ≤ NESTING_LIMIT }
        ensures { Gives kind_tree result self.new
            (do_statement (expression room) (statement true room) (block_in room) place self.old) }
    {
        if self.at_semicolon() {
            self.skip();
            return self.take_simple_do(place, room);
        }
        if self.at_word(ReservedWord::Case) {
            self.skip();
            return self.take_case(place, room);
        }
        self.take_loop(place, room)
    }

    // {declaration} {statement} END `;`, after DO `;`.
    #[cycle(statement)]
    #[tactic(auto, unfolding(crate::specs::internal::Statements::simple_do))]
    fn take_simple_do(&mut self, place: Place, room: u8) -> Result<StatementKind, Failure<Fault>>
        requires { room ≤ NESTING_LIMIT }
        ensures { Gives kind_tree result self.new (simple_do (block_in room) place self.old) }
    {
        let block = self.take_block(room)?;
        self.take_end_of_do()?;
        or_memory(StatementKind::simple_do(self.alloc, place, block))
    }

    // The head of a loop `;` {statement} END `;`, after DO.
    #[cycle(statement)]
    #[tactic(auto, unfolding(crate::specs::internal::Statements::loop_do))]
    fn take_loop(&mut self, place: Place, room: u8) -> Result<StatementKind, Failure<Fault>>
        requires { room ≤ NESTING_LIMIT }
        ensures { Gives kind_tree result self.new
            (loop_do (expression room) (statement true room) place self.old) }
    {
        let head = self.take_loop_head(room)?;
        self.take_semicolon()?;
        let body = self.take_body(room)?;
        or_memory(StatementKind::do_loop(self.alloc, place, head, body))
    }

    // expression `;` {statement} END `;`, after DO CASE.
    #[cycle(statement)]
    #[tactic(auto, unfolding(crate::specs::internal::Statements::case_do))]
    fn take_case(&mut self, place: Place, room: u8) -> Result<StatementKind, Failure<Fault>>
        requires { room ≤ NESTING_LIMIT }
        ensures { Gives kind_tree result self.new
            (case_do (expression room) (statement true room) place self.old) }
    {
        let choice = self.take_condition(room)?;
        let body = self.take_body(room)?;
        or_memory(StatementKind::do_case(self.alloc, place, choice, body))
    }

    // {statement} END `;`
    #[cycle(statement)]
    #[tactic(auto, unfolding(crate::specs::internal::Statements::body_of_do))]
    fn take_body(&mut self, room: u8) -> Result<Vec<Statement>, Failure<Fault>>
        requires { room ≤ NESTING_LIMIT }
        ensures { Gives (λ found. statement_trees found.items) result self.new
            (body_of_do (statement true room) self.old) }
    {
        let statements = self.take_statements(room)?;
        self.take_end_of_do()?;
        Ok(statements)
    }

    // {statement}
    #[cycle(statement)]
    fn take_statements(&mut self, room: u8) -> Result<Vec<Statement>, Failure<Fault>>
        requires { room ≤ NESTING_LIMIT }
        ensures { Gives (λ found. statement_trees found.items) result self.new
            (statements (statement true room) self.old) }
    {
        let mut statements = Vec::new(self.alloc);
        'more: while !self.at_word(ReservedWord::End) {
            self.expect_word()?;
            let statement = self.take_statement(room)?;
            statements.push(statement)?;
        }
        statements.shrink_to_fit();
        Ok(statements)
    }

    /// {declaration} {statement}
    #[cycle(statement)]
    #[tactic(auto, unfolding(crate::specs::internal::Statements::block))]
    pub(crate) fn take_block(&mut self, room: u8) -> Result<Block, Failure<Fault>>
        requires { room ≤ NESTING_LIMIT }
        ensures { Gives block_trees result self.new (block_in room self.old) }
    {
        let declarations = self.take_declarations(room)?;
        let statements = self.take_statements(room)?;
        Ok(Block {
            declarations,
            statements,
        })
    }

    // {declaration}
    #[cycle(statement)]
    fn take_declarations(&mut self, room: u8) -> Result<Vec<Declaration>, Failure<Fault>>
        requires { room ≤ NESTING_LIMIT }
        ensures { Gives (λ found. declaration_trees found.items) result self.new
            (declarations (declaration true room) self.old) }
    {
        let mut declarations = Vec::new(self.alloc);
        'more: while self.begins_declaration() {
            let declaration = self.take_declaration(room)?;
            declarations.push(declaration)?;
        }
        declarations.shrink_to_fit();
        Ok(declarations)
    }

    // A declaration of no more levels than the room.
    #[cycle(statement)]
    #[tactic(auto, unfolding(crate::specs::internal::Statements::declare_or))]
    fn take_declaration(&mut self, room: u8) -> Result<Declaration, Failure<Fault>>
        requires { room ≤ NESTING_LIMIT }
        ensures { Gives declaration_tree result self.new (declaration true room self.old) }
    {
        if self.at_word(ReservedWord::Declare) {
            self.skip();
            return self.take_declare();
        }
        if room == 0 {
            return Err(self.too_deep());
        }
        self.take_procedure(room - 1)
    }

    // element {`,` element} `;`, after DECLARE.
    #[tactic(auto, using(crate::proofs::ListItems::listed), unfolding(crate::specs::internal::Statements::declare))]
    fn take_declare(&mut self) -> Result<Declaration, Failure<Fault>>
        ensures { Gives declaration_tree result self.new (declare self.old) }
    {
        let elements = self.take_list::<Element>()?;
        self.take_semicolon()?;
        Ok(Declaration::declare(elements))
    }

    // A procedure whose inside fits into a room.
    #[cycle(statement)]
    #[tactic(auto, unfolding(crate::specs::internal::Statements::procedure))]
    fn take_procedure(&mut self, room: u8) -> Result<Declaration, Failure<Fault>>
        requires { room ≤ NESTING_LIMIT }
        ensures { Gives declaration_tree result self.new (procedure true (block_in room) self.old) }
    {
        let heading = self.take_heading()?;
        self.take_semicolon()?;
        let body = self.take_block(room)?;
        let end_name = self.take_ending(&heading.name)?;
        or_memory(Declaration::procedure(self.alloc, heading, body, end_name))
    }
}
