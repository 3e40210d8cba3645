//! The shape of a tree as a text: operators stand before their operands, and a tree that is in parentheses in the source stands
//! between `<` and `>`. A label stands before its statement, with its colon. The places of names can be shown, as `A@7`.
//!
//! Lists are passed as vectors, since `as_slice` makes proofs longer.

use crate::page::Page;
use trees::{
    Assignment, BinaryOperator, Block, Constant, Declaration, Dimension, Element, Expression,
    Heading, Identifier, IfThen, Item, ItemType, Iteration, Linkage, LoopHead, Member, Module,
    Origin, Reference, Restricted, ScalarType, Selector, Sign, Statement, StatementKind, Storage,
    Subject, UnaryOperator, ValueList,
};

/// The shape of a tree, as far as it is written.
#[derive(Drop)]
pub struct Shape {
    /// The text that is written.
    pub page: Page,
    /// Whether the place of a name is shown.
    pub shows_places: bool,
}

impl Shape {
    // A text.
    fn text(&mut self, text: &str) {
        self.page.text(text);
    }

    fn name(&mut self, name: &Identifier) {
        self.page.value(&name.name);
        if self.shows_places {
            self.page.number("@", u64::from(name.place.start));
        }
    }

    /// A module.
    pub fn module(&mut self, module: &Module) {
        self.text("(");
        self.name(&module.name);
        self.block(&module.body);
        self.ending(&module.end_name);
    }

    // END, the name after it, if there is one, and the parenthesis that closes what ends.
    fn ending(&mut self, name: &Option<Identifier>) {
        self.text(" END");
        if let Some(name) = name {
            self.text(" ");
            self.name(name);
        }
        self.text(")");
    }

    #[cycle(statement)]
    fn block(&mut self, block: &Block) {
        for declaration in &block.declarations {
            self.declaration(declaration);
        }
        self.statements(&block.statements);
    }

    #[cycle(statement)]
    fn statements(&mut self, statements: &Vec<Statement>) {
        for statement in statements {
            self.text(" ");
            self.statement(statement);
        }
    }

    #[cycle(statement)]
    fn statement(&mut self, statement: &Statement) {
        for label in &statement.labels {
            self.name(label);
            self.text(": ");
        }
        self.text(opening_of_statement(&statement.kind));
        self.parts(&statement.kind);
        if !matches!(statement.kind, StatementKind::Null(_)) {
            self.text(")");
        }
    }

    // The parts of a statement between its first word and its end.
    #[cycle(statement)]
    fn parts(&mut self, kind: &StatementKind) {
        match kind {
            StatementKind::Null(_) | StatementKind::Halt(_) => {}
            StatementKind::Assignment(assignment) => self.assignment(assignment),
            StatementKind::Call { procedure, .. } => self.selector(procedure),
            StatementKind::Return { value, .. } => {
                if let Some(value) = value {
                    self.operand(value);
                }
            }
            StatementKind::Goto { label, .. } => self.name(label),
            StatementKind::If(conditional) => self.branches(conditional),
            StatementKind::Do { block, .. } => self.block(block),
            StatementKind::Loop(held) => {
                self.head(&held.head);
                self.statements(&held.body);
            }
            StatementKind::Case(held) => {
                self.expression(&held.choice);
                self.statements(&held.body);
            }
        }
    }

    #[cycle(statement)]
    fn branches(&mut self, conditional: &IfThen) {
        self.expression(&conditional.condition);
        self.text(" ");
        self.statement(&conditional.body);
        if let Some(otherwise) = &conditional.otherwise {
            self.text(" ");
            self.statement(otherwise);
        }
    }

    // A declaration after another part.
    #[cycle(statement)]
    fn declaration(&mut self, declaration: &Declaration) {
        match declaration {
            Declaration::Declare(elements) => self.elements(elements),
            Declaration::Procedure(procedure) => {
                self.heading(&procedure.heading);
                self.block(&procedure.body);
                self.ending(&procedure.end_name);
            }
        }
    }
}

impl Shape {
    // The head of a loop: WHILE and its condition, or FROM and the parts of an iteration.
    fn head(&mut self, head: &LoopHead) {
        match head {
            LoopHead::While(condition) => {
                self.text("WHILE ");
                self.expression(condition);
            }
            LoopHead::Count(iteration) => {
                self.text("FROM ");
                self.iteration(iteration);
            }
        }
    }

    fn iteration(&mut self, iteration: &Iteration) {
        self.name(&iteration.variable);
        self.operand(&iteration.first);
        self.operand(&iteration.last);
        if let Some(step) = &iteration.step {
            self.text(" BY");
            self.operand(step);
        }
    }

    fn assignment(&mut self, assignment: &Assignment) {
        self.reference(&assignment.target);
        for target in &assignment.others {
            self.text(" ");
            self.reference(target);
        }
        self.operand(&assignment.value);
    }

    // An expression after another part.
    fn operand(&mut self, expression: &Expression) {
        self.text(" ");
        self.expression(expression);
    }

    #[cycle(expression)]
    fn expression(&mut self, expression: &Expression) {
        self.text(opening_of_expression(expression));
        match expression {
            Expression::Constant(value) => self.constant(value),
            Expression::Reference(reference) | Expression::Location(reference) => {
                self.reference(reference);
            }
            Expression::List(values) => self.constants(values),
            Expression::Parenthesized(inner) | Expression::Unary(_, inner) => {
                self.expression(inner);
            }
            Expression::Assignment { target, value } => {
                self.reference(target);
                self.text(" ");
                self.expression(value);
            }
            Expression::Binary(_, left, right) => {
                self.expression(left);
                self.text(" ");
                self.expression(right);
            }
        }
        self.text(closing_of_expression(expression));
    }

    #[cycle(expression)]
    fn selector(&mut self, selector: &Selector) {
        self.name(&selector.name);
        self.arguments(&selector.arguments);
    }

    #[cycle(expression)]
    fn arguments(&mut self, arguments: &Vec<Expression>) {
        let mut is_first = true;
        for argument in arguments {
            if is_first {
                self.text("(");
            } else {
                self.text(" ");
            }
            self.expression(argument);
            is_first = false;
        }
        if !arguments.is_empty() {
            self.text(")");
        }
    }

    #[cycle(expression)]
    fn reference(&mut self, reference: &Reference) {
        self.name(&reference.name);
        self.arguments(&reference.arguments);
        if let Some(member) = &reference.member {
            self.text(".");
            self.selector(member);
        }
    }

    fn constant(&mut self, constant: &Constant) {
        match constant {
            Constant::Number(number) => self.page.value(&number.value),
            Constant::String(literal) => self.string(literal.characters.as_slice()),
        }
    }

    fn string(&mut self, characters: &[u8]) {
        self.text("'");
        self.text(std::str::from_utf8(characters).unwrap_or("?"));
        self.text("'");
    }

    // Constants after an opening parenthesis. The closing one is not written.
    fn constants(&mut self, values: &Vec<Constant>) {
        let mut before = "(";
        for value in values {
            self.text(before);
            self.constant(value);
            before = " ";
        }
    }
}

impl Shape {
    // Names in parentheses, or nothing if there is no name.
    fn names(&mut self, names: &Vec<Identifier>) {
        let mut before = "(";
        for name in names {
            self.text(before);
            self.name(name);
            before = " ";
        }
        if !names.is_empty() {
            self.text(")");
        }
    }

    fn heading(&mut self, heading: &Heading) {
        self.text(" (PROCEDURE ");
        self.name(&heading.name);
        self.names(&heading.parameters);
        if let Some(result) = heading.result {
            self.text(" ");
            self.text(scalar_word(result));
        }
        self.text(linkage_word(heading.linkage));
        if heading.reentrant.is_some() {
            self.text(" REENTRANT");
        }
    }

    fn elements(&mut self, elements: &Vec<Element>) {
        self.text(" (DECLARE");
        for element in elements {
            self.text(" (");
            match element {
                Element::Literally(definition) => {
                    self.name(&definition.name);
                    self.text(" LITERALLY ");
                    self.string(definition.text.characters.as_slice());
                }
                Element::Item(item) => self.item(item),
            }
            self.text(")");
        }
        self.text(")");
    }

    fn item(&mut self, item: &Item) {
        self.subject(&item.subject);
        match item.dimension {
            Some(Dimension::Count(number)) => {
                self.page.number(" (", u64::from(number.value));
                self.text(")");
            }
            Some(Dimension::Implied) => self.text(" (*)"),
            None => {}
        }
        self.text(" ");
        match &item.item_type {
            ItemType::Scalar(scalar) => self.text(scalar_word(*scalar)),
            ItemType::Structure(members) => self.members(members),
        }
        self.text(linkage_word(item.linkage));
        if let Some(at) = &item.at {
            self.text(" AT ");
            self.restricted(&at.address);
        }
        if let Some(list) = &item.value_list {
            self.value_list(list);
        }
    }

    fn subject(&mut self, subject: &Subject) {
        match subject {
            Subject::Single { name, base } => {
                self.name(name);
                if let Some(base) = base {
                    self.text(" BASED ");
                    self.name(base);
                }
            }
            Subject::Group(group) => self.names(group),
        }
    }

    fn members(&mut self, members: &Vec<Member>) {
        let mut before = "STRUCTURE(";
        for member in members {
            self.text(before);
            self.name(&member.name);
            if let Some(number) = member.dimension {
                self.page.number("(", u64::from(number.value));
                self.text(")");
            }
            self.text(":");
            self.text(scalar_word(member.scalar));
            before = " ";
        }
        self.text(")");
    }

    fn value_list(&mut self, list: &ValueList) {
        let mut before = match list.storage {
            Storage::Initial(_) => " INITIAL(",
            Storage::Data(_) => " DATA(",
        };
        for value in &list.values {
            self.text(before);
            self.restricted(value);
            before = " ";
        }
        self.text(")");
    }

    fn restricted(&mut self, restricted: &Restricted) {
        match &restricted.origin {
            Origin::Constant(value) => self.constant(value),
            Origin::Location(name) => {
                self.text(".");
                self.name(name);
            }
        }
        for offset in &restricted.offsets {
            self.text(match offset.sign {
                Sign::Plus => "+",
                Sign::Minus => "-",
            });
            self.constant(&offset.constant);
        }
    }
}

fn scalar_word(scalar: ScalarType) -> &'static str {
    match scalar {
        ScalarType::Byte => "BYTE",
        ScalarType::Address => "ADDRESS",
    }
}

fn linkage_word(linkage: Option<Linkage>) -> &'static str {
    match linkage {
        Some(Linkage::Public(_)) => " PUBLIC",
        Some(Linkage::External(_)) => " EXTERNAL",
        None => "",
    }
}

// The beginning of an operator between its operands.
fn binary_word(operator: BinaryOperator) -> &'static str {
    match operator {
        BinaryOperator::Or => "(OR ",
        BinaryOperator::Xor => "(XOR ",
        BinaryOperator::And => "(AND ",
        BinaryOperator::Equal => "(= ",
        BinaryOperator::Less => "(< ",
        BinaryOperator::Greater => "(> ",
        BinaryOperator::LessOrEqual => "(<= ",
        BinaryOperator::GreaterOrEqual => "(>= ",
        BinaryOperator::Unequal => "(<> ",
        BinaryOperator::Add => "(+ ",
        BinaryOperator::Subtract => "(- ",
        BinaryOperator::Multiply => "(* ",
        BinaryOperator::Divide => "(/ ",
        BinaryOperator::Modulo => "(MOD ",
    }
}

// The beginning of a statement, as far as its kind gives it.
fn opening_of_statement(kind: &StatementKind) -> &'static str {
    match kind {
        StatementKind::Null(_) => ";",
        StatementKind::Assignment(_) => "(= ",
        StatementKind::Call { .. } => "(CALL ",
        StatementKind::Return { .. } => "(RETURN",
        StatementKind::Halt(_) => "(HALT",
        StatementKind::Goto { .. } => "(GOTO ",
        StatementKind::If(_) => "(IF ",
        StatementKind::Do { .. } => "(DO",
        StatementKind::Loop(_) => "(",
        StatementKind::Case(_) => "(CASE ",
    }
}

// The beginning of an expression, as far as its kind gives it.
fn opening_of_expression(expression: &Expression) -> &'static str {
    match expression {
        Expression::Constant(_) | Expression::Reference(_) => "",
        Expression::Location(_) | Expression::List(_) => ".",
        Expression::Parenthesized(_) => "<",
        Expression::Assignment { .. } => "(:= ",
        Expression::Unary(UnaryOperator::Not, _) => "(NOT ",
        Expression::Unary(UnaryOperator::Negate, _) => "(- ",
        Expression::Binary(operator, _, _) => binary_word(*operator),
    }
}

// The end of an expression, as far as its kind gives it.
fn closing_of_expression(expression: &Expression) -> &'static str {
    match expression {
        Expression::Constant(_) | Expression::Reference(_) | Expression::Location(_) => "",
        Expression::Parenthesized(_) => ">",
        Expression::List(_)
        | Expression::Assignment { .. }
        | Expression::Unary(_, _)
        | Expression::Binary(_, _, _) => ")",
    }
}
