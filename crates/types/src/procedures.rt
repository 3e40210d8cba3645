//! Headings of procedures and their parameters.

ghost use Rattle.std.specs.Prelude.{◌≡◌, not, ◌||◌, [], ◌∷◌, drop, length, map, slice_set, take, unwrap_or, IfOk, OnOk};
ghost use Rattle.trees.specs.declared.declaration.ScalarType.TheVariants.{Byte};
ghost use Rattle.failure.specs.Failure.{IfFault};
ghost use Rattle.trees.specs.internal.Views.{declaration_tree, declaration_trees, element_tree, heading_tree, item_type_tree, kind_tree, reference_tree, statement_tree, statement_trees, subject_tree};
ghost use Rattle.names.specs.Environment.{into_body};
ghost use Rattle.names.specs.DeclaredNames.{declared_by};
ghost use Rattle.typed_trees.specs.Views.{list_view, procedure_view};
ghost use Rattle.typing.specs.Blocks.{is_external, is_reentrant};
ghost use Rattle.typing.specs.Statements.{place_of_kind, place_of_statement, place_of_targets};
ghost use Rattle.typing.specs.internal.ProcedureChecks.{check_body, check_reentrant, check_visibility, declare_parameters, no_more_parameters, open_procedure, parameter_object, parameter_objects};
ghost use Rattle.typing.specs.Procedures.{empty_list, parameter_types, procedure_with, scalar_in_block, scalar_in_declaration, scalar_in_element, scalar_in_elements, scalar_of_type, visibility_of};
ghost use Rattle.typing.specs.internal.Results.{Answers, Leaves};
ghost use Rattle.types.specs.internal.Views.{block_view, owner_view, progress_view};
ghost use Rattle.types.specs.internal.Walking.{heading_opened, names_among, parameter_declared, parameters_opened, procedure_closed, procedure_declared};

use crate::blocks::{Block, Owner};
use crate::checker::{Checker, answer_of_scopes};
use crate::identifiers::{is_among, is_same};
use crate::linkages::{add_global, is_external_linkage, place_of_linkage};
use crate::lists::length_of;
use failure::Failure;
use names::{Entity, Scopes};
use std::alloc::{AllocError, Global};
use trees::{
    Declaration, Element, Heading, Identifier, ItemType, Linkage, Name, Place, Reference,
    ScalarType, Statement, StatementKind, Subject,
};
use typed_expressions::{refuse, require};
use typed_trees::{GlobalItem, PARAMETER_LIMIT, TypedList, TypedProcedure, Visibility};
use typing::{Cause, Fault};

/// The objects of a procedure's parameters, and its statements.
#[derive(Drop)]
pub(crate) struct Inside {
    pub(crate) parameters: Vec<u32>,
    pub(crate) body: TypedList,
}

// The object that a parameter is declared as.
fn parameter_object(parameter: Identifier, declared: Option<Entity>) -> Result<u32, Failure<Fault>>
    ensures { Answers (λ number. number) result (parameter_object parameter declared) }
{
    match declared {
        Some(Entity::Object(number)) => Ok(number),
        _ => Err(refuse(Cause::ParameterNotDeclared, parameter.place)),
    }
}

/// The objects of the parameters, each declared by the procedure's own block.
pub(crate) fn parameter_objects(
    alloc: Global,
    scopes: &Scopes,
    parameters: &[Identifier],
) -> Result<Vec<u32>, Failure<Fault>>
    ensures { Answers (λ made. made.items) result (parameter_objects scopes.now parameters.now) }
{
    let mut made = Vec::new(alloc);
    for parameter in parameters {
        let object = parameter_object(*parameter, scopes.declared_here(parameter.name))?;
        made.push(object)?;
    }
    Ok(made)
}

// Where a reference begins.
#[tactic(auto, using(crate::proofs::Places::place_of_parts))]
fn place_of_reference(reference: &Reference) -> Place
    ensures { result ≡ place_of_targets (reference_tree reference.now ∷ []) }
{
    reference.name.place
}

/// The place at which a statement begins, its labels aside.
#[tactic(auto, using(names::proofs::TreesOfParts::do_tree_is))]
pub fn place_of_kind(kind: &StatementKind) -> Place
    ensures { result ≡ place_of_kind (kind_tree kind.now) }
{
    match kind {
        StatementKind::Null(place)
        | StatementKind::Halt(place)
        | StatementKind::Call { place, .. }
        | StatementKind::Return { place, .. }
        | StatementKind::Goto { place, .. }
        | StatementKind::Do { place, .. } => *place,
        StatementKind::Assignment(assignment) => place_of_reference(&assignment.target),
        StatementKind::If(branch) => branch.place,
        StatementKind::Loop(turns) => turns.place,
        StatementKind::Case(choice) => choice.place,
    }
}

// Where a statement begins.
fn place_of_statement(statement: &Statement) -> Place
    ensures { result ≡ place_of_statement (statement_tree statement.now) }
{
    match statement.labels.as_slice() {
        [label, ..] => label.place,
        [] => place_of_kind(&statement.kind),
    }
}

/// An EXTERNAL procedure has no statements here.
pub(crate) fn check_body(heading: &Heading, body: &[Statement]) -> Result<(), Failure<Fault>>
    ensures { Answers (λ _. tt) result
        (check_body (heading_tree heading.now) (statement_trees body.now)) }
{
    match body {
        [] => Ok(()),
        [first, ..] => require(
            !is_external_linkage(heading.linkage),
            Cause::ExternalContents,
            place_of_statement(first),
        ),
    }
}

// Whether an item declares a name.
fn is_declared_by(subject: &Subject, name: Name) -> bool
    ensures { result ≡ names_among (declared_by (subject_tree subject.now)) name }
{
    match subject {
        Subject::Single { name: declared, .. } => is_same(name, declared.name),
        Subject::Group(names) => is_among(names.as_slice(), name),
    }
}

// The type of a scalar; that of a structure will be refused.
fn scalar_of_type(item_type: &ItemType) -> ScalarType
    ensures { result ≡ scalar_of_type (item_type_tree item_type.now) }
{
    match item_type {
        ItemType::Scalar(scalar) => *scalar,
        ItemType::Structure(_) => ScalarType::Byte,
    }
}

// The type that an element declares a name with.
fn scalar_in_element(element: &Element, name: Name) -> Option<ScalarType>
    ensures { result ≡ scalar_in_element (element_tree element.now) name }
{
    match element {
        Element::Literally(_) => None,
        Element::Item(item) => {
            if is_declared_by(&item.subject, name) {
                Some(scalar_of_type(&item.item_type))
            } else {
                None
            }
        }
    }
}

// The type that a DECLARE declares a name with.
fn scalar_in_elements(elements: &[Element], name: Name) -> Option<ScalarType>
    ensures { result ≡ scalar_in_elements (map element_tree elements.now) name }
{
    for element in elements {
        if let Some(scalar) = scalar_in_element(element, name) {
            return Some(scalar);
        }
    }
    None
}

// The type that a declaration declares a name with.
#[tactic(auto, using(names::proofs::TreesOfParts::procedure_is))]
fn scalar_in_declaration(declaration: &Declaration, name: Name) -> Option<ScalarType>
    ensures { result ≡ scalar_in_declaration (declaration_tree declaration.now) name }
{
    match declaration {
        Declaration::Declare(elements) => scalar_in_elements(elements.as_slice(), name),
        Declaration::Procedure(_) => None,
    }
}

// The type that a procedure's own block declares a name with.
fn scalar_in_block(declared: &[Declaration], name: Name) -> Option<ScalarType>
    ensures { result ≡ scalar_in_block (declaration_trees declared.now) name }
{
    for declaration in declared {
        if let Some(scalar) = scalar_in_declaration(declaration, name) {
            return Some(scalar);
        }
    }
    None
}

// The type of a parameter. One that is not declared will be refused.
fn parameter_type(declared: &[Declaration], name: Name) -> ScalarType
    ensures { result ≡ unwrap_or (scalar_in_block (declaration_trees declared.now) name) Byte }
{
    match scalar_in_block(declared, name) {
        Some(scalar) => scalar,
        None => ScalarType::Byte,
    }
}

// The types of parameters.
fn parameter_types(
    alloc: Global,
    declared: &[Declaration],
    parameters: &[Identifier],
) -> Result<Vec<ScalarType>, AllocError>
    ensures { IfOk result (λ types. types.items ≡
        parameter_types (declaration_trees declared.now) parameters.now) }
{
    let mut types = Vec::new(alloc);
    for parameter in parameters {
        types.push(parameter_type(declared, parameter.name))?;
    }
    Ok(types)
}

// Declares the name of a procedure.
fn declare_procedure(scopes: &mut Scopes, name: Identifier) -> Result<(), Failure<Fault>>
    ensures { Leaves result scopes.new (procedure_declared name scopes.old) }
{
    answer_of_scopes(scopes.declare_procedure(name))
}

// Takes in a parameter.
fn declare_parameter(scopes: &mut Scopes, name: Identifier) -> Result<(), Failure<Fault>>
    ensures { Leaves result scopes.new (parameter_declared name scopes.old) }
{
    answer_of_scopes(scopes.declare_parameter(name))
}

// Takes in the parameters of a heading.
fn declare_parameters(scopes: &mut Scopes, names: &[Identifier]) -> Result<(), Failure<Fault>>
    ensures { Leaves result scopes.new (declare_parameters names.now scopes.old) }
{
    for name in names {
        declare_parameter(scopes, *name)?;
    }
    Ok(())
}

// Goes into the body of a procedure.
fn open_body(scopes: &mut Scopes) -> Result<(), Failure<Fault>>
    ensures ok { OnOk result (scopes.new ≡ into_body scopes.old) }
    ensures err { IfFault result (λ _. ⊥) }
{
    answer_of_scopes(scopes.open_body())
}

// Whether procedures may stand in this.
fn holds_procedures(owner: Owner<'_>) -> bool
    ensures { result ≡ not (is_reentrant (owner_view owner.entry) || is_external (owner_view owner.entry)) }
{
    !(owner.is_reentrant() || owner.is_external())
}

// The parameters of a heading that it may have, and those that are too many.
fn within_limit(parameters: &[Identifier]) -> (&[Identifier], &[Identifier])
    ensures allowed { result.0.now ≡ take PARAMETER_LIMIT parameters.now }
    ensures too_many { result.1.now ≡ drop PARAMETER_LIMIT parameters.now }
{
    if parameters.len() <= PARAMETER_LIMIT {
        (parameters, &[])
    } else {
        parameters.split_at(PARAMETER_LIMIT)
    }
}

// Checks that there are not too many parameters.
fn no_more_parameters(parameters: &[Identifier]) -> Result<(), Failure<Fault>>
    ensures { Answers (λ _. tt) result (no_more_parameters parameters.now) }
{
    match parameters {
        [] => Ok(()),
        [parameter, ..] => Err(refuse(Cause::TooManyParameters, parameter.place)),
    }
}

// PUBLIC and EXTERNAL stand at the level of the module.
fn check_visibility(block: Block<'_>, linkage: Option<Linkage>) -> Result<(), Failure<Fault>>
    ensures { Answers (λ _. tt) result (check_visibility (block_view block.entry) linkage) }
{
    match linkage {
        None => Ok(()),
        Some(linkage) => require(
            block.is_module_level(),
            Cause::MisplacedLinkage,
            place_of_linkage(linkage),
        ),
    }
}

// REENTRANT does not go with EXTERNAL.
fn check_reentrant(linkage: Option<Linkage>, reentrant: Option<Place>) -> Result<(), Failure<Fault>>
    ensures { Answers (λ _. tt) result (check_reentrant linkage reentrant) }
{
    match reentrant {
        None => Ok(()),
        Some(place) => require(
            !is_external_linkage(linkage),
            Cause::ReentrantExternal,
            place,
        ),
    }
}

// Declares the name of a procedure, opens its body, and declares its parameters.
fn open_heading(
    scopes: &mut Scopes,
    block: Block<'_>,
    heading: &Heading,
) -> Result<(), Failure<Fault>>
    ensures { Leaves result scopes.new
        (heading_opened (block_view block.entry) (heading_tree heading.now) scopes.old) }
{
    declare_procedure(scopes, heading.name)?;
    require(
        holds_procedures(block.owner),
        Cause::NestedProcedure,
        heading.name.place,
    )?;
    open_parameters(scopes, block, heading)
}

// Opens the body of a procedure, and declares its parameters.
fn open_parameters(
    scopes: &mut Scopes,
    block: Block<'_>,
    heading: &Heading,
) -> Result<(), Failure<Fault>>
    ensures { Leaves result scopes.new
        (parameters_opened (block_view block.entry) (heading_tree heading.now) scopes.old) }
{
    let (allowed, too_many) = within_limit(heading.parameters.as_slice());
    open_body(scopes)?;
    declare_parameters(scopes, allowed)?;
    no_more_parameters(too_many)?;
    check_visibility(block, heading.linkage)?;
    check_reentrant(heading.linkage, heading.reentrant)
}

// How far a procedure is visible.
fn visibility_of(linkage: Option<Linkage>) -> Visibility
    ensures { result ≡ visibility_of linkage }
{
    match linkage {
        None => Visibility::Private,
        Some(Linkage::Public(_)) => Visibility::Public,
        Some(Linkage::External(_)) => Visibility::External,
    }
}

// A procedure by its heading, and by the parts that become known later.
fn procedure_with(
    heading: &Heading,
    parameter_types: Vec<ScalarType>,
    parameters: Vec<u32>,
    frame_bytes: u32,
    body: TypedList,
) -> TypedProcedure
    ensures { procedure_view result ≡ procedure_with (heading_tree heading.now)
        parameter_types.items parameters.items frame_bytes (list_view body) }
{
    TypedProcedure {
        name: heading.name.name,
        visibility: visibility_of(heading.linkage),
        result: heading.result,
        is_reentrant: heading.reentrant.is_some(),
        parameter_types,
        parameters,
        frame_bytes,
        body,
    }
}

// A procedure by its heading alone.
fn headed(alloc: Global, heading: &Heading, parameter_types: Vec<ScalarType>) -> TypedProcedure
    ensures { procedure_view result ≡ procedure_with (heading_tree heading.now)
        parameter_types.items [] 0 empty_list }
{
    let body = TypedList {
        first_label: 0,
        places: Vec::new(alloc),
        statements: Vec::new(alloc),
    };
    procedure_with(heading, parameter_types, Vec::new(alloc), 0, body)
}

// Puts a procedure in the place of the one of this number.
fn replace(procedures: &mut Vec<TypedProcedure>, number: u32, procedure: TypedProcedure)
    ensures { procedures.new.items ≡ slice_set procedures.old.items number procedure }
{
    if let Some(entry) = procedures.get_mut(number as usize) {
        *entry = procedure;
    }
}

impl Checker {
    /// A heading, up to where its body begins: the number of its procedure.
    pub(crate) fn open_procedure(
        &mut self,
        block: Block<'_>,
        heading: &Heading,
        declared: &[Declaration],
    ) -> Result<u32, Failure<Fault>>
        ensures number { IfOk result (λ number. number ≡ length self.old.known.procedures.items) }
        ensures opened { Leaves result (progress_view self.new)
            (open_procedure (block_view block.entry) (heading_tree heading.now)
            (declaration_trees declared.now) (progress_view self.old)) }
    {
        let number = length_of(self.known.procedures.as_slice())?;
        open_heading(&mut self.known.scopes, block, heading)?;
        // A heading with too many parameters is refused by now.
        let types = parameter_types(self.alloc, declared, heading.parameters.as_slice())?;
        self.known
            .procedures
            .push(headed(self.alloc, heading, types))?;
        let item = GlobalItem::GlobalProcedure(number);
        add_global(&mut self.globals, heading.linkage, item)?;
        self.frame = 0;
        Ok(number)
    }

    /// Closes a procedure, which is now complete.
    #[tactic(auto, using(crate::proofs::Headings::procedure_replaced))]
    pub(crate) fn close_procedure(
        &mut self,
        heading: &Heading,
        declared: &[Declaration],
        number: u32,
        inside: Inside,
    ) -> Result<(), Failure<Fault>>
        ensures { Leaves result (progress_view self.new)
            (procedure_closed (heading_tree heading.now) (declaration_trees declared.now) number
            inside.parameters.items (list_view inside.body) (progress_view self.old)) }
    {
        let types = parameter_types(self.alloc, declared, heading.parameters.as_slice())?;
        let procedure = procedure_with(heading, types, inside.parameters, self.frame, inside.body);
        replace(&mut self.known.procedures, number, procedure);
        self.known.scopes.close_body();
        self.frame = 0;
        Ok(())
    }
}
