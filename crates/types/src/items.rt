//! What DECLARE declares.

ghost use Rattle.std.specs.Prelude.{◌≡◌, [], ◌∷◌, length, map, min, nat_le, is_some, Ok};
ghost use Rattle.std.specs.Option.{option_map};
ghost use Rattle.trees.specs.internal.Views.{element_tree, item_tree, subject_tree, value_list_tree};
ghost use Rattle.std.specs.List.{list_any};
ghost use Rattle.trees.specs.declared.identifier.Identifier.{Identifier as TheIdentifier};
ghost use Rattle.trees.specs.declared.identifier.Number.{Number as TheNumber};
ghost use Rattle.typing.specs.Blocks.{declares_parameter as parameter_in};
ghost use Rattle.typed_trees.specs.declared.limits.TheConstants.{OBJECT_LIMIT as object_limit};
ghost use Rattle.typing.specs.declared.fault.Cause.TheVariants.{TooLarge};
ghost use Rattle.typing.specs.internal.Checks.{require as required};
ghost use Rattle.typed_trees.specs.Views.{home_view, object_view, type_view};
ghost use Rattle.names.specs.DeclaredNames.{declared_by};
ghost use Rattle.typing.specs.Items as items;
ghost use Rattle.typing.specs.internal.ItemChecks as checks;
ghost use Rattle.types.specs.internal.DeclareItems.{base_named, base_numbered, bytes_with, fitting_item, item_placed, listed_extents, object_listed, placed_item, structure_of, with_last_object, with_names};
ghost use Rattle.typing.specs.internal.Results.{Answers, Leaves};
ghost use Rattle.typed_expressions.specs.internal.Views.{constants_view, contents_view, extents_view, known_view};
ghost use Rattle.types.specs.internal.Views.{block_view, owner_view, progress_view, typed_item_view};

use crate::blocks::{Block, Owner};
use crate::checker::{Checker, answer_of_scopes};
use crate::identifiers::is_among;
use crate::linkages::{add_global, is_external_linkage, is_public_linkage, place_of_linkage};
use crate::lists::length_of;
use failure::Failure;
use names::{Binding, Entity};
use std::alloc::Global;
use std::rc::Rc;
use trees::{
    Dimension, Element, Identifier, Item, ItemType, Linkage, Member, Name, Place, ScalarType,
    Storage, Subject, ValueList,
};
use typed_expressions::{Constants, Contents, Extents, Known, refuse, require};
use typed_trees::{
    AtAddress, ConstantItem, FRAME_LIMIT, GlobalItem, Home, InitialValue, Members, OBJECT_LIMIT,
    ObjectType, TypedMember, TypedObject,
};
use typing::{Cause, Fault};

/// An item, all but its names.
#[derive(Drop)]
pub(crate) struct TypedItem {
    dimension: Option<u32>,
    object_type: ObjectType,
    home: Home,
    linkage: Option<Linkage>,
}

// How many elements an item has, and where it lives.
#[derive(Drop)]
struct PlacedItem {
    dimension: Option<u32>,
    home: Home,
}

// The base of an item. Parameters are not BASED.
fn typed_base(
    known: &Known,
    block: Block<'_>,
    subject: &Subject,
) -> Result<Option<u32>, Failure<Fault>>
    ensures { Answers (λ base. base) result
        (checks.typed_base (known_view known.now) (block_view block.entry) (subject_tree subject.now)
        (items.base_of (subject_tree subject.now))) }
{
    match subject {
        Subject::Single {
            base: Some(name),
            ..
        } => {
            require(
                !names_parameter(block, subject),
                Cause::BasedParameter,
                name.place,
            )?;
            base_named(known, *name)
        }
        _ => Ok(None),
    }
}

// The object that the name after BASED stands for.
fn base_named(known: &Known, name: Identifier) -> Result<Option<u32>, Failure<Fault>>
    ensures { Answers (λ base. base) result (base_named (known_view known.now) name) }
{
    let number = object_bound(known.bound(name)?, name.place)?;
    base_numbered(known, name, number)
}

// The object of a number, which may be a base.
fn base_numbered(
    known: &Known,
    name: Identifier,
    number: u32,
) -> Result<Option<u32>, Failure<Fault>>
    ensures { Answers (λ base. base) result (base_numbered (known_view known.now) name number) }
{
    let place = name.place;
    let object = known.object(name, number)?;
    require(is_base(object), Cause::NoBase, place)?;
    Ok(Some(number))
}

// Where AT puts an item.
fn typed_at(
    known: &Known,
    block: Block<'_>,
    item: &Item,
) -> Result<Option<AtAddress>, Failure<Fault>>
    ensures { Answers (λ at. at) result (checks.typed_at (known_view known.now) (block_view block.entry)
        (item_tree item.now) (item_tree item.now).at) }
{
    match &item.at {
        Some(at) => {
            require(is_plain(block, item), Cause::MisplacedAt, at.place)?;
            Ok(Some(known.at_address(&at.address)?))
        }
        None => Ok(None),
    }
}

// The values of an item. INITIAL and DATA do not go with AT.
fn typed_contents(
    known: &Known,
    block: Block<'_>,
    item: &Item,
    object_type: &ObjectType,
    extents: Extents,
) -> Result<Contents, Failure<Fault>>
    ensures { Answers contents_view result
        (checks.typed_contents (known_view known.now) (block_view block.entry) (item_tree item.now)
        (type_view object_type.now) (extents_view extents) (item_tree item.now).value_list) }
{
    let place = place_of_item(item);
    match &item.value_list {
        Some(list) => {
            let goes = is_plain(block, item) && item.at.is_none();
            require(goes, Cause::MisplacedValues, place_of_storage(list.storage))?;
            known.contents(place, object_type, extents, list.values.as_slice())
        }
        None => known.contents(place, object_type, extents, &[]),
    }
}

// An item as it is for each of its names.
fn typed_item(known: &Known, block: Block<'_>, item: &Item) -> Result<TypedItem, Failure<Fault>>
    ensures { Answers typed_item_view result
        (checks.typed_item (known_view known.now) (block_view block.entry) (item_tree item.now)) }
{
    let base = typed_base(known, block, &item.subject)?;
    let extents = extents_of(block, item)?;
    let object_type = typed_type(known, block, item)?;
    let placed = placed_item(known, block, item, &object_type, base, extents)?;
    Ok(TypedItem {
        dimension: placed.dimension,
        object_type,
        home: placed.home,
        linkage: item.linkage,
    })
}

// How many elements an item of a type has, and where it lives.
fn placed_item(
    known: &Known,
    block: Block<'_>,
    item: &Item,
    object_type: &ObjectType,
    base: Option<u32>,
    extents: Extents,
) -> Result<PlacedItem, Failure<Fault>>
    ensures { Answers (λ placed. item_placed (type_view object_type.now) item.now.linkage placed) result
        (placed_item (known_view known.now) (block_view block.entry) (item_tree item.now)
        (type_view object_type.now) base (extents_view extents)) }
{
    check_linkage(block, item)?;
    let at = typed_at(known, block, item)?;
    let filled = typed_contents(known, block, item, object_type, extents)?;
    Ok(PlacedItem {
        dimension: filled.dimension,
        home: home_of(block.owner, item, base, at, filled.values),
    })
}

// An item as it is for each of its names, whose objects are not too large.
fn fitting_item(known: &Known, block: Block<'_>, item: &Item) -> Result<TypedItem, Failure<Fault>>
    ensures { Answers typed_item_view result
        (fitting_item (known_view known.now) (block_view block.entry) (item_tree item.now)) }
{
    let typed = typed_item(known, block, item)?;
    typed.check_size(place_of_item(item))?;
    Ok(typed)
}

// The type of an item.
fn typed_type(known: &Known, block: Block<'_>, item: &Item) -> Result<ObjectType, Failure<Fault>>
    ensures { Answers type_view result (checks.typed_type (block_view block.entry) (item_tree item.now)
        (item_tree item.now).item_type) }
{
    match &item.item_type {
        ItemType::Scalar(scalar) => Ok(ObjectType::Scalar(*scalar)),
        ItemType::Structure(members) => {
            let is_parameter = names_parameter(block, &item.subject);
            require(
                !is_parameter,
                Cause::ParameterNotScalar,
                place_of_item(item),
            )?;
            structure_of(known.alloc, members.as_slice())
        }
    }
}

// The type of a structure with these members.
fn structure_of(alloc: Global, members: &[Member]) -> Result<ObjectType, Failure<Fault>>
    ensures { Answers type_view result (structure_of members.now) }
{
    let typed = typed_members(alloc, members)?;
    Ok(ObjectType::Structure(Rc::new(alloc, typed)?))
}

// The number of the object that comes next.
fn next_object(known: &Known) -> Result<u32, Failure<Fault>>
    ensures { Answers (λ number. number) result (Ok (length (known_view known.now).objects)) }
{
    length_of(known.objects.as_slice())
}

// One more object at the end of the table.
fn push_object(known: &mut Known, object: TypedObject) -> Result<(), Failure<Fault>>
    ensures { Leaves result (known_view known.new)
        (Ok (with_last_object (object_view object) (known_view known.old))) }
{
    known.objects.push(object)?;
    Ok(())
}

impl TypedItem {
    // The same again, for another name. The members of a structure are shared.
    fn copy(&self) -> Result<TypedItem, Failure<Fault>>
        ensures { Answers typed_item_view result (Ok (typed_item_view self.now)) }
    {
        Ok(TypedItem {
            dimension: self.dimension,
            object_type: copy_of_type(&self.object_type)?,
            home: copy_of_home(&self.home)?,
            linkage: self.linkage,
        })
    }

    // How many bytes each of its objects takes (4,294,967,295 if it takes more).
    #[tactic(auto, using(typed_trees::proofs::Capped::capped_product))]
    fn size(&self) -> u32
        ensures { result ≡ min (items.size_of_item (typed_item_view self.now)) 4294967295 }
    {
        let count = match self.dimension {
            Some(count) => count,
            None => 1,
        };
        count.saturating_mul(self.object_type.element_size())
    }

    // An object has at most 65,535 bytes.
    #[tactic(auto, using(crate::proofs::ItemLemmas::capped_within))]
    fn check_size(&self, place: Place) -> Result<(), Failure<Fault>>
        ensures { Answers (λ _. tt) result
            (required (nat_le (items.size_of_item (typed_item_view self.now)) object_limit) TooLarge place) }
    {
        require(self.size() <= OBJECT_LIMIT, Cause::TooLarge, place)
    }
}

// The same type, whose members are shared.
fn copy_of_type(object_type: &ObjectType) -> Result<ObjectType, Failure<Fault>>
    ensures { Answers type_view result (Ok (type_view object_type.now)) }
{
    match object_type {
        ObjectType::Scalar(scalar) => Ok(ObjectType::Scalar(*scalar)),
        ObjectType::Structure(members) => Ok(ObjectType::Structure(members.clone()?)),
    }
}

// The same home.
fn copy_of_home(home: &Home) -> Result<Home, Failure<Fault>>
    ensures { Answers home_view result (Ok (home_view home.now)) }
{
    match home {
        Home::Data(values) => Ok(Home::Data(values.clone()?)),
        Home::Constant(values) => Ok(Home::Constant(values.clone()?)),
        Home::At(address) => Ok(Home::At(*address)),
        Home::Based(base) => Ok(Home::Based(*base)),
        Home::External => Ok(Home::External),
        Home::Absent => Ok(Home::Absent),
        Home::Frame(procedure) => Ok(Home::Frame(*procedure)),
    }
}

// An object with DATA is one of the constants.
fn add_constant(constants: &mut Constants, home: &Home, number: u32) -> Result<(), Failure<Fault>>
    ensures { Leaves result (constants_view constants.new)
        (Ok (items.with_constant (home_view home.now) number (constants_view constants.old))) }
{
    if let Home::Constant(_) = home {
        constants.items.push(ConstantItem::ConstantObject(number))?;
    }
    Ok(())
}

// The object of a name of an item.
fn object_named(
    block: Block<'_>,
    item: TypedItem,
    name: Name,
) -> Result<TypedObject, Failure<Fault>>
    ensures { Answers object_view result
        (Ok (items.object_named (block_view block.entry) (typed_item_view item) name)) }
{
    let dimension = fitting(item.dimension)?;
    let is_public = is_public_linkage(item.linkage);
    let is_parameter = declares_parameter(block, name);
    Ok(TypedObject {
        name,
        dimension,
        object_type: item.object_type,
        home: item.home,
        is_public,
        is_parameter,
    })
}

// A dimension as that of an object, which it fits.
fn fitting(dimension: Option<u32>) -> Result<Option<u16>, Failure<Fault>>
    ensures { Answers (λ made. made) result (Ok dimension) }
{
    match dimension {
        Some(count) => match u16::try_from(count) {
            Ok(count) => Ok(Some(count)),
            Err(_) => Err(Failure::Memory),
        },
        None => Ok(None),
    }
}

// How many bytes an object takes in the frame of a call (4,294,967,295 if it takes more).
fn bytes_in_frame(object: &TypedObject) -> u32
    ensures { result
        ≡ min (items.bytes_in_frame (object_view object.now).home (object_view object.now)) 4294967295 }
{
    match &object.home {
        Home::Frame(_) if !object.is_parameter => object.size(),
        _ => 0,
    }
}

// The bytes in the frame of a call with one more object, at most 1024.
#[tactic(auto, using(crate::proofs::ItemLemmas::capped_within, crate::proofs::ItemLemmas::capped_exact))]
fn frame_with(frame: u32, object: &TypedObject, place: Place) -> Result<u32, Failure<Fault>>
    ensures { Answers (λ bytes. bytes) result (bytes_with frame (object_view object.now) place) }
{
    let bytes = frame.saturating_add(bytes_in_frame(object));
    require(bytes <= FRAME_LIMIT, Cause::TooLarge, place)?;
    Ok(bytes)
}

// Whether a name that a block declares is one of the parameters of its procedure.
fn declares_parameter(block: Block<'_>, name: Name) -> bool
    ensures { result ≡ parameter_in (block_view block.entry) name }
{
    match block.owner {
        Owner::Procedure { heading, .. } => {
            block.is_own && is_among(heading.parameters.as_slice(), name)
        }
        Owner::Module => false,
    }
}

// Whether an item declares a parameter.
fn names_parameter(block: Block<'_>, subject: &Subject) -> bool
    ensures { result ≡ items.names_parameter (block_view block.entry) (subject_tree subject.now) }
{
    match subject {
        Subject::Single { name, .. } => declares_parameter(block, name.name),
        Subject::Group(names) => any_parameter(block, names.as_slice()),
    }
}

// Whether one of these names is a parameter.
fn any_parameter(block: Block<'_>, names: &[Identifier]) -> bool
    ensures { result ≡ list_any
        (λ (name : TheIdentifier).
        parameter_in (block_view block.entry) name.name) names.now }
{
    for name in names {
        if declares_parameter(block, name.name) {
            return true;
        }
    }
    false
}

// The place of the first name of an item.
fn place_of_item(item: &Item) -> Place
    ensures { result ≡ items.place_of_item (item_tree item.now) }
{
    match &item.subject {
        Subject::Single { name, .. } => name.place,
        Subject::Group(names) => match names.as_slice() {
            [first, ..] => first.place,
            [] => Place { start: 0, line: 0 },
        },
    }
}

// Whether an object may be a base: a scalar ADDRESS that is not BASED itself.
fn is_base(object: &TypedObject) -> bool
    ensures { result ≡ items.is_base (object_view object.now) }
{
    let is_address = matches!(&object.object_type, ObjectType::Scalar(ScalarType::Address));
    object.dimension.is_none() && is_address && !matches!(&object.home, Home::Based(_))
}

// The object that a name is bound to.
fn object_bound(binding: Binding, place: Place) -> Result<u32, Failure<Fault>>
    ensures { Answers (λ number. number) result (checks.object_bound binding place) }
{
    match binding {
        Binding::Declared(Entity::Object(number)) => Ok(number),
        _ => Err(refuse(Cause::NoVariable, place)),
    }
}

// How many elements an item is declared with. A dimension is 1 or more. Parameters are scalars. `(*)` goes with one
// name, and with INITIAL or DATA.
fn extents_of(block: Block<'_>, item: &Item) -> Result<Extents, Failure<Fault>>
    ensures { Answers extents_view result
        (checks.extents_of (block_view block.entry) (item_tree item.now) (item_tree item.now).dimension) }
{
    let is_scalar = !names_parameter(block, &item.subject);
    match item.dimension {
        None => Ok(Extents::NoArray),
        Some(Dimension::Count(number)) => {
            require(1 <= number.value, Cause::ZeroDimension, number.place)?;
            require(is_scalar, Cause::ParameterNotScalar, number.place)?;
            Ok(Extents::Elements(number.value))
        }
        Some(Dimension::Implied) => {
            require(is_scalar, Cause::ParameterNotScalar, place_of_item(item))?;
            as_listed(item)
        }
    }
}

// As many elements as the list of an item has values.
fn as_listed(item: &Item) -> Result<Extents, Failure<Fault>>
    ensures { Answers extents_view result (listed_extents (item_tree item.now)) }
{
    let place = place_of_item(item);
    require(!is_group(&item.subject), Cause::ImpliedForGroup, place)?;
    require(
        item.value_list.is_some(),
        Cause::ImpliedWithoutValues,
        place,
    )?;
    Ok(Extents::AsListed)
}

// Whether an item declares several names in parentheses.
fn is_group(subject: &Subject) -> bool
    ensures { result ≡ items.is_group (subject_tree subject.now) }
{
    matches!(subject, Subject::Group(_))
}

// Whether an item is BASED.
fn is_based(subject: &Subject) -> bool
    ensures { result ≡ is_some (items.base_of (subject_tree subject.now)) }
{
    matches!(subject, Subject::Single { base: Some(_), .. })
}

// PUBLIC and EXTERNAL stand at the level of the module, and not with BASED.
fn check_linkage(block: Block<'_>, item: &Item) -> Result<(), Failure<Fault>>
    ensures { Answers (λ _. tt) result
        (checks.check_linkage (block_view block.entry) (item_tree item.now) (item_tree item.now).linkage) }
{
    match item.linkage {
        Some(linkage) => {
            let goes = block.is_module_level() && !is_based(&item.subject);
            require(goes, Cause::MisplacedLinkage, place_of_linkage(linkage))
        }
        None => Ok(()),
    }
}

// Whether an item may have a place or values of its own: one name, not BASED, not EXTERNAL, not a parameter, and not a
// variable of a REENTRANT procedure.
fn is_plain(block: Block<'_>, item: &Item) -> bool
    ensures { result ≡ items.is_plain (block_view block.entry) (item_tree item.now) }
{
    !is_group(&item.subject)
        && !is_based(&item.subject)
        && !is_external_linkage(item.linkage)
        && !names_parameter(block, &item.subject)
        && !block.owner.is_reentrant()
}

// Where INITIAL or DATA stands.
fn place_of_storage(storage: Storage) -> Place
    ensures { result ≡ items.place_of_storage storage }
{
    match storage {
        Storage::Initial(place) | Storage::Data(place) => place,
    }
}

// Whether the values of an item are DATA's.
fn is_data(values: &Option<ValueList>) -> bool
    ensures { result ≡ items.is_data (option_map value_list_tree values.now) }
{
    match values {
        Some(list) => matches!(list.storage, Storage::Data(_)),
        None => false,
    }
}

// Where the variables and parameters of an owner live, unless an attribute says otherwise.
fn home_in(owner: Owner<'_>, values: Vec<InitialValue>) -> Home
    ensures { home_view result ≡ items.home_in (owner_view owner.entry) values.items }
{
    match owner {
        Owner::Module => Home::Data(values),
        Owner::Procedure { number, heading } => {
            if is_external_linkage(heading.linkage) {
                Home::Absent
            } else if heading.reentrant.is_some() {
                Home::Frame(number)
            } else {
                Home::Data(values)
            }
        }
    }
}

// Where an item lives: by BASED, by EXTERNAL, by AT, by DATA, or by the owner of the declaration.
fn home_of(
    owner: Owner<'_>,
    item: &Item,
    base: Option<u32>,
    at: Option<AtAddress>,
    values: Vec<InitialValue>,
) -> Home
    ensures { home_view result
        ≡ items.home_of (owner_view owner.entry) (item_tree item.now) base at values.items }
{
    if let Some(number) = base {
        return Home::Based(number);
    }
    if is_external_linkage(item.linkage) {
        return Home::External;
    }
    match at {
        Some(address) => Home::At(address),
        None if is_data(&item.value_list) => Home::Constant(values),
        None => home_in(owner, values),
    }
}

// The members of a structure, which differ from each other.
fn typed_members(alloc: Global, members: &[Member]) -> Result<Members, Failure<Fault>>
    ensures { Answers (λ made. made) result (checks.typed_members [] members.now) }
{
    let mut typed = Members::new(alloc);
    for member in members {
        add_member(&mut typed, *member)?;
    }
    Ok(typed)
}

// Adds a member to those before it.
fn add_member(typed: &mut Members, member: Member) -> Result<(), Failure<Fault>>
    ensures { Leaves result typed.new (checks.typed_members typed.old (member ∷ [])) }
{
    let place = member.name.place;
    let dimension = member.dimension;
    let added = typed.push(member_of(member))?;
    require(added, Cause::DeclaredTwice, place)?;
    match dimension {
        Some(number) => require(1 <= number.value, Cause::ZeroDimension, number.place),
        None => Ok(()),
    }
}

// A member, whatever its dimension is.
fn member_of(member: Member) -> TypedMember
    ensures { result ≡ record {
      name = member.name.name;
      dimension = option_map (λ (number : TheNumber). number.value) member.dimension;
      scalar = member.scalar;
    } }
{
    let dimension = match member.dimension {
        Some(number) => Some(number.value),
        None => None,
    };
    TypedMember {
        name: member.name.name,
        dimension,
        scalar: member.scalar,
    }
}

impl Checker {
    /// Declares the elements of a DECLARE.
    pub(crate) fn declare_elements(
        &mut self,
        block: Block<'_>,
        elements: &[Element],
    ) -> Result<(), Failure<Fault>>
        ensures { Leaves result (progress_view self.new)
            (checks.declare_elements (block_view block.entry) (map element_tree elements.now) (progress_view self.old)) }
    {
        for element in elements {
            self.declare_element(block, element)?;
        }
        Ok(())
    }

    // Declares an element of a DECLARE.
    fn declare_element(&mut self, block: Block<'_>, element: &Element) -> Result<(), Failure<Fault>>
        ensures { Leaves result (progress_view self.new)
            (checks.declare_element (block_view block.entry) (element_tree element.now) (progress_view self.old)) }
    {
        match element {
            Element::Literally(definition) => self.declare_definition(block, definition.name),
            Element::Item(item) => self.declare_item(block, item),
        }
    }

    // A definition by LITERALLY declares its name.
    fn declare_definition(
        &mut self,
        block: Block<'_>,
        name: Identifier,
    ) -> Result<(), Failure<Fault>>
        ensures { Leaves result (progress_view self.new)
            (checks.declare_definition (block_view block.entry) name (progress_view self.old)) }
    {
        let place = name.place;
        let owner = block.owner;
        let is_external = owner.is_external();
        answer_of_scopes(self.known.scopes.declare_definition(name))?;
        require(!is_external, Cause::ExternalContents, place)
    }

    // Declares the name of an object. In an EXTERNAL procedure it is a parameter.
    fn declare_name(&mut self, block: Block<'_>, name: Identifier) -> Result<(), Failure<Fault>>
        ensures { Leaves result (progress_view self.new)
            (with_names (block_view block.entry) (name ∷ []) (progress_view self.old)) }
    {
        answer_of_scopes(self.known.scopes.declare_object(name))?;
        let owner = block.owner;
        let is_external = owner.is_external();
        let is_parameter = declares_parameter(block, name.name);
        require(
            !is_external || is_parameter,
            Cause::ExternalContents,
            name.place,
        )
    }

    // Declares the names of objects.
    fn declare_names(&mut self, block: Block<'_>, subject: &Subject) -> Result<(), Failure<Fault>>
        ensures { Leaves result (progress_view self.new)
            (with_names (block_view block.entry) (declared_by (subject_tree subject.now)) (progress_view self.old)) }
    {
        match subject {
            Subject::Single { name, .. } => self.declare_name(block, *name),
            Subject::Group(names) => self.declare_group(block, names.as_slice()),
        }
    }

    // Declares the names of objects that stand in parentheses.
    fn declare_group(
        &mut self,
        block: Block<'_>,
        names: &[Identifier],
    ) -> Result<(), Failure<Fault>>
        ensures { Leaves result (progress_view self.new)
            (with_names (block_view block.entry) names.now (progress_view self.old)) }
    {
        for name in names {
            self.declare_name(block, *name)?;
        }
        Ok(())
    }

    // Puts an object at the end of the table, and where else it belongs.
    fn add_object(
        &mut self,
        block: Block<'_>,
        item: TypedItem,
        name: Identifier,
    ) -> Result<(), Failure<Fault>>
        ensures { Leaves result (progress_view self.new)
            (checks.with_objects (block_view block.entry) (typed_item_view item) (name ∷ []) (progress_view self.old)) }
    {
        let linkage = item.linkage;
        let object = object_named(block, item, name.name)?;
        self.list_object(&object, linkage, name.place)?;
        push_object(&mut self.known, object)
    }

    // Adds the next object to the constants, the globals and the frame bytes, if it belongs there.
    fn list_object(
        &mut self,
        object: &TypedObject,
        linkage: Option<Linkage>,
        place: Place,
    ) -> Result<(), Failure<Fault>>
        ensures { Leaves result (progress_view self.new)
            (object_listed linkage (object_view object.now) place (progress_view self.old)) }
    {
        let frame = frame_with(self.frame, object, place)?;
        let number = next_object(&self.known)?;
        add_constant(&mut self.constants, &object.home, number)?;
        add_global(&mut self.globals, linkage, GlobalItem::GlobalObject(number))?;
        self.frame = frame;
        Ok(())
    }

    // Puts the objects of an item at the end of the table.
    fn add_objects(
        &mut self,
        block: Block<'_>,
        item: TypedItem,
        subject: &Subject,
    ) -> Result<(), Failure<Fault>>
        ensures { Leaves result (progress_view self.new)
            (checks.with_objects (block_view block.entry) (typed_item_view item) (declared_by (subject_tree subject.now))
            (progress_view self.old)) }
    {
        match subject {
            Subject::Single { name, .. } => self.add_object(block, item, *name),
            Subject::Group(names) => self.add_group(block, &item, names.as_slice()),
        }
    }

    // Puts an object for each of these names at the end of the table.
    fn add_group(
        &mut self,
        block: Block<'_>,
        item: &TypedItem,
        names: &[Identifier],
    ) -> Result<(), Failure<Fault>>
        ensures { Leaves result (progress_view self.new)
            (checks.with_objects (block_view block.entry) (typed_item_view item.now) names.now (progress_view self.old)) }
    {
        for name in names {
            self.add_copy(block, item, *name)?;
        }
        Ok(())
    }

    // Puts an object for one name of several at the end of the table.
    fn add_copy(
        &mut self,
        block: Block<'_>,
        item: &TypedItem,
        name: Identifier,
    ) -> Result<(), Failure<Fault>>
        ensures { Leaves result (progress_view self.new)
            (checks.with_objects (block_view block.entry) (typed_item_view item.now) (name ∷ []) (progress_view self.old)) }
    {
        let copy = item.copy()?;
        self.add_object(block, copy, name)
    }

    // Declares an item. It is typed by the names before it, but a name of its own that is declared twice is refused first.
    fn declare_item(&mut self, block: Block<'_>, item: &Item) -> Result<(), Failure<Fault>>
        ensures { Leaves result (progress_view self.new)
            (checks.declare_item (block_view block.entry) (item_tree item.now) (progress_view self.old)) }
    {
        let typed = fitting_item(&self.known, block, item);
        self.declare_names(block, &item.subject)?;
        self.add_objects(block, typed?, &item.subject)
    }
}
