//! Restricted expressions: where AT puts objects, and what INITIAL and DATA fill them with.

ghost use Rattle.std.specs.Prelude.{◌≡◌, ◌<◌, IfSome, [], ◌∷◌, map, vec_items};
ghost use Rattle.trees.specs.internal.Views.{offset_tree, origin_tree, restricted_tree, string_tree};
ghost use Rattle.typed_trees.specs.Sizes.{scalars_of_elements};
ghost use Rattle.typed_trees.specs.Views.{home_view, type_view};
ghost use Rattle.names.specs.declared.entity.Binding.TheVariants.{Declared};
ghost use Rattle.names.specs.declared.entity.Entity.TheVariants.{Object};
ghost use Rattle.typing.specs.Filling.{AsListed, enough_elements as elements_enough, place_of_origin as origin_place, scalars_at_most as most_scalars};
ghost use Rattle.typing.specs.internal.FillingChecks.{at_address, contents, fill_characters as characters_filled, fill_scalar as scalar_filled, fill_string as string_filled, fill_value as value_filled, restricted_value, static_bound, static_object, with_address as home_address};
ghost use Rattle.typed_expressions.specs.internal.Fillings.{elements_listed, filled_view, left_of, onto, reach_view, value_view, values_filled};
ghost use Rattle.typing.specs.internal.Results.{Answers, Leaves};
ghost use Rattle.typed_expressions.specs.internal.Views.{contents_view, extents_view, known_view};

use crate::checks::refuse;
use crate::constants::{number_of_characters, number_of_constant, place_of_constant, with_offsets};
use crate::known::Known;
use crate::scalars::{Scalars, scalars_in_element};
use failure::Failure;
use names::{Binding, Entity};
use std::alloc::Global;
use trees::{Constant, Identifier, Offset, Origin, Place, Restricted, ScalarType, StringLiteral};
use typed_trees::{AtAddress, Home, InitialValue, ObjectType};
use typing::{Cause, Fault};

/// How many elements an object is declared with.
#[derive(Clone, Copy)]
pub enum Extents {
    /// It is not an array.
    NoArray,
    /// A given number.
    Elements(u16),
    /// As many as the values of its list need: `(*)`.
    AsListed,
}

/// The contents of an object: its dimension and its values.
#[derive(Drop)]
pub struct Contents {
    /// The number of elements of an array. One that a list gives may be too great for an object.
    pub dimension: Option<u32>,
    /// The values of its scalars, from the first on.
    pub values: Vec<InitialValue>,
}

// Whether the objects of other modules may be located.
#[derive(Clone, Copy)]
enum Reach {
    ThisModule,
    OtherModulesToo,
}

// The value of a restricted expression: a number, or a distance from where an object begins.
#[derive(Clone, Copy)]
enum RestrictedValue {
    Number(u16),
    FromObject { object: u32, offset: u16 },
}

// The values that fill the first scalars of an object, and the scalars after those.
#[derive(Drop)]
struct Filling {
    scalars: Scalars,
    values: Vec<InitialValue>,
}

// The number of an object whose address is known before the program runs.
fn with_address(reach: Reach, home: &Home, number: u32, place: Place) -> Result<u32, Failure<Fault>>
    ensures { Answers (λ number. number) result
        (home_address (reach_view reach) (home_view home.now) number place) }
{
    match (home, reach) {
        (Home::Frame(_), _) => Err(refuse(Cause::NoLocation, place)),
        (Home::Data(_) | Home::Constant(_) | Home::At(_), _)
        | (Home::External, Reach::OtherModulesToo) => Ok(number),
        _ => Err(refuse(Cause::NoFixedAddress, place)),
    }
}

// The place of the beginning of a restricted expression.
fn place_of_origin(origin: &Origin) -> Place
    ensures { result ≡ origin_place (origin_tree origin.now) }
{
    match origin {
        Origin::Constant(constant) => place_of_constant(constant),
        Origin::Location(name) => name.place,
    }
}

// How many scalars a value takes at most.
fn scalars_at_most(origin: &Origin) -> usize
    ensures { result ≡ most_scalars (origin_tree origin.now) }
{
    match origin {
        Origin::Constant(Constant::String(string)) => string.characters.len().max(1),
        _ => 1,
    }
}

// A number of elements with enough scalars for a list, if the number is no greater than numbers can be.
fn enough_elements(values: &[Restricted]) -> Option<usize>
    ensures { IfSome result (λ count. count ≡ elements_enough (map restricted_tree values.now)) }
{
    let mut count = 0_usize;
    for value in values {
        count = count.checked_add(scalars_at_most(&value.origin))?;
    }
    Some(count)
}

// The least number of elements of `each` scalars that hold `used` scalars. `each` is at least 1.
fn elements_for(place: Place, used: usize, each: usize) -> Result<u32, Failure<Fault>>
    requires { 0 < used → 0 < each }
    ensures { Answers (λ elements. elements) result (elements_listed place used each) }
{
    if used == 0 {
        return Err(refuse(Cause::ImpliedWithoutValues, place));
    }
    match u32::try_from((used - 1) / each + 1) {
        Ok(elements) => Ok(elements),
        Err(_) => Err(Failure::Memory),
    }
}

impl Known {
    // The number of an object, whose address is known before the program runs.
    fn object_with_address(
        &self,
        reach: Reach,
        number: u32,
        name: Identifier,
    ) -> Result<u32, Failure<Fault>>
        ensures { Answers (λ number. number) result
            (static_bound (reach_view reach) (known_view self.now) (Declared (Object number)) name) }
    {
        let place = name.place;
        let object = self.object(name, number)?;
        with_address(reach, &object.home, number, place)
    }

    // The number of an object that a name is bound to, whose address is known before the program runs.
    fn static_bound(
        &self,
        reach: Reach,
        binding: Binding,
        name: Identifier,
    ) -> Result<u32, Failure<Fault>>
        ensures { Answers (λ number. number) result
            (static_bound (reach_view reach) (known_view self.now) binding name) }
    {
        match binding {
            Binding::Declared(Entity::Object(number)) => self.object_with_address(
                reach, number, name,
            ),
            Binding::Declared(Entity::Procedure(_)) => {
                Err(refuse(Cause::NoLocation, name.place))
            }
            _ => Err(refuse(Cause::NoVariable, name.place)),
        }
    }

    // The number of an object that a name stands for, whose address is known before the program runs.
    fn static_object(&self, reach: Reach, name: Identifier) -> Result<u32, Failure<Fault>>
        ensures { Answers (λ number. number) result
            (static_object (reach_view reach) (known_view self.now) name) }
    {
        self.static_bound(reach, self.bound(name)?, name)
    }

    // The value of a restricted expression.
    fn restricted_value(
        &self,
        reach: Reach,
        origin: &Origin,
        offsets: &[Offset],
    ) -> Result<RestrictedValue, Failure<Fault>>
        ensures { Answers value_view result (restricted_value (reach_view reach) (known_view self.now)
            (origin_tree origin.now) (map offset_tree offsets.now)) }
    {
        match origin {
            Origin::Constant(constant) => {
                let number = number_of_constant(constant)?;
                Ok(RestrictedValue::Number(with_offsets(number, offsets)?))
            }
            Origin::Location(name) => {
                let object = self.static_object(reach, *name)?;
                let offset = with_offsets(0, offsets)?;
                Ok(RestrictedValue::FromObject { object, offset })
            }
        }
    }

    /// Where AT puts an object: at a number, or at a distance from the start of an object of this module. Refuses an object
    /// without an address before the program runs.
    pub fn at_address(&self, restricted: &Restricted) -> Result<AtAddress, Failure<Fault>>
        ensures { Answers (λ address. address) result
            (at_address (known_view self.now) (restricted_tree restricted.now)) }
    {
        match self.restricted_value(
            Reach::ThisModule,
            &restricted.origin,
            restricted.offsets.as_slice(),
        )? {
            RestrictedValue::Number(number) => Ok(AtAddress::AtNumber(number)),
            RestrictedValue::FromObject { object, offset } => {
                Ok(AtAddress::AtObject { object, offset })
            }
        }
    }

    // Fills scalars with a value of a list.
    fn fill_value(
        &self,
        object_type: &ObjectType,
        restricted: &Restricted,
        filling: &mut Filling,
    ) -> Result<(), Failure<Fault>>
        ensures { Leaves result (filled_view (type_view object_type.now) filling.new)
            (onto filling.old.values.items (value_filled (known_view self.now)
            (left_of (type_view object_type.now) filling.old.scalars)
            (restricted_tree restricted.now).origin (restricted_tree restricted.now).offsets)) }
    {
        match &restricted.origin {
            Origin::Constant(Constant::String(string)) if restricted.offsets.is_empty() => {
                filling.fill_string(object_type, string)
            }
            origin => {
                let offsets = restricted.offsets.as_slice();
                let value = self.restricted_value(Reach::OtherModulesToo, origin, offsets)?;
                filling.fill_scalar(object_type, place_of_origin(origin), value)
            }
        }
    }

    // The values that fill the scalars of `elements` elements from the first on.
    fn fill(
        &self,
        object_type: &ObjectType,
        values: &[Restricted],
        elements: usize,
    ) -> Result<Vec<InitialValue>, Failure<Fault>>
        ensures { Answers vec_items result (values_filled (known_view self.now) (map restricted_tree values.now)
            (scalars_of_elements elements (type_view object_type.now))) }
    {
        let mut filling = Filling::new(self.alloc, object_type, elements);
        for value in values {
            self.fill_value(object_type, value, &mut filling)?;
        }
        Ok(filling.values)
    }

    // The dimension of an array that is as long as its list, and its values.
    fn contents_as_listed(
        &self,
        place: Place,
        object_type: &ObjectType,
        values: &[Restricted],
    ) -> Result<Contents, Failure<Fault>>
        ensures { Answers contents_view result (contents (known_view self.now) place
            (type_view object_type.now) AsListed (map restricted_tree values.now)) }
    {
        let (Some(elements), Some(each)) = (
            enough_elements(values),
            scalars_in_element(object_type),
        ) else {
            return Err(Failure::Memory);
        };
        let values = self.fill(object_type, values, elements)?;
        let dimension = elements_for(place, values.len(), each)?;
        Ok(Contents {
            dimension: Some(dimension),
            values,
        })
    }

    /// The dimension of an object, and its values, which fill its scalars from the first on. Refuses values that do
    /// not go with their scalars, more values than scalars, and `(*)` without values, the last at the place of the item.
    pub fn contents(
        &self,
        place: Place,
        object_type: &ObjectType,
        extents: Extents,
        values: &[Restricted],
    ) -> Result<Contents, Failure<Fault>>
        ensures { Answers contents_view result (contents (known_view self.now) place
            (type_view object_type.now) (extents_view extents) (map restricted_tree values.now)) }
    {
        match extents {
            Extents::NoArray => Ok(Contents {
                dimension: None,
                values: self.fill(object_type, values, 1)?,
            }),
            Extents::Elements(count) => Ok(Contents {
                dimension: Some(u32::from(count)),
                values: self.fill(object_type, values, usize::from(count))?,
            }),
            Extents::AsListed => self.contents_as_listed(place, object_type, values),
        }
    }
}

impl Filling {
    // A filling of `elements` elements without values so far.
    fn new(alloc: Global, object_type: &ObjectType, elements: usize) -> Filling
        ensures { filled_view (type_view object_type.now) result
            ≡ record { values = []; left = scalars_of_elements elements (type_view object_type.now) } }
    {
        Filling {
            scalars: Scalars::new(object_type, elements),
            values: Vec::new(alloc),
        }
    }

    // Fills a scalar with a value.
    fn fill_scalar(
        &mut self,
        object_type: &ObjectType,
        place: Place,
        value: RestrictedValue,
    ) -> Result<(), Failure<Fault>>
        ensures { Leaves result (filled_view (type_view object_type.now) self.new)
            (onto self.old.values.items
            (scalar_filled place (left_of (type_view object_type.now) self.old.scalars) (value_view value))) }
    {
        let filled = match (self.scalars.next(object_type), value) {
            (Some(ScalarType::Byte), RestrictedValue::Number(number)) => {
                match u8::try_from(number) {
                    Ok(byte) => InitialValue::ByteValue(byte),
                    Err(_) => return Err(refuse(Cause::NotByte, place)),
                }
            }
            (Some(ScalarType::Address), RestrictedValue::Number(number)) => {
                InitialValue::WordValue(number)
            }
            (Some(ScalarType::Address), RestrictedValue::FromObject { object, offset }) => {
                InitialValue::LocationValue { object, offset }
            }
            (Some(ScalarType::Byte), RestrictedValue::FromObject { .. }) => {
                return Err(refuse(Cause::NotByte, place));
            }
            (None, _) => return Err(refuse(Cause::TooManyValues, place)),
        };
        self.values.push(filled)?;
        Ok(())
    }

    // Fills a BYTE with a character.
    fn fill_character(
        &mut self,
        object_type: &ObjectType,
        place: Place,
        character: u8,
    ) -> Result<(), Failure<Fault>>
        ensures { Leaves result (filled_view (type_view object_type.now) self.new)
            (onto self.old.values.items (characters_filled place (character ∷ [])
            (left_of (type_view object_type.now) self.old.scalars))) }
    {
        match self.scalars.next(object_type) {
            Some(ScalarType::Byte) => {
                self.values.push(InitialValue::ByteValue(character))?;
                Ok(())
            }
            _ => Err(refuse(Cause::TooManyValues, place)),
        }
    }

    // Fills a BYTE with each character.
    fn fill_characters(
        &mut self,
        object_type: &ObjectType,
        place: Place,
        characters: &[u8],
    ) -> Result<(), Failure<Fault>>
        ensures { Leaves result (filled_view (type_view object_type.now) self.new)
            (onto self.old.values.items (characters_filled place characters.now
            (left_of (type_view object_type.now) self.old.scalars))) }
    {
        for character in characters {
            self.fill_character(object_type, place, *character)?;
        }
        Ok(())
    }

    // Fills scalars with a string that stands alone.
    fn fill_string(
        &mut self,
        object_type: &ObjectType,
        string: &StringLiteral,
    ) -> Result<(), Failure<Fault>>
        ensures { Leaves result (filled_view (type_view object_type.now) self.new)
            (onto self.old.values.items (string_filled (string_tree string.now)
            (left_of (type_view object_type.now) self.old.scalars))) }
    {
        let place = string.place;
        let characters = string.characters.as_slice();
        match self.scalars.first(object_type) {
            Some(ScalarType::Address) => match number_of_characters(characters) {
                Some(number) => {
                    self.fill_scalar(object_type, place, RestrictedValue::Number(number))
                }
                None => Err(refuse(Cause::StringNotNumber, place)),
            },
            _ => self.fill_characters(object_type, place, characters),
        }
    }
}
