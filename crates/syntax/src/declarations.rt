//! What DECLARE declares, and the heads of procedures.

ghost use Rattle.std.specs.Prelude.{◌≡◌, Ok, map};
ghost use Rattle.std.specs.Option.{option_map};
ghost use Rattle.trees.specs.internal.Views.{origin_tree, restricted_tree, item_type_tree, at_tree, value_list_tree, subject_tree, item_tree, element_tree, heading_tree, offset_tree};
ghost use Rattle.syntax.specs.internal.Declarations.{origin, next_sign, all_offsets, restricted, next_scalar, scalar, result_type, count, dimension_inside, dimension, member, item_type, next_linkage, linkage, at, next_storage, value_list, base, names, item_after, structure, definition, single_item, group_element, element_after, element, parameters, reentrant, heading};
ghost use Rattle.syntax.specs.internal.Results.{Gives};
ghost use Rattle.syntax.specs.internal.Lists.{items};
ghost use Rattle.syntax.specs.internal.Reader.{name};

use crate::fault::Fault;
use crate::reader::{Reader, or_memory};
use failure::Failure;
use trees::{
    At, Dimension, Element, Heading, Identifier, Item, ItemType, Linkage, Member, Number, Offset,
    Origin, Place, Restricted, ScalarType, Sign, Storage, Subject, ValueList,
};
use words::{Mark, ReservedWord};

impl<'a> Reader<'a> {
    // constant | `.` name
    fn take_origin(&mut self) -> Result<Origin, Failure<Fault>>
        ensures { Gives origin_tree result self.new (origin self.old) }
    {
        if self.at_mark(Mark::Period) {
            self.skip();
            return Ok(Origin::Location(self.take_name()?));
        }
        Ok(Origin::Constant(self.take_constant()?))
    }

    // The next word, if it is a sign.
    fn next_sign(&self) -> Option<Sign>
        ensures { result ≡ next_sign self.now }
    {
        if self.at_mark(Mark::PlusSign) {
            Some(Sign::Plus)
        } else if self.at_mark(Mark::MinusSign) {
            Some(Sign::Minus)
        } else {
            None
        }
    }

    // The next word, if it is BYTE or ADDRESS.
    fn next_scalar(&self) -> Option<ScalarType>
        ensures { result ≡ next_scalar self.now }
    {
        if self.at_word(ReservedWord::Byte) {
            Some(ScalarType::Byte)
        } else if self.at_word(ReservedWord::Address) {
            Some(ScalarType::Address)
        } else {
            None
        }
    }

    // BYTE | ADDRESS
    fn take_scalar(&mut self) -> Result<ScalarType, Failure<Fault>>
        ensures { Gives (λ found. found) result self.new (scalar self.old) }
    {
        match self.next_scalar() {
            Some(found) => {
                self.skip();
                Ok(found)
            }
            None => Err(self.unexpected()),
        }
    }

    // [`(` number `)`]
    fn take_count(&mut self) -> Result<Option<Number>, Failure<Fault>>
        ensures { Gives (λ found. found) result self.new (count self.old) }
    {
        if !self.at_mark(Mark::LeftParenthesis) {
            return Ok(None);
        }
        self.skip();
        let found = self.take_number()?;
        self.take_mark(Mark::RightParenthesis)?;
        Ok(Some(found))
    }

    // `*` | number
    fn take_dimension_inside(&mut self) -> Result<Dimension, Failure<Fault>>
        ensures { Gives (λ found. found) result self.new (dimension_inside self.old) }
    {
        if self.at_mark(Mark::Asterisk) {
            self.skip();
            return Ok(Dimension::Implied);
        }
        Ok(Dimension::Count(self.take_number()?))
    }

    // [`(` number `)` | `(` `*` `)`]
    fn take_dimension(&mut self) -> Result<Option<Dimension>, Failure<Fault>>
        ensures { Gives (λ found. found) result self.new (dimension self.old) }
    {
        if !self.at_mark(Mark::LeftParenthesis) {
            return Ok(None);
        }
        self.skip();
        let found = self.take_dimension_inside()?;
        self.take_mark(Mark::RightParenthesis)?;
        Ok(Some(found))
    }

    // name [`(` number `)`] (BYTE | ADDRESS)
    #[tactic(auto, unfolding(crate::specs::internal::Declarations::member))]
    pub(crate) fn take_member(&mut self) -> Result<Member, Failure<Fault>>
        ensures { Gives (λ found. found) result self.new (member self.old) }
    {
        let name = self.take_name()?;
        let dimension = self.take_count()?;
        let scalar = self.take_scalar()?;
        Ok(Member {
            name,
            dimension,
            scalar,
        })
    }

    // {(`+` | `-`) constant}
    fn take_offsets(&mut self) -> Result<Vec<Offset>, Failure<Fault>>
        ensures { Gives (λ found. map offset_tree found.items) result self.new (all_offsets self.old) }
    {
        let mut found = Vec::new(self.alloc);
        'more: while let Some(sign) = self.next_sign() {
            self.skip();
            let constant = self.take_constant()?;
            found.push(Offset { sign, constant })?;
        }
        found.shrink_to_fit();
        Ok(found)
    }

    // constant {(`+` | `-`) constant} | `.` name {(`+` | `-`) constant}
    #[tactic(auto, unfolding(crate::specs::internal::Declarations::restricted))]
    pub(crate) fn take_restricted(&mut self) -> Result<Restricted, Failure<Fault>>
        ensures { Gives restricted_tree result self.new (restricted self.old) }
    {
        let origin = self.take_origin()?;
        let offsets = self.take_offsets()?;
        Ok(Restricted { origin, offsets })
    }

    // BYTE | ADDRESS | STRUCTURE `(` member {`,` member} `)`
    #[tactic(auto, unfolding(crate::specs::internal::Declarations::item_type))]
    fn take_item_type(&mut self) -> Result<ItemType, Failure<Fault>>
        ensures { Gives item_type_tree result self.new (item_type self.old) }
    {
        if self.at_word(ReservedWord::Structure) {
            self.skip();
            return self.take_structure();
        }
        let found = self.take_scalar()?;
        Ok(ItemType::Scalar(found))
    }

    // `(` member {`,` member} `)`, after STRUCTURE.
    #[tactic(auto, using(crate::proofs::EnclosedLists::member_list, crate::proofs::EnclosedLists::structure_is))]
    fn take_structure(&mut self) -> Result<ItemType, Failure<Fault>>
        ensures { Gives item_type_tree result self.new (structure self.old) }
    {
        let members = self.take_enclosed_list::<Member>()?;
        Ok(ItemType::Structure(members))
    }

    // The next word, if it is PUBLIC or EXTERNAL.
    fn next_linkage(&self) -> Option<Linkage>
        ensures { result ≡ next_linkage self.now }
    {
        if let Some(place) = self.place_of_word(ReservedWord::Public) {
            return Some(Linkage::Public(place));
        }
        let place = self.place_of_word(ReservedWord::External)?;
        Some(Linkage::External(place))
    }

    // [PUBLIC | EXTERNAL]
    fn take_linkage(&mut self) -> Option<Linkage>
        ensures { linkage self.old ≡ Ok (result, self.new) }
    {
        let found = self.next_linkage()?;
        self.skip();
        Some(found)
    }

    // [AT `(` restricted `)`]
    #[tactic(auto, unfolding(crate::specs::internal::Declarations::at))]
    fn take_at(&mut self) -> Result<Option<At>, Failure<Fault>>
        ensures { Gives (option_map at_tree) result self.new (at self.old) }
    {
        let Some(place) = self.place_of_word(ReservedWord::At) else {
            return Ok(None);
        };
        self.skip();
        self.take_mark(Mark::LeftParenthesis)?;
        let address = self.take_restricted()?;
        self.take_mark(Mark::RightParenthesis)?;
        Ok(Some(At { place, address }))
    }

    // The next word, if it is INITIAL or DATA.
    fn next_storage(&self) -> Option<Storage>
        ensures { result ≡ next_storage self.now }
    {
        if let Some(place) = self.place_of_word(ReservedWord::Initial) {
            return Some(Storage::Initial(place));
        }
        let place = self.place_of_word(ReservedWord::Data)?;
        Some(Storage::Data(place))
    }

    // [INITIAL `(` restricted {`,` restricted} `)` | DATA `(` restricted {`,` restricted} `)`]
    #[tactic(auto, using(crate::proofs::EnclosedLists::value_items, crate::proofs::EnclosedLists::value_list_is))]
    fn take_value_list(&mut self) -> Result<Option<ValueList>, Failure<Fault>>
        ensures { Gives (option_map value_list_tree) result self.new (value_list self.old) }
    {
        let Some(storage) = self.next_storage() else {
            return Ok(None);
        };
        self.skip();
        let values = self.take_enclosed_list::<Restricted>()?;
        Ok(Some(ValueList { storage, values }))
    }

    // [BASED name]
    fn take_base(&mut self) -> Result<Option<Identifier>, Failure<Fault>>
        ensures { Gives (λ found. found) result self.new (base self.old) }
    {
        if !self.at_word(ReservedWord::Based) {
            return Ok(None);
        }
        self.skip();
        Ok(Some(self.take_name()?))
    }

    // `(` name {`,` name} `)`
    #[tactic(auto, using(crate::proofs::ListItems::listed), unfolding(crate::specs::internal::Declarations::names))]
    fn take_names(&mut self) -> Result<Vec<Identifier>, Failure<Fault>>
        ensures { Gives (λ found. found.items) result self.new (names self.old) }
    {
        self.take_enclosed_list::<Identifier>()
    }

    // The rest of an item, after its subject.
    fn take_item_after(&mut self, subject: Subject) -> Result<Item, Failure<Fault>>
        ensures { Gives item_tree result self.new (item_after (subject_tree subject) self.old) }
    {
        let dimension = self.take_dimension()?;
        let item_type = self.take_item_type()?;
        let linkage = self.take_linkage();
        let at = self.take_at()?;
        let value_list = self.take_value_list()?;
        Ok(Item {
            subject,
            dimension,
            item_type,
            linkage,
            at,
            value_list,
        })
    }

    // The rest of an element, after the name with which it begins.
    fn take_element_after(&mut self, name: Identifier) -> Result<Element, Failure<Fault>>
        ensures { Gives element_tree result self.new (element_after name self.old) }
    {
        if self.at_word(ReservedWord::Literally) {
            self.skip();
            self.take_definition(name)
        } else {
            self.take_single_item(name)
        }
    }

    // string, after a name and LITERALLY.
    fn take_definition(&mut self, name: Identifier) -> Result<Element, Failure<Fault>>
        ensures { Gives element_tree result self.new (definition name self.old) }
    {
        let text = self.take_string()?;
        or_memory(Element::literally(self.alloc, name, text))
    }

    // An item after its only name.
    fn take_single_item(&mut self, name: Identifier) -> Result<Element, Failure<Fault>>
        ensures { Gives element_tree result self.new (single_item name self.old) }
    {
        let base = self.take_base()?;
        let found = self.take_item_after(Subject::Single { name, base })?;
        or_memory(Element::item(self.alloc, found))
    }

    // name LITERALLY string | item
    pub(crate) fn take_element(&mut self) -> Result<Element, Failure<Fault>>
        ensures { Gives element_tree result self.new (element self.old) }
    {
        if let Some(name) = self.next_name() {
            self.skip();
            return self.take_element_after(name);
        }
        self.take_group()
    }

    // An item that begins with names in parentheses.
    fn take_group(&mut self) -> Result<Element, Failure<Fault>>
        ensures { Gives element_tree result self.new (group_element self.old) }
    {
        let names = self.take_names()?;
        let found = self.take_item_after(Subject::Group(names))?;
        or_memory(Element::item(self.alloc, found))
    }

    // [`(` name {`,` name} `)`]
    fn take_parameters(&mut self) -> Result<Vec<Identifier>, Failure<Fault>>
        ensures { Gives (λ found. found.items) result self.new (parameters self.old) }
    {
        if self.at_mark(Mark::LeftParenthesis) {
            self.take_names()
        } else {
            Ok(Vec::new(self.alloc))
        }
    }

    // [BYTE | ADDRESS]
    fn take_result_type(&mut self) -> Option<ScalarType>
        ensures { result_type self.old ≡ Ok (result, self.new) }
    {
        let found = self.next_scalar()?;
        self.skip();
        Some(found)
    }

    // [REENTRANT]
    fn take_reentrant(&mut self) -> Option<Place>
        ensures { reentrant self.old ≡ Ok (result, self.new) }
    {
        let place = self.place_of_word(ReservedWord::Reentrant)?;
        self.skip();
        Some(place)
    }

    /// name `:` PROCEDURE [`(` name {`,` name} `)`] [BYTE | ADDRESS] [PUBLIC | EXTERNAL] [REENTRANT]
    #[tactic(auto, unfolding(crate::specs::internal::Declarations::heading))]
    pub(crate) fn take_heading(&mut self) -> Result<Heading, Failure<Fault>>
        ensures { Gives heading_tree result self.new (heading self.old) }
    {
        let name = self.take_name()?;
        self.take_mark(Mark::Colon)?;
        self.take_word(ReservedWord::Procedure)?;
        let parameters = self.take_parameters()?;
        let result = self.take_result_type();
        let linkage = self.take_linkage();
        let reentrant = self.take_reentrant();
        Ok(Heading {
            name,
            parameters,
            result,
            linkage,
            reentrant,
        })
    }
}
