//! Typed modules: their tables.

use crate::members::Members;
use crate::parts::{AtAddress, ConstantItem, GlobalItem, InitialValue, Visibility, scalar_size};
use crate::statement::TypedList;
use std::rc::Rc;
use trees::{Name, ScalarType};

/// The type of an object, or of the elements of an array.
pub enum ObjectType {
    Scalar(ScalarType),
    /// The members of a structure, which the names of an item share.
    Structure(Rc<Members>),
}

/// Where an object lives.
pub enum Home {
    /// In the data segment, filled by INITIAL from its start on.
    Data(Vec<InitialValue>),
    /// Among the constants, filled by DATA in the same way.
    Constant(Vec<InitialValue>),
    /// Where AT puts it.
    At(AtAddress),
    /// At the address that its base has as its value.
    Based(u32),
    /// In another module.
    External,
    /// Nowhere: a parameter of an EXTERNAL procedure.
    Absent,
    /// In the frame of each call of a REENTRANT procedure.
    Frame(u32),
}

/// A variable or a parameter.
pub struct TypedObject {
    pub name: Name,
    /// How many elements an array has.
    pub dimension: Option<u16>,
    pub object_type: ObjectType,
    pub home: Home,
    pub is_public: bool,
    pub is_parameter: bool,
}

/// A procedure, or the main program of a module as one.
pub struct TypedProcedure {
    pub name: Name,
    pub visibility: Visibility,
    pub result: Option<ScalarType>,
    pub is_reentrant: bool,
    /// In the order of the heading.
    pub parameter_types: Vec<ScalarType>,
    /// The numbers of the parameters' objects, in the order of the heading.
    pub parameters: Vec<u32>,
    /// The bytes of the variables of a REENTRANT procedure, without parameters and BASED ones; else 0.
    pub frame_bytes: u32,
    /// No statements if it is EXTERNAL.
    pub body: TypedList,
}

/// A typed module. Its tables are in the order of the text.
pub struct Typed {
    pub name: Name,
    pub objects: Vec<TypedObject>,
    pub procedures: Vec<TypedProcedure>,
    /// The bytes of each constant list.
    pub lists: Vec<Vec<u8>>,
    /// The objects with DATA and the constant lists.
    pub constants: Vec<ConstantItem>,
    /// The PUBLIC and EXTERNAL objects and procedures.
    pub globals: Vec<GlobalItem>,
    /// The statements at the outer level.
    pub main: TypedProcedure,
}

impl ObjectType {
    ghost use Rattle.std.specs.Prelude.{◌≡◌, min};
    ghost use Rattle.typed_trees.specs.Sizes.{size_of_element};
    ghost use Rattle.typed_trees.specs.Views.{type_view};

    /// How many bytes an element takes (4,294,967,295 if it takes more).
    pub fn element_size(&self) -> u32
        ensures { result ≡ min (size_of_element (type_view self.now)) 4294967295 }
    {
        match self {
            ObjectType::Scalar(scalar) => scalar_size(*scalar),
            ObjectType::Structure(members) => members.size(),
        }
    }
}

impl TypedObject {
    ghost use Rattle.std.specs.Prelude.{◌≡◌, min};
    ghost use Rattle.typed_trees.specs.Sizes.{size_of_element, size_of_object};
    ghost use Rattle.typed_trees.specs.Views.{object_view};

    /// How many bytes an element takes (4,294,967,295 if it takes more).
    pub fn element_size(&self) -> u32
        ensures { result ≡ min (size_of_element (object_view self.now).object_type) 4294967295 }
    {
        self.object_type.element_size()
    }

    /// How many bytes it takes (4,294,967,295 if it takes more).
    #[tactic(auto, using(crate::proofs::Capped::capped_product))]
    pub fn size(&self) -> u32
        ensures { result ≡ min (size_of_object (object_view self.now)) 4294967295 }
    {
        let count = match self.dimension {
            Some(count) => count as u32,
            None => 1,
        };
        count.saturating_mul(self.element_size())
    }
}

// Written out, so that these are freed here, and each crate that frees one calls this.
impl Drop for ObjectType {
    fn drop(self) {
        match self {
            ObjectType::Scalar(_) | ObjectType::Structure(_) => {}
        }
    }
}

impl Drop for Home {
    fn drop(self) {
        match self {
            Home::Data(_)
            | Home::Constant(_)
            | Home::At(_)
            | Home::Based(_)
            | Home::External
            | Home::Absent
            | Home::Frame(_) => {}
        }
    }
}

impl Drop for TypedObject {
    fn drop(self) {
        let TypedObject {
            name: _,
            dimension: _,
            object_type: _,
            home: _,
            is_public: _,
            is_parameter: _,
        } = self;
    }
}

impl Drop for TypedProcedure {
    fn drop(self) {
        let TypedProcedure {
            name: _,
            visibility: _,
            result: _,
            is_reentrant: _,
            parameter_types: _,
            parameters: _,
            frame_bytes: _,
            body: _,
        } = self;
    }
}

impl Drop for Typed {
    fn drop(self) {
        let Typed {
            name: _,
            objects: _,
            procedures: _,
            lists: _,
            constants: _,
            globals: _,
            main: _,
        } = self;
    }
}
