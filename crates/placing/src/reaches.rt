//! How far the pieces of a program reach.

ghost use Rattle.std.specs.Prelude.{◌≡◌, ◌+◌, min, length, replicate, IfOk};
ghost use Rattle.mem80.specs.declared.memory.TheConstants.{MEMORY_SIZE};
ghost use Rattle.typed_trees.specs.Sizes.{size_of_object};
ghost use Rattle.typed_trees.specs.Views.{object_view};
ghost use Rattle.placing.specs.internal.Reaches.{no_ends, raised};

use crate::placement::ModulePlacement;
use mem80::MEMORY_SIZE;
use std::alloc::{AllocError, Global};
use std::marker::Model;
use typed_trees::{Home, Typed, TypedObject};

/// For each address the greatest end of the pieces that start there, 0 if none starts: of all pieces, and of the
/// constants. An end past memory counts as the end of memory.
#[derive(Drop)]
pub(crate) struct Reaches {
    all: Vec<u32>,
    constants: Vec<u32>,
}

impl Model for Reaches {
    ghost use Rattle.std.specs.Prelude.{◌≡◌, length};
    ghost use Rattle.mem80.specs.declared.memory.TheConstants.{MEMORY_SIZE};
    ghost use Rattle.placing.specs.internal.Reaches.{ReachTables};

    ghost Value = { ReachTables };

    ghost view = { λ reaches. record { all = reaches.all.items; constants = reaches.constants.items } };

    ghost invariant = { λ reaches.
        (length reaches.all.items ≡ MEMORY_SIZE) × (length reaches.constants.items ≡ MEMORY_SIZE) };
}

// The end of `len` bytes from an address on, or the end of memory if they pass that.
fn end_of(start: u16, len: u32) -> u32
    ensures { result ≡ min (start + len) MEMORY_SIZE }
{
    let end = (start as u32).saturating_add(len);
    end.min(MEMORY_SIZE as u32)
}

// Where an object ends.
fn end_of_object(start: u16, object: &TypedObject) -> u32
    ensures { result ≡ min (start + size_of_object (object_view object.now)) MEMORY_SIZE }
{
    end_of(start, object.size())
}

// Where a constant list ends.
fn end_of_list(start: u16, bytes: &[u8]) -> u32
    ensures { result ≡ min (start + length bytes.now) MEMORY_SIZE }
{
    let len = bytes.len();
    if len < MEMORY_SIZE {
        end_of(start, len as u32)
    } else {
        MEMORY_SIZE as u32
    }
}

// Adds a piece that starts at an address.
fn raise(ends: &mut [u32], start: u16, end: u32)
    requires { length ends.old ≡ MEMORY_SIZE }
    ensures raised { ends.new ≡ raised ends.old start end }
    ensures size { length ends.new ≡ MEMORY_SIZE }
{
    let index = start as usize;
    ends[index] = ends[index].max(end);
}

// `count` zeros.
fn zeros(alloc: Global, count: usize) -> Result<Vec<u32>, AllocError>
    ensures { IfOk result (λ zeros. zeros.items ≡ replicate count 0) }
{
    let zeros = vec![in alloc; 0; count]?;
    Ok(zeros)
}

// A table in which no piece starts anywhere.
fn no_ends(alloc: Global) -> Result<Vec<u32>, AllocError>
    ensures none { IfOk result (λ ends. ends.items ≡ no_ends) }
    ensures size { IfOk result (λ ends. length ends.items ≡ MEMORY_SIZE) }
{
    let ends = zeros(alloc, MEMORY_SIZE)?;
    Ok(ends)
}

impl Reaches {
    ghost use Rattle.std.specs.Prelude.{◌≡◌, ◌<◌, map, slice_index, vec_items, zip, filter_map, flat_map, IfOk};
    ghost use Rattle.typed_trees.specs.Views.{module_view, object_view};
    ghost use Rattle.layout.specs.Placement.{list_piece, object_piece, pieces_of_module};
    ghost use Rattle.placing.specs.Views.{module_placement_view};
    ghost use Rattle.placing.specs.internal.Reaches.{no_reaches, with_end, with_found, with_pieces};

    /// No piece starts anywhere.
    pub(crate) fn new(alloc: Global) -> Result<Reaches, AllocError>
        ensures { IfOk result (λ reaches. reaches ≡ no_reaches) }
    {
        let all = no_ends(alloc)?;
        let constants = no_ends(alloc)?;
        Ok(Reaches { all, constants })
    }

    // Adds a piece that starts at an address.
    fn add(&mut self, start: u16, end: u32, is_constant: bool)
        ensures { self.new ≡ with_end self.old start end is_constant }
    {
        raise(&mut self.all, start, end);
        if is_constant {
            raise(&mut self.constants, start, end);
        }
    }

    // Adds an object at an address.
    fn add_object(&mut self, object: &TypedObject, address: u16)
        ensures { self.new ≡ with_found self.old (object_piece (object_view object.now, address)) }
    {
        match object.home {
            Home::Data(_) | Home::At(_) => {
                self.add(address, end_of_object(address, object), false);
            }
            Home::Constant(_) => self.add(address, end_of_object(address, object), true),
            Home::Based(_) | Home::External | Home::Absent | Home::Frame(_) => (),
        }
    }

    // Adds objects at their addresses.
    fn add_objects(&mut self, objects: &[TypedObject], addresses: &[u16])
        ensures { self.new ≡ with_pieces self.old
            (filter_map object_piece (zip (map object_view objects.now) addresses.now)) }
    {
        let mut rest = objects;
        let mut places = addresses;
        while let [object, more @ ..] = rest {
            let [address, more_places @ ..] = places else {
                return;
            };
            self.add_object(object, *address);
            rest = more;
            places = more_places;
        }
    }

    // Adds constant lists at their addresses.
    fn add_lists(&mut self, lists: &[Vec<u8>], addresses: &[u16])
        ensures { self.new ≡ with_pieces self.old
            (map list_piece (zip (map vec_items lists.now) addresses.now)) }
    {
        let mut rest = lists;
        let mut places = addresses;
        while let [bytes, more @ ..] = rest {
            let [address, more_places @ ..] = places else {
                return;
            };
            self.add(*address, end_of_list(*address, bytes.as_slice()), true);
            rest = more;
            places = more_places;
        }
    }

    // Adds the pieces of a module at their addresses.
    fn add_module(&mut self, typed: &Typed, placed: &ModulePlacement)
        ensures { self.new ≡ with_pieces self.old
            (pieces_of_module (module_view typed.now, module_placement_view placed.now)) }
    {
        self.add_objects(typed.objects.as_slice(), placed.objects.as_slice());
        self.add_lists(typed.lists.as_slice(), placed.lists.as_slice());
    }

    /// Adds the pieces of modules at their addresses.
    pub(crate) fn add_modules(&mut self, modules: &[Typed], placed: &[ModulePlacement])
        ensures { self.new ≡ with_pieces self.old (flat_map pieces_of_module
            (zip (map module_view modules.now) (map module_placement_view placed.now))) }
    {
        let mut rest = modules;
        let mut places = placed;
        while let [typed, more @ ..] = rest {
            let [place, more_places @ ..] = places else {
                return;
            };
            self.add_module(typed, place);
            rest = more;
            places = more_places;
        }
    }

    /// The greatest end of the pieces that start at an address.
    pub(crate) fn end_of_all(&self, address: usize) -> u32
        requires { address < MEMORY_SIZE }
        ensures { result ≡ slice_index (self.now).all address }
    {
        self.all[address]
    }

    /// The greatest end of the constants that start at an address.
    pub(crate) fn end_of_constants(&self, address: usize) -> u32
        requires { address < MEMORY_SIZE }
        ensures { result ≡ slice_index (self.now).constants address }
    {
        self.constants[address]
    }
}
