//! The offsets of the constants of a module.

ghost use Rattle.std.specs.Prelude.{◌≡◌, ◌≤◌, length, replicate, None, IfOk};
ghost use Rattle.failure.specs.Failure.{IfFault};
ghost use Rattle.typed_trees.specs.Views.{module_view};
ghost use Rattle.typed_trees.specs.Weight.{constant_bytes};
ghost use Rattle.layout.specs.declared.slot.TheConstants.{SEGMENT_LIMIT};
ghost use Rattle.layout.specs.internal.Offsets.{offset_in, put_all, put_first};

use crate::fault::Fault;
use crate::sizes::size_of;
use failure::Failure;
use std::alloc::Global;
use std::marker::Model;
use typed_trees::{ConstantItem, Typed};

/// The offsets among the constants of objects and of lists, by their numbers.
#[derive(Drop)]
pub(crate) struct Offsets {
    objects: Vec<Option<u32>>,
    lists: Vec<Option<u32>>,
}

impl Model for Offsets {
    ghost use Rattle.layout.specs.internal.Offsets.{OffsetTables};

    ghost Value = { OffsetTables };

    ghost view = { λ offsets. record { objects = offsets.objects.items; lists = offsets.lists.items } };
}

impl Offsets {
    ghost use Rattle.layout.specs.internal.Offsets.{put};

    // No offset is known.
    fn new(alloc: Global, objects: usize, lists: usize) -> Result<Offsets, Failure<Fault>>
        ensures ok { IfOk result (λ offsets. offsets ≡ record {
          objects = replicate objects None;
          lists = replicate lists None;
        }) }
        ensures err { IfFault result (λ _. ⊥) }
    {
        Ok(Offsets {
            objects: vec![in alloc; None; objects]?,
            lists: vec![in alloc; None; lists]?,
        })
    }

    // Sets the offset of a constant, if it has none.
    fn put(&mut self, item: ConstantItem, offset: u32)
        ensures { self.new ≡ put self.old item offset }
    {
        match item {
            ConstantItem::ConstantObject(number) => put_first(&mut self.objects, number, offset),
            ConstantItem::ConstantList(number) => put_first(&mut self.lists, number, offset),
        }
    }

    /// The offset of an object, or another if it is not among the constants.
    pub(crate) fn object(&self, number: usize, otherwise: u32) -> u32
        ensures { result ≡ offset_in (self.now).objects number otherwise }
    {
        offset_in(self.objects.as_slice(), number, otherwise)
    }

    /// The offset of a list, or another if it is not among the constants.
    pub(crate) fn list(&self, number: usize, otherwise: u32) -> u32
        ensures { result ≡ offset_in (self.now).lists number otherwise }
    {
        offset_in(self.lists.as_slice(), number, otherwise)
    }
}

fn offset_in(table: &[Option<u32>], number: usize, otherwise: u32) -> u32
    ensures { result ≡ offset_in table.now number otherwise }
{
    match table.get(number) {
        Some(Some(offset)) => *offset,
        _ => otherwise,
    }
}

// A number gets an offset, if it has none.
#[tactic(auto, using(crate::proofs::Tables::put_first_at, crate::proofs::Tables::put_first_past, crate::proofs::Tables::put_first_kept))]
fn put_first(table: &mut Vec<Option<u32>>, number: u32, offset: u32)
    ensures { (table.new).items ≡ put_first (table.old).items number offset }
{
    let index = number as usize;
    if index < table.len() && table[index].is_none() {
        table[index] = Some(offset);
    }
}

/// The offsets of the constants of a module.
#[tactic(auto, using(crate::proofs::Sums::constants_left))]
pub(crate) fn offsets_of(alloc: Global, typed: &Typed) -> Result<Offsets, Failure<Fault>>
    requires small { constant_bytes (module_view typed.now) ≤ SEGMENT_LIMIT }
    ensures ok { IfOk result (λ offsets. offsets ≡ put_all (module_view typed.now) 0
        (module_view typed.now).constants.items
        (record {
          objects = replicate (length (module_view typed.now).objects) None;
          lists = replicate (length (module_view typed.now).constants.lists) None;
        })) }
    ensures err { IfFault result (λ _. ⊥) }
{
    let mut offsets = Offsets::new(alloc, typed.objects.len(), typed.lists.len())?;
    let mut before: u32 = 0;
    for item in &typed.constants {
        offsets.put(*item, before);
        before += size_of(typed, *item);
    }
    Ok(offsets)
}
