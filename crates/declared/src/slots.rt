//! Where objects lie in the frames of calls.

ghost use Rattle.std.specs.Prelude.{◌≡◌, [], IfOk, length, replicate, sum_by};
ghost use Rattle.typed_trees.specs.Sizes.{size_of_member, size_of_object};
ghost use Rattle.typed_trees.specs.Views.{object_view};

use std::alloc::{AllocError, Global};
use std::marker::Model;
use trees::ScalarType;
use typed_trees::{Home, Members, ObjectType, Typed, TypedObject};

/// An object: the procedure whose frame it is in, if any, where it begins there, and how many bytes it has there.
#[derive(Clone, Copy)]
pub(crate) struct ObjectSlot {
    procedure: Option<usize>,
    start: usize,
    size: usize,
}

/// A number of bytes, from one of them on.
#[derive(Clone, Copy)]
pub(crate) struct Part {
    pub(crate) start: usize,
    pub(crate) size: usize,
}

const NOTHING: Part = Part { start: 0, size: 0 };

/// Where the objects of a module lie in the frames of its procedures, and how many bytes each frame has.
#[derive(Drop)]
pub struct FrameSlots {
    objects: Vec<ObjectSlot>,
    frame_sizes: Vec<usize>,
}

impl Model for FrameSlots {
    ghost use Rattle.std.specs.Prelude.{length, map};
    ghost use Rattle.declared.specs.internal.Frames.{ModuleFrames};
    ghost use Rattle.declared.specs.internal.Slots.{AreSlots, slot_view};

    ghost Value = { ModuleFrames };

    ghost view = { λ slots. record {
      objects = map slot_view slots.objects.items;
      procedures = length slots.frame_sizes.items;
    } };

    ghost invariant = { λ slots. AreSlots slots.objects.items slots.frame_sizes.items };
}

// How many bytes the members of a structure take together. Fails past the greatest usize, which is out of memory.
fn size_of_members(members: &Members) -> Result<usize, AllocError>
    ensures { IfOk result (λ size. size ≡ sum_by size_of_member members.now) }
{
    let mut size: usize = 0;
    for position in 0..members.len() {
        if let Some(member) = members.get(position) {
            let Some(sum) = size.checked_add(member.size() as usize) else {
                // No memory has this many bytes.
                return Err(AllocError);
            };
            size = sum;
        }
    }
    Ok(size)
}

// How many bytes an object takes. Fails past the greatest usize, which is out of memory.
fn exact_size(object: &TypedObject) -> Result<usize, AllocError>
    ensures { IfOk result (λ size. size ≡ size_of_object (object_view object.now)) }
{
    let element = match &object.object_type {
        ObjectType::Scalar(ScalarType::Byte) => 1,
        ObjectType::Scalar(ScalarType::Address) => 2,
        ObjectType::Structure(members) => size_of_members(members)?,
    };
    let count = match object.dimension {
        Some(count) => count as usize,
        None => 1,
    };
    match count.checked_mul(element) {
        Some(size) => Ok(size),
        // No memory has this many bytes.
        None => Err(AllocError),
    }
}

// `count` zeros.
fn zeros(alloc: Global, count: usize) -> Result<Vec<usize>, AllocError>
    ensures { IfOk result (λ zeros. zeros.items ≡ replicate count 0) }
{
    let zeros = vec![in alloc; 0; count]?;
    Ok(zeros)
}

impl FrameSlots {
    ghost use Rattle.std.specs.Prelude.{◌≡◌, ◌∷◌, ◌++◌, ◌+◌, ◌<◌, ◌≤◌, [], None, Some, OnOk, IfOk, length, slice_index, take};
    ghost use Rattle.typed_trees.specs.Views.{module_view, object_view};
    ghost use Rattle.declared.specs.internal.Frames.{frame_object, module_frames, sizes_in};
    ghost use Rattle.declared.specs.internal.Cuts.{total};

    // No objects yet, and a number of procedures.
    fn without_objects(
        alloc: Global,
        objects: usize,
        procedures: usize,
    ) -> Result<FrameSlots, AllocError>
        ensures { IfOk result (λ slots. slots ≡ record { objects = []; procedures = procedures }) }
    {
        let objects = Vec::with_capacity(alloc, objects)?;
        let frame_sizes = zeros(alloc, procedures)?;
        Ok(FrameSlots {
            objects,
            frame_sizes,
        })
    }

    // Adds an object that is in no frame.
    fn add_outside(&mut self) -> Result<(), AllocError>
        ensures { OnOk result (self.new ≡ record self.old {
          objects = self.old.objects ++ record { procedure = None; size = 0 } ∷ [];
        }) }
    {
        self.objects.push(ObjectSlot {
            procedure: None,
            start: 0,
            size: 0,
        })?;
        Ok(())
    }

    // Adds an object of `size` bytes in the frame of a procedure. Fails past the greatest usize, which is out of memory.
    fn add_inside(&mut self, procedure: usize, size: usize) -> Result<(), AllocError>
        ensures { OnOk result (self.new ≡ record self.old {
          objects = self.old.objects ++ record { procedure = Some procedure; size = size } ∷ [];
        }) }
    {
        if procedure >= self.frame_sizes.len() {
            self.objects.push(ObjectSlot {
                procedure: Some(procedure),
                start: 0,
                size,
            })?;
            return Ok(());
        }
        let start = self.frame_sizes[procedure];
        let Some(end) = start.checked_add(size) else {
            // No memory has this many bytes.
            return Err(AllocError);
        };
        self.objects.push(ObjectSlot {
            procedure: Some(procedure),
            start,
            size,
        })?;
        self.frame_sizes[procedure] = end;
        Ok(())
    }

    // Adds an object.
    fn add(&mut self, object: &TypedObject) -> Result<(), AllocError>
        ensures { OnOk result (self.new ≡ record self.old {
          objects = self.old.objects ++ frame_object (object_view object.now) ∷ [];
        }) }
    {
        match object.home {
            Home::Frame(procedure) => {
                let size = exact_size(object)?;
                self.add_inside(procedure as usize, size)
            }
            Home::Data(_)
            | Home::Constant(_)
            | Home::At(_)
            | Home::Based(_)
            | Home::External
            | Home::Absent => self.add_outside(),
        }
    }

    /// The slots of a module. Fails if memory runs out, or if a frame has more bytes than a computer can have.
    pub fn new(alloc: Global, typed: &Typed) -> Result<FrameSlots, AllocError>
        ensures { IfOk result (λ slots. slots ≡ module_frames (module_view typed.now)) }
    {
        let mut slots = FrameSlots::without_objects(
            alloc,
            typed.objects.len(),
            typed.procedures.len(),
        )?;
        for object in typed.objects.as_slice() {
            slots.add(object)?;
        }
        Ok(slots)
    }

    /// How many bytes the frame of a procedure has.
    pub(crate) fn frame_size(&self, procedure: usize) -> usize
        requires { procedure < (self.now).procedures }
        ensures { result ≡ total (sizes_in procedure (self.now).objects) }
    {
        self.frame_sizes[procedure]
    }

    /// The bytes of an object in the frame of a procedure: none if it is not in it.
    #[inline(always)]
    pub(crate) fn part(&self, procedure: usize, object: u32) -> Part
        requires { procedure < (self.now).procedures }
        ensures size { result.size ≡ slice_index (sizes_in procedure (self.now).objects) object }
        ensures start { 0 < result.size
            → result.start ≡ total (take object (sizes_in procedure (self.now).objects)) }
        ensures within { result.start + result.size ≤ total (sizes_in procedure (self.now).objects) }
    {
        let Some(slot) = self.objects.get(object as usize) else {
            return NOTHING;
        };
        if slot.procedure == Some(procedure) {
            Part {
                start: slot.start,
                size: slot.size,
            }
        } else {
            NOTHING
        }
    }
}
