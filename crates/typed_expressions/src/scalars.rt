//! The scalars of an object, one after another.

ghost use Rattle.std.specs.Prelude.{◌≡◌, ◌<◌, IfSome, [], length, slice_get, true, false};
ghost use Rattle.typed_trees.specs.Sizes.{scalars_of_element, scalars_of_elements};
ghost use Rattle.typed_trees.specs.Views.{type_view};
ghost use Rattle.typed_expressions.specs.internal.Fillings.{Takes, first_of, left_of, run_of_member, runs_from, runs_of};

use trees::ScalarType;
use typed_trees::{ObjectType, TypedMember};

// A number of scalars of a type.
#[derive(Clone, Copy)]
struct Run {
    scalar: ScalarType,
    count: u16,
}

/// The scalars that are left of an object, in the order of their addresses: those of a run, those of the members of the
/// element from a position on, and those of the elements after it.
#[derive(Clone, Copy)]
pub(crate) struct Scalars {
    run: Run,
    position: usize,
    elements: usize,
}

// The scalars of a member.
fn run_of(member: TypedMember) -> Run
    ensures { result ≡ run_of_member member }
{
    Run {
        scalar: member.scalar,
        count: member.dimension.unwrap_or(1),
    }
}

// The scalars of a member of an element, by its position. A scalar is one member.
fn run_at(object_type: &ObjectType, position: usize) -> Option<Run>
    ensures { result ≡ slice_get (runs_of (type_view object_type.now)) position }
{
    match object_type {
        ObjectType::Scalar(scalar) if position == 0 => Some(Run {
            scalar: *scalar,
            count: 1,
        }),
        ObjectType::Scalar(_) => None,
        ObjectType::Structure(members) => match members.get(position) {
            Some(member) => Some(run_of(member)),
            None => None,
        },
    }
}

// How many members an element has.
fn number_of_runs(object_type: &ObjectType) -> usize
    ensures { result ≡ length (runs_of (type_view object_type.now)) }
{
    match object_type {
        ObjectType::Scalar(_) => 1,
        ObjectType::Structure(members) => members.len(),
    }
}

/// How many scalars an element has, if the number is no greater than numbers can be.
pub(crate) fn scalars_in_element(object_type: &ObjectType) -> Option<usize>
    ensures { IfSome result (λ count. count ≡ length (scalars_of_element (type_view object_type.now))) }
{
    let mut count = 0_usize;
    for position in 0..number_of_runs(object_type) {
        count = count.checked_add(usize::from(run_at(object_type, position)?.count))?;
    }
    Some(count)
}

impl Scalars {
    /// The scalars of `elements` elements.
    pub(crate) fn new(object_type: &ObjectType, elements: usize) -> Scalars
        ensures { left_of (type_view object_type.now) result
            ≡ scalars_of_elements elements (type_view object_type.now) }
    {
        Scalars {
            run: Run {
                scalar: ScalarType::Byte,
                count: 0,
            },
            position: number_of_runs(object_type),
            elements,
        }
    }

    // Moves to the next member of the element that has scalars. `false`: it has none.
    fn goes_on(&mut self, object_type: &ObjectType) -> bool
        requires { self.old.run.count ≡ 0 }
        ensures left { left_of (type_view object_type.now) self.new
            ≡ left_of (type_view object_type.now) self.old }
        ensures found { result ≡ true → 0 < self.new.run.count }
        ensures none { result ≡ false → runs_from (type_view object_type.now) self.old.position ≡ [] }
        ensures kept { result ≡ false → self.new ≡ self.old }
    {
        for position in self.position..number_of_runs(object_type) {
            if let Some(run) = run_at(object_type, position) {
                if run.count > 0 {
                    self.run = run;
                    self.position = position + 1;
                    return true;
                }
            }
        }
        false
    }

    // Moves to the next run that has scalars. `false`: none has.
    #[tactic(auto, using(crate::proofs::LeftScalars::left_none, crate::proofs::LeftScalars::left_next, crate::proofs::LeftScalars::left_empty))]
    fn has_more(&mut self, object_type: &ObjectType) -> bool
        ensures left { left_of (type_view object_type.now) self.new
            ≡ left_of (type_view object_type.now) self.old }
        ensures found { result ≡ true → 0 < self.new.run.count }
        ensures none { result ≡ false → left_of (type_view object_type.now) self.old ≡ [] }
    {
        if self.run.count > 0 {
            return true;
        }
        if self.goes_on(object_type) {
            return true;
        }
        if self.elements == 0 {
            return false;
        }
        self.elements -= 1;
        self.position = 0;
        if self.goes_on(object_type) {
            return true;
        }
        // Elements have no scalars.
        self.elements = 0;
        false
    }

    /// Takes the first scalar.
    #[tactic(auto, using(crate::proofs::LeftScalars::left_taken))]
    pub(crate) fn next(&mut self, object_type: &ObjectType) -> Option<ScalarType>
        ensures { Takes (left_of (type_view object_type.now) self.old) result
            (left_of (type_view object_type.now) self.new) }
    {
        if self.has_more(object_type) {
            self.run.count -= 1;
            Some(self.run.scalar)
        } else {
            None
        }
    }

    /// The first scalar.
    pub(crate) fn first(&self, object_type: &ObjectType) -> Option<ScalarType>
        ensures { result ≡ first_of (left_of (type_view object_type.now) self.now) }
    {
        let mut ahead = *self;
        ahead.next(object_type)
    }
}
