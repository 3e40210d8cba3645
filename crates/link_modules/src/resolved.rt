//! The targets of the fixes of a module in a merge.

ghost use Rattle.std.specs.Prelude.{◌≡◌, map, IfOk};
ghost use Rattle.std.specs.List.{list_any};
ghost use Rattle.std.specs.Option.{option_map};
ghost use Rattle.object_modules.specs.Displacements.{public_named, start_of, target_of_public};
ghost use Rattle.object_modules.specs.internal.Views.{owned_public_view};
ghost use Rattle.link_laws.specs.internal.Growing.{gain_by, kept_by, meant_at, moves_by, resolved_in};

use crate::linkable::Named;
use crate::placed::{ModuleStart, Placed};
use crate::publics::Publics;
use object_modules::{Fix, FixKind, OwnedPublic, Segment, Target};
use std::alloc::{AllocError, Global};
use std::marker::Model;

/// Where the pieces of a module begin, and the publics that its external names stand for, by their numbers.
#[derive(Drop)]
pub struct Resolved {
    start: ModuleStart,
    meant: Vec<Option<OwnedPublic>>,
}

impl Model for Resolved {
    ghost use Rattle.std.specs.Prelude.{map};
    ghost use Rattle.std.specs.Option.{option_map};
    ghost use Rattle.object_modules.specs.internal.Views.{owned_public_view};
    ghost use Rattle.link_laws.specs.internal.Growing.{Resolved as ResolvedValue};
    ghost use Rattle.link_modules.specs.internal.Views.{start_view};

    ghost Value = { ResolvedValue };

    ghost view = { λ resolved. record {
      start = start_view resolved.start;
      meant = map (option_map owned_public_view) resolved.meant.items;
    } };
}

// The publics that the external names stand for that a module has not handed out yet.
#[tactic(auto, using(link_laws::proofs::PublicWalks::view_handed))]
fn meant_by<'a, L: Named<'a>>(
    alloc: Global,
    publics: &Publics<'_, 'a>,
    walk: &mut L,
) -> Result<Vec<Option<OwnedPublic>>, AllocError>
    ensures { IfOk result (λ meant. map (option_map owned_public_view) meant.items
        ≡ map (public_named publics.now) (L.told walk.old).externals) }
{
    let mut meant = Vec::new(alloc);
    while let Some(name) = walk.next_external() {
        meant.push(publics.named(name))?;
    }
    Ok(meant)
}

// The target of a place that is fixed to a public.
fn target_of(public: &OwnedPublic) -> Option<Target>
    ensures { result ≡ target_of_public (owned_public_view public.now) }
{
    match public.segment {
        Segment::Absolute => None,
        Segment::Code => Some(Target::InSegment(Segment::Code)),
        Segment::Data => Some(Target::InSegment(Segment::Data)),
        Segment::Stack => Some(Target::InSegment(Segment::Stack)),
    }
}

impl Resolved {
    /// The targets of a module in a merge with these publics.
    pub(crate) fn new<'a, L: Named<'a>>(
        alloc: Global,
        publics: &Publics<'_, 'a>,
        placed: &Placed<'_, L>,
    ) -> Result<Resolved, AllocError>
        ensures { IfOk result (λ resolved. resolved ≡ resolved_in publics.now placed.now) }
    {
        let start = placed.starts();
        let meant = meant_by(alloc, publics, &mut placed.walk())?;
        Ok(Resolved { start, meant })
    }

    /// Where the piece of a segment begins; 0 for the absolute one and the stack.
    pub(crate) fn start(&self, segment: Segment) -> u16
        ensures { result ≡ start_of self.now.start segment }
    {
        self.start.of(segment)
    }

    // The public that an external name stands for.
    fn meant(&self, number: u16) -> Option<OwnedPublic>
        ensures { option_map owned_public_view result ≡ meant_at self.now number }
    {
        match self.meant.get(number as usize) {
            Some(found) => *found,
            None => None,
        }
    }

    /// What a place that is fixed to a target gains: how far the target moves, or the address of the public that
    /// it stands for.
    pub(crate) fn gain(&self, target: Target) -> u16
        ensures { result ≡ gain_by self.now target }
    {
        match target {
            Target::InSegment(segment) => self.start(segment),
            Target::External(number) => match self.meant(number) {
                Some(public) => public.offset,
                None => 0,
            },
        }
    }

    /// The target to which a place stays fixed, if it does.
    pub(crate) fn kept(&self, target: Target) -> Option<Target>
        ensures { result ≡ kept_by self.now target }
    {
        match target {
            Target::InSegment(segment) => Some(Target::InSegment(segment)),
            Target::External(number) => match self.meant(number) {
                Some(public) => target_of(&public),
                None => None,
            },
        }
    }

    // Whether a fix is one of a high byte that gains a number that is not a multiple of 256.
    fn moves(&self, fix: &Fix) -> bool
        ensures { result ≡ moves_by self.now fix.now }
    {
        match fix.kind {
            FixKind::Low => false,
            FixKind::High => self.gain(fix.target) % 256 != 0,
            FixKind::Both => false,
        }
    }

    /// Whether any of these fixes is one.
    pub(crate) fn any_moves(&self, fixes: &[Fix]) -> bool
        ensures { result ≡ list_any (moves_by self.now) fixes.now }
    {
        for fix in fixes {
            if self.moves(fix) {
                return true;
            }
        }
        false
    }
}
