//! The members of a structure, with a table of their names.

ghost use Rattle.std.specs.Prelude.{◌≡◌, [], ◌∷◌, ◌++◌, IfOk, if◌then◌else◌, length, min, not, slice_get, sum_by};
ghost use Rattle.std.specs.Option.{option_map};
ghost use Rattle.typed_trees.specs.Sizes.{capped, has_member, member_named, size_of_member};

use crate::parts::TypedMember;
use std::alloc::{AllocError, Global};
use std::collections::HashMap;
use std::marker::Model;
use trees::{Name, ScalarType};

/// A member of a structure: its position, counted from 0, its offset in an element (4,294,967,295 if it is
/// greater), and the member.
#[derive(Clone, Copy)]
pub struct FoundMember {
    pub position: usize,
    pub offset: u32,
    pub member: TypedMember,
}

/// The members of a structure, in their order, with what is found under the name of each.
pub struct Members {
    members: Vec<TypedMember>,
    found: HashMap<Name, FoundMember>,
    size: u32,
}

impl Model for Members {
    ghost use Rattle.std.specs.Prelude.{◌≡◌, ℕ, List, min, sum_by};
    ghost use Rattle.std.specs.Option.{option_map};
    ghost use Rattle.std.specs.Map.{lookup};
    ghost use Rattle.std.specs.Str.{bytes_eq};
    ghost use Rattle.typed_trees.specs.declared.parts.TypedMember.{TypedMember};
    ghost use Rattle.typed_trees.specs.Sizes.{capped, member_named, size_of_member};

    ghost Value = { List TypedMember };

    ghost view = { λ members. members.members.items };

    ghost invariant = { λ members. record {
      found : (name : List ℕ) → lookup (bytes_eq name) members.found.entries
          ≡ option_map capped (member_named members.members.items name);
      whole : members.size ≡ min (sum_by size_of_member members.members.items) 4294967295;
    } };
}

impl Members {
    /// No members.
    pub fn new(alloc: Global) -> Members
        ensures { result ≡ [] }
    {
        Members {
            members: Vec::new(alloc),
            found: HashMap::new(alloc),
            size: 0,
        }
    }

    /// Adds a member after the others. `false`: a member has that name already, and nothing changes.
    #[tactic(auto, using(crate::proofs::MemberTable::has_name))]
    pub fn push(&mut self, member: TypedMember) -> Result<bool, AllocError>
        ensures added { IfOk result (λ added. added ≡ not (has_member self.old member.name)) }
        ensures members { IfOk result (λ added.
            self.new ≡ (if added then self.old ++ member ∷ [] else self.old)) }
    {
        if self.found.contains_key(&member.name) {
            return Ok(false);
        }
        self.members.reserve(1)?;
        let found = FoundMember {
            position: self.members.len(),
            offset: self.size,
            member,
        };
        self.found.insert(member.name, found)?;
        self.members.push(member)?;
        self.size = self.size.saturating_add(member.size());
        Ok(true)
    }

    /// The member of a name.
    #[tactic(auto, using(crate::proofs::MemberTable::found_in))]
    pub fn named(&self, name: Name) -> Option<FoundMember>
        ensures { result ≡ option_map capped (member_named self.now name) }
    {
        self.found.get(&name).copied()
    }

    /// The member at a position, counted from 0.
    pub fn get(&self, position: usize) -> Option<TypedMember>
        ensures { result ≡ slice_get self.now position }
    {
        self.members.get(position).copied()
    }

    /// How many members there are.
    pub fn len(&self) -> usize
        ensures { result ≡ length self.now }
    {
        self.members.len()
    }

    /// How many bytes the members take together (4,294,967,295 if they take more).
    pub fn size(&self) -> u32
        ensures { result ≡ min (sum_by size_of_member self.now) 4294967295 }
    {
        self.size
    }
}

// Written out, so that these are freed here, and each crate that frees members calls this.
impl Drop for Members {
    fn drop(self) {
        let Members {
            members: _,
            found: _,
            size: _,
        } = self;
    }
}
