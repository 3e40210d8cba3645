//! Names in tables.

ghost use Rattle.std.specs.Prelude.{◌≡◌, [], OnOk};
ghost use Rattle.std.specs.Map.{lookup};
ghost use Rattle.std.specs.Str.{bytes_eq};
ghost use Rattle.indexmap.specs.IndexMap.{insert_entry};
ghost use Rattle.failure.specs.Failure.{IfFault};

use crate::entity::Entity;
use crate::fault::Fault;
use failure::Failure;
use indexmap::IndexMap;
use std::alloc::Global;
use std::marker::Model;
use trees::Name;

/// Names with their entities.
#[derive(Drop)]
pub(crate) struct Names {
    entries: IndexMap<Name, Entity>,
}

impl Model for Names {
    ghost use Rattle.std.specs.Prelude.{ℕ, List};
    ghost use Rattle.names.specs.declared.entity.Entity.{Entity};

    ghost Value = { List (List ℕ × Entity) };

    ghost view = { λ names. names.entries.entries };
}

impl Names {
    /// No names.
    pub(crate) fn new(alloc: Global) -> Names
        ensures { result ≡ [] }
    {
        Names {
            entries: IndexMap::new(alloc),
        }
    }

    /// What a name stands for.
    pub(crate) fn get(&self, name: Name) -> Option<Entity>
        ensures { result ≡ lookup (bytes_eq name) self.now }
    {
        match self.entries.get(&name) {
            Some(entity) => Some(*entity),
            None => None,
        }
    }

    /// A name stands for this from now on.
    #[tactic(auto, using(symbols::proofs::Keys::same_keys))]
    pub(crate) fn insert(&mut self, name: Name, entity: Entity) -> Result<(), Failure<Fault>>
        ensures ok { OnOk result (self.new ≡ insert_entry bytes_eq self.old name entity) }
        ensures err { IfFault result (λ _. ⊥) }
    {
        self.entries.insert(name, entity)?;
        Ok(())
    }
}
