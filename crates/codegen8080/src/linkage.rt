//! The EXTERNAL and PUBLIC names of a module, without duplicates.

ghost use Rattle.std.specs.Prelude.{◌≡◌, [], ◌∷◌, ◌++◌, false, length, map, IfOk, IsTrue};
ghost use Rattle.object_modules.specs.Module.{is_among, may_have_publics};
ghost use Rattle.object_modules.specs.internal.Views.{owned_public_view};
ghost use Rattle.codegen8080.specs.internal.Names.{names_of};

use object_modules::{Name, OwnedPublic};
use std::alloc::{AllocError, Global};
use std::marker::Model;

/// The EXTERNAL names that a module refers to, and its PUBLIC names, both in the order of the text, without duplicates.
pub(crate) struct LinkageNames {
    externals: Vec<Name>,
    publics: Vec<OwnedPublic>,
}

impl Model for LinkageNames {
    ghost use Rattle.std.specs.Prelude.{◌≡◌, map};
    ghost use Rattle.object_modules.specs.internal.Views.{owned_public_view};
    ghost use Rattle.codegen8080.specs.internal.Names.{IsLinkage, Linkage};

    ghost Value = { Linkage };

    ghost view = { λ names. record {
      externals = names.externals.items;
      publics = map owned_public_view names.publics.items;
    } };

    ghost invariant = { λ names. IsLinkage (record {
      externals = names.externals.items;
      publics = map owned_public_view names.publics.items;
    }) };
}

impl LinkageNames {
    /// No names.
    pub(crate) fn new(alloc: Global) -> LinkageNames
        ensures { result ≡ record { externals = []; publics = [] } }
    {
        LinkageNames {
            externals: Vec::new(alloc),
            publics: Vec::new(alloc),
        }
    }

    /// The number of EXTERNAL names.
    pub(crate) fn external_count(&self) -> usize
        ensures { result ≡ length self.now.externals }
    {
        self.externals.len()
    }

    /// Adds an EXTERNAL name, which is new, before any PUBLIC one.
    pub(crate) fn with_external(self, name: Name) -> Result<LinkageNames, AllocError>
        requires first { self.publics ≡ [] }
        requires new { is_among name (names_of self) ≡ false }
        ensures publics { IfOk result (λ names. names.publics ≡ []) }
        ensures externals { IfOk result (λ names. names.externals ≡ self.externals ++ name ∷ []) }
    {
        let LinkageNames {
            mut externals,
            publics,
        } = self;
        externals.push(name)?;
        Ok(LinkageNames { externals, publics })
    }

    /// Adds a PUBLIC name, which is new.
    pub(crate) fn with_public(self, public: OwnedPublic) -> Result<LinkageNames, AllocError>
        requires may { IsTrue (may_have_publics public.segment) }
        requires new { is_among public.name (names_of self) ≡ false }
        ensures externals { IfOk result (λ names. names.externals ≡ self.externals) }
        ensures publics { IfOk result
            (λ names. names.publics ≡ self.publics ++ owned_public_view public ∷ []) }
    {
        let LinkageNames {
            externals,
            mut publics,
        } = self;
        publics.push(public)?;
        Ok(LinkageNames { externals, publics })
    }

    /// The EXTERNAL names and the PUBLIC ones.
    pub(crate) fn into_parts(self) -> (Vec<Name>, Vec<OwnedPublic>)
        ensures externals { result.0.items ≡ self.externals }
        ensures publics { map owned_public_view result.1.items ≡ self.publics }
    {
        let LinkageNames { externals, publics } = self;
        (externals, publics)
    }
}

// Written out so that the fields are dropped in one place.
impl Drop for LinkageNames {
    fn drop(self) {
        let LinkageNames {
            externals: _,
            publics: _,
        } = self;
    }
}
