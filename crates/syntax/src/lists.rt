//! Lists of items between commas.

ghost use Rattle.std.specs.Prelude.{List, map};
ghost use Rattle.grammar.specs.Symbols.{Symbol};
ghost use Rattle.syntax.specs.internal.Results.{Gives};
ghost use Rattle.syntax.specs.internal.Lists.{after_items, items, in_parentheses, Keeps};
ghost use Rattle.syntax.specs.internal.Reader.{Reading};

use crate::fault::Fault;
use crate::reader::Reader;
use failure::Failure;
use trees::{Constant, Element, Identifier, Member, Restricted};
use words::Mark;

/// What may stand between commas.
pub(crate) trait Listed: Drop + Sized {
    ghost Tree: { Type 0 };

    ghost tree_of: { Self → Tree };

    ghost reading: { List Symbol → Reading Tree };

    /// One item.
    fn take(reader: &mut Reader) -> Result<Self, Failure<Fault>>
        ensures { Gives tree_of result reader.new (reading reader.old) };
}

impl<'a> Reader<'a> {
    /// item {`,` item}
    pub(crate) fn take_list<T: Listed>(&mut self) -> Result<Vec<T>, Failure<Fault>>
        requires { Keeps T.reading }
        ensures { Gives (λ found. map T.tree_of found.items) result self.new (items T.reading self.old) }
    {
        let mut found = Vec::with_capacity(self.alloc, 1)?;
        self.add_items(&mut found)?;
        found.shrink_to_fit();
        Ok(found)
    }

    // Adds item {`,` item} to what was found before.
    fn add_items<T: Listed>(&mut self, found: &mut Vec<T>) -> Result<(), Failure<Fault>>
        requires { Keeps T.reading }
        ensures { Gives (λ _. map T.tree_of found.new.items) result self.new
            (after_items (map T.tree_of found.old.items) (items T.reading self.old)) }
    {
        'more: loop {
            let next = T::take(self)?;
            found.push(next)?;
            if !self.at_mark(Mark::Comma) {
                return Ok(());
            }
            self.skip();
        }
    }

    /// `(` item {`,` item} `)`
    pub(crate) fn take_enclosed_list<T: Listed>(&mut self) -> Result<Vec<T>, Failure<Fault>>
        requires { Keeps T.reading }
        ensures { Gives (λ found. map T.tree_of found.items) result self.new
            (in_parentheses (items T.reading) self.old) }
    {
        self.take_mark(Mark::LeftParenthesis)?;
        let found = self.take_list::<T>()?;
        self.take_mark(Mark::RightParenthesis)?;
        Ok(found)
    }
}

impl Listed for Constant {
    ghost use Rattle.trees.specs.Trees.{ConstantTree};
    ghost use Rattle.trees.specs.internal.Views.{constant_tree};
    ghost use Rattle.syntax.specs.internal.Reader.{constant};

    ghost Tree = { ConstantTree };

    ghost tree_of = { constant_tree };

    ghost reading = { constant };

    fn take(reader: &mut Reader) -> Result<Constant, Failure<Fault>> {
        reader.take_constant()
    }
}

impl Listed for Identifier {
    ghost use Rattle.trees.specs.declared.identifier.Identifier as identifiers;
    ghost use Rattle.syntax.specs.internal.Reader.{name};

    ghost Tree = { identifiers.Identifier };

    ghost tree_of = { λ found. found };

    ghost reading = { name };

    fn take(reader: &mut Reader) -> Result<Identifier, Failure<Fault>> {
        reader.take_name()
    }
}

impl Listed for Member {
    ghost use Rattle.trees.specs.declared.declaration.Member as members;
    ghost use Rattle.syntax.specs.internal.Declarations.{member};

    ghost Tree = { members.Member };

    ghost tree_of = { λ found. found };

    ghost reading = { member };

    fn take(reader: &mut Reader) -> Result<Member, Failure<Fault>> {
        reader.take_member()
    }
}

impl Listed for Restricted {
    ghost use Rattle.trees.specs.Trees.{RestrictedTree};
    ghost use Rattle.trees.specs.internal.Views.{restricted_tree};
    ghost use Rattle.syntax.specs.internal.Declarations.{restricted};

    ghost Tree = { RestrictedTree };

    ghost tree_of = { restricted_tree };

    ghost reading = { restricted };

    fn take(reader: &mut Reader) -> Result<Restricted, Failure<Fault>> {
        reader.take_restricted()
    }
}

impl Listed for Element {
    ghost use Rattle.trees.specs.Trees.{ElementTree};
    ghost use Rattle.trees.specs.internal.Views.{element_tree};
    ghost use Rattle.syntax.specs.internal.Declarations.{element};

    ghost Tree = { ElementTree };

    ghost tree_of = { element_tree };

    ghost reading = { element };

    fn take(reader: &mut Reader) -> Result<Element, Failure<Fault>> {
        reader.take_element()
    }
}
