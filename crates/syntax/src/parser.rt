//! The parser.

ghost use Rattle.std.specs.Prelude.{◌≡◌, ◌≢◌, ◌≤◌, true, List, [], OnOk, IfOk, IfErr, Some};
ghost use Rattle.failure.specs.Failure.{IfFault};
ghost use Rattle.words.specs.Spelling.{Lexeme, lexemes_of};
ghost use Rattle.grammar.specs.declared.TheConstants.{NESTING_LIMIT};
ghost use Rattle.grammar.specs.Derivation.{Derives, DerivesAtMostOne, DerivesButForDepth, DerivesButForEndName, DerivesModule};
ghost use Rattle.grammar.specs.Symbols.{symbols_of};
ghost use Rattle.trees.specs.Trees.{ModuleTree};
ghost use Rattle.trees.specs.internal.Views.{module_tree};
ghost use Rattle.syntax.specs.Faults.{IsOfDepth, IsOfEndName, IsRefused, IsWrongWith};
ghost use Rattle.syntax.specs.internal.Results.{cause_of, Gives};
ghost use Rattle.syntax.specs.internal.Inside.{Makes, block_trees};
ghost use Rattle.syntax.specs.internal.Reader.{Unexpected};
ghost use Rattle.syntax.specs.internal.Statements.{module_of, module_head, module_end, whole_module};

use crate::fault::Fault;
use crate::reader::Reader;
use failure::Failure;
use grammar::NESTING_LIMIT;
use std::alloc::Global;
use std::marker::Model;
use trees::{Block, Identifier, Module, Place};
use words::{Mark, ReservedWord, Word};

/// The module that the words derive. Takes time and memory in proportion to the words (which no clause says).
pub fn parse(alloc: Global, words: &[Word]) -> Result<Module, Failure<Fault>>
    ensures ok { IfOk result (λ parsed. Derives (lexemes_of words.now) (module_tree parsed)) }
    ensures one_tree { (all : List Lexeme) → DerivesAtMostOne all }
    ensures refused { IfFault result
        (λ fault. (tree : ModuleTree) → Derives (lexemes_of words.now) tree → ⊥) }
    ensures wrong { IfFault result (λ fault. (tree : ModuleTree)
        → DerivesModule (symbols_of (lexemes_of words.now)) tree
        → IsWrongWith fault tree) }
    ensures depth { DerivesButForDepth (lexemes_of words.now) → IsRefused result IsOfDepth }
    ensures end_name { DerivesButForEndName (lexemes_of words.now) → IsRefused result IsOfEndName }
{
    let mut reader = Reader::new(alloc, words);
    reader.take_module(NESTING_LIMIT)
}

// A module of its parts.
fn module_of(name: Identifier, place: Place, body: Block, end_name: Option<Identifier>) -> Module
    ensures { module_tree result ≡ module_of name place (block_trees body) end_name }
{
    Module {
        name,
        place,
        body,
        end_name,
    }
}

impl<'a> Reader<'a> {
    // name `:` DO `;` {declaration} {statement} END [name] `;`, and nothing after it.
    #[tactic(auto, using(crate::proofs::ModuleParts::module_is, crate::proofs::ReaderResults::fails_bind))]
    fn take_module(&mut self, room: u8) -> Result<Module, Failure<Fault>>
        requires { room ≤ NESTING_LIMIT }
        ensures { Makes module_tree result (whole_module true room self.old) }
    {
        let (name, place) = self.take_module_head()?;
        let body = self.take_block(room)?;
        let end_name = self.take_module_end(&name)?;
        Ok(module_of(name, place, body, end_name))
    }

    // name `:` DO `;`
    fn take_module_head(&mut self) -> Result<(Identifier, Place), Failure<Fault>>
        ensures { Gives (λ found. found) result self.new (module_head self.old) }
    {
        let name = self.take_name()?;
        self.take_mark(Mark::Colon)?;
        let place = self.take_placed(ReservedWord::Do)?;
        self.take_semicolon()?;
        Ok((name, place))
    }

    // END [name] `;`, and nothing after it.
    fn take_module_end(&mut self, own: &Identifier) -> Result<Option<Identifier>, Failure<Fault>>
        ensures { Makes (λ found. found) result (module_end own.now self.old) }
    {
        let end_name = self.take_ending(own)?;
        self.take_end()?;
        Ok(end_name)
    }

    // The end of the words.
    fn take_end(&self) -> Result<(), Failure<Fault>>
        ensures ok { OnOk result (self.now ≡ []) }
        ensures err { IfErr result (λ fault. (cause_of fault ≡ Some Unexpected) × (self.now ≢ [])) }
    {
        if !self.is_at_end() {
            return Err(self.unexpected());
        }
        Ok(())
    }
}
