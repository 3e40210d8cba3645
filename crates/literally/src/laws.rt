//! A law that follows from the definition of expansions. The function does nothing: its contract is the law.

ghost use Rattle.std.specs.Prelude.{List};
ghost use Rattle.words.specs.Spelling.{Lexeme};
ghost use Rattle.literally.specs.Expansion.{HasOneExpansion};

/// Each list of words has just one expansion, or it has a fault.
pub fn one_expansion()
    ensures { (words : List Lexeme) → HasOneExpansion words }
{}
