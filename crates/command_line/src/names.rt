//! The commands of `plm`, and the word that calls each.

ghost use Rattle.std.specs.Prelude.{◌≡◌};
ghost use Rattle.command_line.specs.internal.Names.{command_in, word_of};
ghost use Rattle.command_line.specs.declared.names.TheConstants.{COMMANDS};

/// A command.
#[derive(Clone, Copy)]
pub(crate) enum CommandName {
    /// Compile a source.
    Compile,
    /// Build sources and run them.
    Run,
    /// Build sources and interpret them.
    Interpret,
    /// Link object files.
    Link,
    /// Tell where an object lies, or what stack sources need.
    Locate,
    /// Print an object as Intel HEX.
    Hex,
    /// List sources or an object.
    List,
    /// Print the symbols of sources.
    Symbols,
    /// Link object files and run them.
    Execute,
    /// Explain a number.
    Explain,
    /// Convert an old source.
    Convert,
}

/// The commands, in the order of help.
pub(crate) const COMMANDS: [CommandName; 11] = [
    CommandName::Compile,
    CommandName::Run,
    CommandName::Interpret,
    CommandName::Link,
    CommandName::Locate,
    CommandName::Hex,
    CommandName::List,
    CommandName::Symbols,
    CommandName::Execute,
    CommandName::Explain,
    CommandName::Convert,
];

impl CommandName {
    /// The word that calls the command.
    pub(crate) fn word(self) -> &'static str
        ensures { result.now ≡ word_of self }
    {
        match self {
            CommandName::Compile => "compile",
            CommandName::Run => "run",
            CommandName::Interpret => "interpret",
            CommandName::Link => "link",
            CommandName::Locate => "locate",
            CommandName::Hex => "hex",
            CommandName::List => "list",
            CommandName::Symbols => "symbols",
            CommandName::Execute => "execute",
            CommandName::Explain => "explain",
            CommandName::Convert => "convert",
        }
    }
}

/// The command that a word calls.
pub(crate) fn command_called(word: &str) -> Option<CommandName>
    ensures { result ≡ command_in COMMANDS word.now }
{
    let mut rest: &[CommandName] = &COMMANDS;
    while let [command, more @ ..] = rest {
        if word == command.word() {
            return Some(*command);
        }
        rest = more;
    }
    None
}
