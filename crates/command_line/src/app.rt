//! What `clap` reads: the program `plm` with its commands and their arguments.

ghost use Rattle.std.specs.Prelude.{◌≡◌, codes, false};
ghost use Rattle.clap.specs.Words.{app_of, new_app, rule_of, with_subcommand};
ghost use Rattle.command_line.specs.Command.{bare_app, compile_app, convert_app, execute_app, explain_app, file_rule, flag_rule, hex_app, link_app, list_app, locate_app, option_rule, plm_app, program_app};
ghost use Rattle.command_line.specs.internal.Building.{Builds, IsBuilt, IsLocal, app_of_command, rule_of_kind, with_arguments, with_commands, with_groups};
ghost use Rattle.command_line.specs.internal.Names.{word_of};

use crate::arguments::{self, Argument, Described, Kind};
use crate::help::{PLM, Teaching, VERSION};
use crate::names::{COMMANDS, CommandName};
use clap::{Arg, ArgAction, Command};
use std::alloc::{AllocError, Global};

// An option with a value.
fn option<'a>(alloc: Global, argument: &'a Argument) -> Arg<'a>
    ensures rule { rule_of result ≡ option_rule argument.entry.now.name.now }
    ensures local { result.global ≡ false }
{
    Arg::new(alloc, argument.name)
        .help(argument.help)
        .value_name(argument.value)
        .long(argument.name)
}

// A flag.
fn flag<'a>(alloc: Global, argument: &'a Argument) -> Arg<'a>
    ensures rule { rule_of result ≡ flag_rule argument.entry.now.name.now }
    ensures local { result.global ≡ false }
{
    Arg::new(alloc, argument.name)
        .help(argument.help)
        .long(argument.name)
        .action(ArgAction::SetTrue)
}

// A file, or another text, that has to be there.
fn file<'a>(alloc: Global, argument: &'a Argument) -> Arg<'a>
    ensures rule { rule_of result ≡ file_rule argument.entry.now.name.now }
    ensures local { result.global ≡ false }
{
    Arg::new(alloc, argument.name)
        .help(argument.help)
        .value_name(argument.value)
        .required(true)
}

// An argument, as `clap` reads it.
fn arg_of<'a>(alloc: Global, argument: &'a Argument) -> Arg<'a>
    ensures rule { rule_of result ≡ rule_of_kind argument.entry.now.kind argument.entry.now.name.now }
    ensures local { result.global ≡ false }
{
    match argument.kind {
        Kind::Plain => option(alloc, argument),
        Kind::Or(text) => option(alloc, argument).default_value(text),
        Kind::Again => option(alloc, argument).action(ArgAction::Append),
        Kind::Needed => option(alloc, argument).required(true),
        Kind::Flag => flag(alloc, argument),
        Kind::File => file(alloc, argument),
        Kind::Files => file(alloc, argument).action(ArgAction::Append),
    }
}

// The command with more arguments.
fn add_arguments<'a>(
    alloc: Global,
    command: Command<'a>,
    arguments: &'a [Argument],
) -> Result<Command<'a>, AllocError>
    requires { IsLocal command }
    ensures { Builds (with_arguments (app_of command.entry) arguments.entry.now) result }
{
    let mut built = command;
    let mut rest = arguments;
    while let [argument, more @ ..] = rest {
        built = built.arg(arg_of(alloc, argument))?;
        rest = more;
    }
    Ok(built)
}

// A command by its word and what help says of it, before any argument.
fn named<'a>(alloc: Global, word: &'a str, teaching: Teaching) -> Command<'a>
    ensures { IsBuilt (new_app word.entry.now) result }
{
    Command::new(alloc, word)
        .about(teaching.about)
        .after_help(teaching.printed)
}

// A command with its arguments.
fn described<'a>(alloc: Global, command: &'a Described) -> Result<Command<'a>, AllocError>
    ensures { Builds
        (with_groups (new_app (word_of command.entry.now.name)) command.entry.now.groups.now) result }
{
    let mut built = named(alloc, command.name.word(), command.teaching);
    let mut rest = command.groups;
    while let [group, more @ ..] = rest {
        built = add_arguments(alloc, built, *group)?;
        rest = more;
    }
    Ok(built)
}

// The command that compiles a source.
fn compile<'a>(alloc: Global) -> Result<Command<'a>, AllocError>
    ensures { Builds (compile_app (codes "compile")) result }
{
    described(alloc, arguments::COMPILE)
}

// The command that builds sources and runs them.
fn run<'a>(alloc: Global) -> Result<Command<'a>, AllocError>
    ensures { Builds (program_app (codes "run")) result }
{
    described(alloc, arguments::RUN)
}

// The command that builds sources and interprets them.
fn interpret<'a>(alloc: Global) -> Result<Command<'a>, AllocError>
    ensures { Builds (program_app (codes "interpret")) result }
{
    described(alloc, arguments::INTERPRET)
}

// The command that links object files.
fn link<'a>(alloc: Global) -> Result<Command<'a>, AllocError>
    ensures { Builds (link_app (codes "link")) result }
{
    described(alloc, arguments::LINK)
}

// The command that prints where an object lies or, with its flag, how much of the stack sources need.
fn locate<'a>(alloc: Global) -> Result<Command<'a>, AllocError>
    ensures { Builds (locate_app (codes "locate")) result }
{
    described(alloc, arguments::LOCATE)
}

// The command that prints the bytes of an object file that is placed.
fn hex<'a>(alloc: Global) -> Result<Command<'a>, AllocError>
    ensures { Builds (hex_app (codes "hex")) result }
{
    described(alloc, arguments::HEX)
}

// The command that lists sources, or an object file that is placed.
fn list<'a>(alloc: Global) -> Result<Command<'a>, AllocError>
    ensures { Builds (list_app (codes "list")) result }
{
    described(alloc, arguments::LIST)
}

// The command that prints the symbols of sources.
fn symbols<'a>(alloc: Global) -> Result<Command<'a>, AllocError>
    ensures { Builds (list_app (codes "symbols")) result }
{
    described(alloc, arguments::SYMBOLS)
}

// The command that runs the merge of object files.
fn execute<'a>(alloc: Global) -> Result<Command<'a>, AllocError>
    ensures { Builds (execute_app (codes "execute")) result }
{
    described(alloc, arguments::EXECUTE)
}

// The command that explains a number.
fn explain<'a>(alloc: Global) -> Result<Command<'a>, AllocError>
    ensures { Builds (explain_app (codes "explain")) result }
{
    described(alloc, arguments::EXPLAIN)
}

// The command that converts an old source.
fn convert<'a>(alloc: Global) -> Result<Command<'a>, AllocError>
    ensures { Builds (convert_app (codes "convert")) result }
{
    described(alloc, arguments::CONVERT)
}

// A command.
fn command_of<'a>(alloc: Global, command: CommandName) -> Result<Command<'a>, AllocError>
    ensures { Builds (app_of_command command) result }
{
    match command {
        CommandName::Compile => compile(alloc),
        CommandName::Run => run(alloc),
        CommandName::Interpret => interpret(alloc),
        CommandName::Link => link(alloc),
        CommandName::Locate => locate(alloc),
        CommandName::Hex => hex(alloc),
        CommandName::List => list(alloc),
        CommandName::Symbols => symbols(alloc),
        CommandName::Execute => execute(alloc),
        CommandName::Explain => explain(alloc),
        CommandName::Convert => convert(alloc),
    }
}

// The program with one more command.
fn add_command<'a>(
    alloc: Global,
    plm: Command<'a>,
    command: CommandName,
) -> Result<Command<'a>, AllocError>
    requires { IsLocal plm }
    ensures { Builds (with_subcommand (app_of plm.entry) (app_of_command command).top) result }
{
    match command_of(alloc, command) {
        Ok(command) => plm.subcommand(command),
        Err(error) => {
            drop(plm);
            Err(error)
        }
    }
}

// The program with more commands.
fn add_commands<'a>(
    alloc: Global,
    plm: Command<'a>,
    commands: &[CommandName],
) -> Result<Command<'a>, AllocError>
    requires { IsLocal plm }
    ensures { Builds (with_commands (app_of plm.entry) commands.now) result }
{
    let mut built = plm;
    let mut rest = commands;
    while let [command, more @ ..] = rest {
        built = add_command(alloc, built, *command)?;
        rest = more;
    }
    Ok(built)
}

// The program `plm`, which has to have a command.
fn bare_command<'a>(alloc: Global) -> Result<Command<'a>, AllocError>
    ensures { Builds bare_app result }
{
    named(alloc, "plm", PLM)
        .version(VERSION)
        .subcommand_required(true)
        .bin_name("plm")
}

/// The program `plm` with its commands.
pub(crate) fn plm_command<'a>(alloc: Global) -> Result<Command<'a>, AllocError>
    ensures { Builds plm_app result }
{
    add_commands(alloc, bare_command(alloc)?, &COMMANDS)
}
