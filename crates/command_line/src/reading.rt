//! The order that the words of a command line give.

ghost use Rattle.std.specs.Prelude.{◌≡◌, ◌<◌, [], IfOk, OnOk, length, codes};
ghost use Rattle.std.specs.Prelude.{Some, option_and_then, option_map};
ghost use Rattle.clap.specs.Walk.{texts};
ghost use Rattle.clap.specs.Words.{fault_of, first_of, found_of, rows_of, subcommand_rows_of};
ghost use Rattle.failure.specs.Failure.{IfFault};
ghost use Rattle.command_line.specs.internal.Orders.{IsFaultOf, Orders, OrdersCompile, OrdersFiles, OrdersJump, OrdersLink, OrdersMap, OrdersWatch};
ghost use Rattle.command_line.specs.Command.{execute_of, wants_execute};
ghost use Rattle.command_line.specs.internal.Orders.{OrdersExecute, OrdersExecuteText, OrdersExecuteWatch};
ghost use Rattle.command_line.specs.Command.{explain_of, wants_explain};
ghost use Rattle.command_line.specs.internal.Orders.{OrdersExplain};
ghost use Rattle.command_line.specs.Command.{convert_of, wants_convert};
ghost use Rattle.command_line.specs.internal.Orders.{OrdersConvert};
ghost use Rattle.command_line.specs.internal.Orders.{OrdersNeed, OrdersPlace, OrdersPlaceText, OrdersText};
ghost use Rattle.command_line.specs.Command.{is_set, link_of, located_of, need_of, place_of, plan_of, files_of, named_in};
ghost use Rattle.command_line.specs.internal.Orders.{plan_in};
ghost use Rattle.command_line.specs.Command.{plm_app, program_of, text_of, texts_of, watch_of};
ghost use Rattle.command_line.specs.Command.{wanted_of_match};
ghost use Rattle.command_line.specs.internal.Orders.{wanted_in};
ghost use Rattle.command_line.specs.Command.{compile_of, wants_compile, wants_link, wants_need, wants_place, wants_program};
ghost use Rattle.command_line.specs.internal.Errors.{IsFailureFor};
ghost use Rattle.command_line.specs.internal.Names.{wanted_of_command};

use crate::app::plm_command;
use crate::names::{CommandName, command_called};
use crate::orders::{
    Action, CompileOrder, ConvertOrder, ExecuteOrder, ExplainOrder, LinkOrder, NeedOrder, Order,
    PlaceAction, PlaceOrder, PlanTexts, ProgramOrder, Watch,
};
use clap::ArgMatches;
use clap::error::ErrorKind;
use failure::Failure;
use std::alloc::{AllocError, Global};
use thiserror::Error;

/// Why the command line gives no order.
#[derive(Debug, Drop, Error)]
pub enum LineFault {
    /// Help was asked for: its text goes to standard output, with status 0.
    #[error("{0}")]
    Help(clap::Error),
    /// The version was asked for: its text goes to standard output, with status 0.
    #[error("{0}")]
    Version(clap::Error),
    /// The words are wrong: the text goes to standard error, with status 2.
    #[error("{0}")]
    Wrong(clap::Error),
}

// The failure that an error of a parse is.
fn failure_of(error: clap::Error) -> Failure<LineFault>
    ensures { IsFailureFor error result }
{
    match error.kind() {
        ErrorKind::OutOfMemory => Failure::Memory,
        ErrorKind::DisplayHelp => Failure::Fault(LineFault::Help(error)),
        ErrorKind::DisplayVersion => Failure::Fault(LineFault::Version(error)),
        _ => Failure::Fault(LineFault::Wrong(error)),
    }
}

// The first text of an argument.
fn first<'a>(matches: &ArgMatches<'a>, name: &str) -> Option<&'a str>
    ensures { option_map (λ text. text.now) result ≡ first_of name.now (rows_of (found_of matches.now)) }
{
    matches.get_str(name)
}

// The texts of an argument that may be given several times.
fn all<'a>(alloc: Global, matches: &ArgMatches<'a>, name: &str) -> Result<Vec<&'a str>, AllocError>
    ensures { IfOk result (λ found. texts found.items ≡ texts_of name.now (rows_of (found_of matches.now))) }
{
    match matches.get_raw(name) {
        Some(found) => Vec::from_slice(alloc, found),
        None => Ok(Vec::new(alloc)),
    }
}

// The files that a command reads.
fn files<'a>(alloc: Global, matches: &ArgMatches<'a>) -> Result<Vec<&'a str>, AllocError>
    ensures { IfOk result (λ files. texts files.items ≡ files_of (rows_of (found_of matches.now))) }
{
    all(alloc, matches, "FILES")
}

// The text of an option that has a default.
fn text<'a>(matches: &ArgMatches<'a>, name: &str) -> &'a str
    ensures { result.now ≡ text_of name.now (rows_of (found_of matches.now)) }
{
    match first(matches, name) {
        Some(text) => text,
        None => "",
    }
}

// Whether a flag was given.
fn flag(matches: &ArgMatches, name: &str) -> bool
    ensures { result ≡ is_set name.now (rows_of (found_of matches.now)) }
{
    match first(matches, name) {
        Some(text) => text == "true",
        None => false,
    }
}

// What is to be watched while a program runs.
fn watch(matches: &ArgMatches) -> Watch
    ensures { result ≡ watch_of (rows_of (found_of matches.now)) }
{
    Watch {
        count: flag(matches, "count"),
        until_dry: flag(matches, "until-dry"),
        place: flag(matches, "where"),
    }
}

// The texts of the options of a plan.
fn plan<'a>(matches: &ArgMatches<'a>) -> PlanTexts<'a>
    ensures { plan_in result ≡ plan_of (rows_of (found_of matches.now)) }
{
    PlanTexts {
        code: text(matches, "code"),
        data_base: text(matches, "data"),
        stack: text(matches, "stack"),
        stack_size: text(matches, "stack-size"),
    }
}

// The order for a command that builds sources, from the matches of its arguments. It is there in each answer, so that
// `order_for` hands it on as it is.
fn program<'a>(
    alloc: Global,
    action: Action,
    matches: &ArgMatches<'a>,
) -> Result<Option<Order<'a>>, AllocError>
    ensures { IfOk result (λ order. option_map wanted_in order
        ≡ Some (wants_program (program_of action (rows_of (found_of matches.now))))) }
{
    let files = files(alloc, matches)?;
    let input_files = all(alloc, matches, "input-file")?;
    let output_files = all(alloc, matches, "output-file")?;
    Ok(Some(Order::Program(ProgramOrder {
        action,
        files,
        plan: plan(matches),
        limit: text(matches, "limit"),
        input: first(matches, "input"),
        input_files,
        output_files,
        watch: watch(matches),
        map: flag(matches, "map"),
        fill: text(matches, "fill"),
        memory: first(matches, "memory"),
    })))
}

// The order to compile, from the matches of its arguments. It is there in each answer, as that of `program`.
fn compile<'a>(matches: &ArgMatches<'a>) -> Result<Option<Order<'a>>, AllocError>
    ensures { IfOk result (λ order. option_map wanted_in order
        ≡ Some (wants_compile (compile_of (rows_of (found_of matches.now))))) }
{
    Ok(Some(Order::Compile(CompileOrder {
        source: text(matches, "SOURCE"),
        object: text(matches, "OBJECT"),
    })))
}

// The order to link, from the matches of its arguments.
fn link<'a>(alloc: Global, matches: &ArgMatches<'a>) -> Result<Option<Order<'a>>, AllocError>
    ensures { IfOk result (λ order. option_map wanted_in order
        ≡ Some (wants_link (link_of (rows_of (found_of matches.now))))) }
{
    let objects = files(alloc, matches)?;
    Ok(Some(Order::Link(LinkOrder {
        out: text(matches, "out"),
        objects,
    })))
}

// The order for a command that places an object file or sources, from the matches of its arguments.
fn place<'a>(
    alloc: Global,
    action: PlaceAction,
    matches: &ArgMatches<'a>,
) -> Result<Option<Order<'a>>, AllocError>
    ensures { IfOk result (λ order. option_map wanted_in order
        ≡ Some (wants_place (place_of action (rows_of (found_of matches.now))))) }
{
    let files = files(alloc, matches)?;
    Ok(Some(Order::Place(PlaceOrder {
        action,
        files,
        plan: plan(matches),
        jump: first(matches, "jump"),
    })))
}

// The order to tell the need of sources, from the matches of its arguments.
fn need<'a>(alloc: Global, matches: &ArgMatches<'a>) -> Result<Option<Order<'a>>, AllocError>
    ensures { IfOk result (λ order. option_map wanted_in order
        ≡ Some (wants_need (need_of (rows_of (found_of matches.now))))) }
{
    let files = files(alloc, matches)?;
    Ok(Some(Order::Need(NeedOrder {
        files,
        plan: plan(matches),
    })))
}

// The order to run objects, from the matches of its arguments.
fn execute<'a>(alloc: Global, matches: &ArgMatches<'a>) -> Result<Option<Order<'a>>, AllocError>
    ensures { IfOk result (λ order. option_map wanted_in order
        ≡ Some (wants_execute (execute_of (rows_of (found_of matches.now))))) }
{
    let objects = files(alloc, matches)?;
    let input_files = all(alloc, matches, "input-file")?;
    let output_files = all(alloc, matches, "output-file")?;
    Ok(Some(Order::Execute(ExecuteOrder {
        objects,
        plan: plan(matches),
        limit: text(matches, "limit"),
        input: first(matches, "input"),
        input_files,
        output_files,
        watch: watch(matches),
        fill: text(matches, "fill"),
        memory: first(matches, "memory"),
    })))
}

// The order to explain a number, from the matches of its arguments. It is there in each answer, as that of `program`.
fn explain<'a>(matches: &ArgMatches<'a>) -> Result<Option<Order<'a>>, AllocError>
    ensures { IfOk result (λ order. option_map wanted_in order
        ≡ Some (wants_explain (explain_of (rows_of (found_of matches.now))))) }
{
    Ok(Some(Order::Explain(ExplainOrder {
        number: text(matches, "NUMBER"),
    })))
}

// The order to convert an old source, from the matches of its arguments. It is there in each answer, as that of `program`.
fn convert<'a>(alloc: Global, matches: &ArgMatches<'a>) -> Result<Option<Order<'a>>, AllocError>
    ensures { IfOk result (λ order. option_map wanted_in order
        ≡ Some (wants_convert (convert_of (rows_of (found_of matches.now))))) }
{
    let folders = all(alloc, matches, "folder")?;
    let sets = all(alloc, matches, "set")?;
    Ok(Some(Order::Convert(ConvertOrder {
        file: text(matches, "FILE"),
        listing: flag(matches, "listing"),
        cards: flag(matches, "cards"),
        folders,
        sets,
        lines: first(matches, "lines"),
    })))
}

// The order for the command that prints where an object lies or, with its flag, how much of the stack sources need.
fn locate<'a>(alloc: Global, matches: &ArgMatches<'a>) -> Result<Option<Order<'a>>, AllocError>
    ensures { IfOk result (λ order. option_map wanted_in order
        ≡ Some (located_of (rows_of (found_of matches.now)))) }
{
    if flag(matches, "need") {
        need(alloc, matches)
    } else {
        place(alloc, PlaceAction::Locate, matches)
    }
}

// The order for a command, from the matches of its arguments.
fn order_for<'a>(
    alloc: Global,
    command: CommandName,
    matches: &ArgMatches<'a>,
) -> Result<Option<Order<'a>>, AllocError>
    ensures { IfOk result (λ order.
        option_map wanted_in order ≡ Some (wanted_of_command command (rows_of (found_of matches.now)))) }
{
    match command {
        CommandName::Compile => compile(matches),
        CommandName::Run => program(alloc, Action::Run, matches),
        CommandName::Interpret => program(alloc, Action::Interpret, matches),
        CommandName::Link => link(alloc, matches),
        CommandName::Locate => locate(alloc, matches),
        CommandName::Hex => place(alloc, PlaceAction::Hex, matches),
        CommandName::List => place(alloc, PlaceAction::Listing, matches),
        CommandName::Symbols => place(alloc, PlaceAction::Symbols, matches),
        CommandName::Execute => execute(alloc, matches),
        CommandName::Explain => explain(matches),
        CommandName::Convert => convert(alloc, matches),
    }
}

// The order for the command that a word calls, from the matches of its arguments.
fn order_called<'a>(
    alloc: Global,
    word: &str,
    matches: &ArgMatches<'a>,
) -> Result<Option<Order<'a>>, AllocError>
    ensures { IfOk result (λ order.
        option_map wanted_in order ≡ wanted_of_match (word.now, rows_of (found_of matches.now))) }
{
    match command_called(word) {
        Some(command) => order_for(alloc, command, matches),
        None => Ok(None),
    }
}

// The order in what a parse found.
fn order_in<'a>(alloc: Global, matches: &ArgMatches<'a>) -> Result<Option<Order<'a>>, AllocError>
    ensures { IfOk result (λ order.
        option_map wanted_in order ≡ option_and_then wanted_of_match (subcommand_rows_of matches.now)) }
{
    match matches.subcommand() {
        Some((word, found)) => order_called(alloc, word, found),
        None => Ok(None),
    }
}

// The order in what a parse found, which is given back.
fn order_of<'a>(alloc: Global, matches: ArgMatches<'a>) -> Result<Option<Order<'a>>, AllocError>
    ensures { IfOk result (λ order.
        option_map wanted_in order ≡ option_and_then wanted_of_match (subcommand_rows_of matches.entry)) }
{
    let order = order_in(alloc, &matches);
    drop(matches);
    order
}

/// The order that the words of the command line give. The first word is the program's name. It answers an order
/// where `clap` finds no fault in the words, and else one of the faults that it finds, or that memory ran out. An
/// order has one file at least, or a number.
pub fn command<'a>(alloc: Global, words: &'a [&'a str]) -> Result<Order<'a>, Failure<LineFault>>
    ensures files { OrdersFiles (texts words.entry.now) result }
    ensures option { OrdersText (texts words.entry.now) result }
    ensures map { OrdersMap (texts words.entry.now) result }
    ensures watch { OrdersWatch (texts words.entry.now) result }
    ensures compile { OrdersCompile (texts words.entry.now) result }
    ensures link { OrdersLink (texts words.entry.now) result }
    ensures place { OrdersPlace (texts words.entry.now) result }
    ensures place_option { OrdersPlaceText (texts words.entry.now) result }
    ensures jump { OrdersJump (texts words.entry.now) result }
    ensures need { OrdersNeed (texts words.entry.now) result }
    ensures execute { OrdersExecute (texts words.entry.now) result }
    ensures execute_option { OrdersExecuteText (texts words.entry.now) result }
    ensures execute_watch { OrdersExecuteWatch (texts words.entry.now) result }
    ensures explain { OrdersExplain (texts words.entry.now) result }
    ensures convert { OrdersConvert (texts words.entry.now) result }
    ensures order { IfOk result (λ order. Orders (texts words.entry.now) order) }
    ensures some { IfOk result (λ order. 0 < length (named_in (wanted_in order))) }
    ensures ok { OnOk result (fault_of plm_app (texts words.entry.now) ≡ []) }
    ensures fault { IfFault result (IsFaultOf (fault_of plm_app (texts words.entry.now))) }
{
    let plm = plm_command(alloc)?;
    let matches = match plm.try_get_matches_from(words) {
        Ok(matches) => matches,
        Err(error) => return Err(failure_of(error)),
    };
    match order_of(alloc, matches)? {
        Some(order) => Ok(order),
        None => unreachable!(),
    }
}
