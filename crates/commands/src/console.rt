//! Carrying out a command line.

ghost use Rattle.std.specs.Prelude.{◌≡◌, ◌≤◌, [], Ok};
ghost use Rattle.host.specs.internal.Endings.{status_of};
ghost use Rattle.host.specs.Refusals.{TellsOther, TellsRefusal};
ghost use Rattle.clap.specs.Walk.{texts};
ghost use Rattle.clap.specs.Words.{fault_of};
ghost use Rattle.host.specs.Files.{KeepsFiles};
ghost use Rattle.command_line.specs.Command.{plm_app, wanted_by, wants_place};
ghost use Rattle.command_line.specs.internal.Orders.{place_in, wanted_in};
ghost use Rattle.command_line.specs.Settings.{plan_read};
ghost use Rattle.commands.specs.Orders.{AsksHelpAtMost, AsksNoHelp, ChangesAsWanted, ChangesByWords, PrintsAsWanted, PrintsByWords, PrintsObject, PrintsWanted, RefusesAsWanted, RefusesByWords, RefusesNoText, RefusesObject, RefusesPlaced, RunsAsWanted, RunsByWords, StopsAsWanted, StopsByWords, QuietAsWanted, QuietByWords, TellsObjectText, TellsText, TellsTextByWords, WritesAsWanted, WritesByWords, names_by_words, names_of};
ghost use Rattle.commands.specs.Converting.{ConvertsAsWanted, ConvertsByWords, TellsAsWanted, TellsByWords, TellsOutput};
ghost use Rattle.commands.specs.Refusing.{RunsOut};
ghost use Rattle.commands.specs.internal.LineFaults.{IsWrong};

use crate::converting::convert_by_tables;
use crate::explaining::explain_number;
use crate::needing::tell_need;
use crate::programs::compile_file;
use crate::refusals::refuse_value;
use crate::runs::{RunOrder, run_order};
use crate::showing::show_files;
use command_line::{LineFault, Order, PlaceAction, PlaceOrder, command};
use host::{Ending, Failure, Files, refuse_memory, refuse_write};
use mem80::Plan;
use object_commands::{link_files, print_hex, print_places};
use std::alloc::Global;
use std::io::Write;

/// Carries out the words of a command line, which begin with the program's name, and answers the exit status. What it
/// prints goes to `out`, and faults go to `err`, which has nothing more where the status is neither 1 nor 2; a failure of
/// `err` changes no status. It changes no file but that of `link --out`, which has the merge of the objects where the status
/// is 0, that of `compile`, which has an object module then, and that of `convert --lines`, which has the table of the text
/// that is printed; each may have a beginning of it otherwise. None changes
/// where the words have a fault or ask for help or the version. Sources that are run or interpreted, where the status is
/// neither 1 nor 2, have had printed what the machine does with their image, or what they mean, and the status says how
/// that ended; any other command ends with status 0 then, and `compile` and `link` print nothing. A file that can't be read
/// or written is reported, with status 1, just where a failure of the files was counted. The exceptions are a count that is
/// at its greatest value, and a wrong value of the command line. Where no such file is reported, sources that are refused
/// with status 1 have a fault that is told, with nothing printed, or memory ran out, or standard output could not be
/// written: then a beginning of what is printed of them may be there.
/// A run with files of ports that is refused has begun none of them, and printed nothing, unless it had ended. Once it had,
/// the files before one that could not be written are whole, and those after it as they were; standard output comes last.
/// With status 2 no file changes, and nothing is printed. Words with a fault that do not ask for help or for the version never
/// end with status 0, and with status 1 only where memory ran out: then that is told, and nothing is printed.
#[tactic(auto, using(crate::proofs::OrdersKept::status_bound, crate::proofs::OrdersKept::done_is, crate::proofs::OrdersKept::not_done, crate::proofs::OrdersKept::not_refused, crate::proofs::OrdersKept::not_wrong, crate::proofs::OrdersKept::refused_is, crate::proofs::TextsTold::wrong_is))]
pub fn run_command<F: Files, O: Write, E: Write>(
    alloc: Global,
    words: &[&str],
    files: &mut F,
    out: &mut O,
    err: &mut E,
) -> u8
    ensures status { result ≤ 5 }
    ensures unchanged { ChangesByWords (wanted_by (texts words.now)) (F.files files.old) (F.files files.new) }
    ensures idle { (fault_of plm_app (texts words.now) ≡ [] → ⊥) →
        KeepsFiles (F.files files.old) (F.files files.new) }
    ensures written { fault_of plm_app (texts words.now) ≡ [] → result ≡ 0 →
        WritesByWords (wanted_by (texts words.now)) (F.files files.old) (F.files files.new) }
    ensures printed { fault_of plm_app (texts words.now) ≡ [] → result ≡ 0 → PrintsByWords
        (wanted_by (texts words.now)) (F.files files.old) (O.contents out.old) (O.contents out.new) }
    ensures ran { fault_of plm_app (texts words.now) ≡ [] →
        (result ≡ 1 → ⊥) → (result ≡ 2 → ⊥) → RunsByWords
        (wanted_by (texts words.now)) (F.files files.old) (F.files files.new) result
        (E.contents err.old) (E.contents err.new) (O.contents out.old) (O.contents out.new) }
    ensures stopped { (result ≡ 0 → ⊥) →
        StopsByWords (wanted_by (texts words.now)) (F.files files.old) (F.files files.new) }
    ensures untouched { result ≡ 2 → KeepsFiles (F.files files.old) (F.files files.new) }
    ensures refused_text { fault_of plm_app (texts words.now) ≡ [] → result ≡ 2 → TellsTextByWords
        (wanted_by (texts words.now)) (E.contents err.old) (E.contents err.new) }
    ensures not_wrong { AsksHelpAtMost (fault_of plm_app (texts words.now)) →
        (fault_of plm_app (texts words.now) ≡ [] → RefusesNoText (wanted_by (texts words.now))) →
        result ≡ 2 → ⊥ }
    ensures usage { (fault_of plm_app (texts words.now) ≡ [] → ⊥) →
        AsksNoHelp (fault_of plm_app (texts words.now)) → result ≡ 0 → ⊥ }
    ensures wrong { (fault_of plm_app (texts words.now) ≡ [] → ⊥) →
        AsksNoHelp (fault_of plm_app (texts words.now)) → result ≡ 1 →
        RunsOut (F.failures files.old) (F.failures files.new)
        (E.contents err.old) (E.contents err.new) (O.contents out.old) (O.contents out.new) }
    ensures told { result ≡ 1 → TellsByWords (wanted_by (texts words.now))
        (TellsOutput (F.failures files.old) (F.failures files.new) (E.contents err.old) (E.contents err.new))
        (TellsRefusal (F.files files.old) (names_by_words (wanted_by (texts words.now)))
        (F.failures files.old) (F.failures files.new) (E.contents err.old) (E.contents err.new)) }
    ensures converted { fault_of plm_app (texts words.now) ≡ [] → ConvertsByWords
        (wanted_by (texts words.now)) (F.files files.old) (F.files files.new) result
        (F.failures files.old) (F.failures files.new)
        (E.contents err.old) (E.contents err.new) (O.contents out.old) (O.contents out.new) }
    ensures refused { fault_of plm_app (texts words.now) ≡ [] → result ≡ 1 → RefusesByWords
        (wanted_by (texts words.now)) (F.files files.old) (F.files files.new)
        (F.failures files.old) (F.failures files.new)
        (E.contents err.old) (E.contents err.new) (O.contents out.old) (O.contents out.new) }
    ensures silent { result ≡ 2 → O.contents out.new ≡ O.contents out.old }
    ensures faulty { (fault_of plm_app (texts words.now) ≡ [] → ⊥) → result ≤ 2 }
    ensures count { (result ≡ 1 → ⊥) → F.failures files.new ≡ F.failures files.old }
    ensures quiet { (result ≡ 1 → ⊥) → (result ≡ 2 → ⊥) → QuietByWords
        (wanted_by (texts words.now)) (E.contents err.old) (E.contents err.new) }
{
    let ending = end_words(alloc, words, files, out, err);
    ending.status()
}

// Carries out the words of a command line.
#[tactic(auto, using(crate::proofs::OrdersKept::by_words, crate::proofs::OrdersKept::written_by_words, crate::proofs::OrdersKept::prints_by_words, crate::proofs::OrdersKept::stops_by_words, crate::proofs::OrdersKept::tells_by_words, crate::proofs::OrdersKept::converts_by_words, crate::proofs::OrdersKept::refused_mild, crate::proofs::TextsTold::text_by_words))]
fn end_words<F: Files, O: Write, E: Write>(
    alloc: Global,
    words: &[&str],
    files: &mut F,
    out: &mut O,
    err: &mut E,
) -> Ending
    ensures unchanged { ChangesByWords (wanted_by (texts words.now)) (F.files files.old) (F.files files.new) }
    ensures idle { (fault_of plm_app (texts words.now) ≡ [] → ⊥) →
        KeepsFiles (F.files files.old) (F.files files.new) }
    ensures written { fault_of plm_app (texts words.now) ≡ [] → result ≡ Ending.Done →
        WritesByWords (wanted_by (texts words.now)) (F.files files.old) (F.files files.new) }
    ensures printed { fault_of plm_app (texts words.now) ≡ [] → result ≡ Ending.Done → PrintsByWords
        (wanted_by (texts words.now)) (F.files files.old) (O.contents out.old) (O.contents out.new) }
    ensures ran { fault_of plm_app (texts words.now) ≡ [] → (result ≡ Ending.Refused → ⊥) →
        (result ≡ Ending.WrongLine → ⊥) → RunsByWords (wanted_by (texts words.now)) (F.files files.old)
        (F.files files.new) (status_of result)
        (E.contents err.old) (E.contents err.new) (O.contents out.old) (O.contents out.new) }
    ensures stopped { (result ≡ Ending.Done → ⊥) →
        StopsByWords (wanted_by (texts words.now)) (F.files files.old) (F.files files.new) }
    ensures untouched { result ≡ Ending.WrongLine → KeepsFiles (F.files files.old) (F.files files.new) }
    ensures refused_text { fault_of plm_app (texts words.now) ≡ [] → result ≡ Ending.WrongLine →
        TellsTextByWords (wanted_by (texts words.now)) (E.contents err.old) (E.contents err.new) }
    ensures not_wrong { AsksHelpAtMost (fault_of plm_app (texts words.now)) →
        (fault_of plm_app (texts words.now) ≡ [] → RefusesNoText (wanted_by (texts words.now))) →
        result ≡ Ending.WrongLine → ⊥ }
    ensures usage { (fault_of plm_app (texts words.now) ≡ [] → ⊥) →
        AsksNoHelp (fault_of plm_app (texts words.now)) → result ≡ Ending.Done → ⊥ }
    ensures wrong { (fault_of plm_app (texts words.now) ≡ [] → ⊥) →
        AsksNoHelp (fault_of plm_app (texts words.now)) → result ≡ Ending.Refused →
        RunsOut (F.failures files.old) (F.failures files.new)
        (E.contents err.old) (E.contents err.new) (O.contents out.old) (O.contents out.new) }
    ensures told { result ≡ Ending.Refused → TellsByWords (wanted_by (texts words.now))
        (TellsOutput (F.failures files.old) (F.failures files.new) (E.contents err.old) (E.contents err.new))
        (TellsRefusal (F.files files.old) (names_by_words (wanted_by (texts words.now)))
        (F.failures files.old) (F.failures files.new) (E.contents err.old) (E.contents err.new)) }
    ensures converted { fault_of plm_app (texts words.now) ≡ [] → ConvertsByWords
        (wanted_by (texts words.now)) (F.files files.old) (F.files files.new) (status_of result)
        (F.failures files.old) (F.failures files.new)
        (E.contents err.old) (E.contents err.new) (O.contents out.old) (O.contents out.new) }
    ensures refused { fault_of plm_app (texts words.now) ≡ [] → result ≡ Ending.Refused → RefusesByWords
        (wanted_by (texts words.now)) (F.files files.old) (F.files files.new)
        (F.failures files.old) (F.failures files.new)
        (E.contents err.old) (E.contents err.new) (O.contents out.old) (O.contents out.new) }
    ensures silent { result ≡ Ending.WrongLine → O.contents out.new ≡ O.contents out.old }
    ensures faulty { (fault_of plm_app (texts words.now) ≡ [] → ⊥) → status_of result ≤ 2 }
    ensures count { (result ≡ Ending.Refused → ⊥) → F.failures files.new ≡ F.failures files.old }
    ensures quiet { (result ≡ Ending.Refused → ⊥) → (result ≡ Ending.WrongLine → ⊥)
        → QuietByWords (wanted_by (texts words.now)) (E.contents err.old) (E.contents err.new) }
{
    match command(alloc, words) {
        Ok(order) => carry_out(alloc, &order, files, out, err),
        Err(Failure::Fault(fault)) => end_line(&fault, out, err),
        Err(Failure::Memory) => refuse_memory(err),
    }
}

// Prints why the command line gives no order, or the help or the version that it asks for.
#[tactic(auto, using(crate::proofs::OrdersKept::refused_mild))]
fn end_line<O: Write, E: Write>(fault: &LineFault, out: &mut O, err: &mut E) -> Ending
    ensures ending { status_of result ≤ 2 }
    ensures not_wrong { result ≡ Ending.WrongLine → IsWrong fault.now }
    ensures usage { IsWrong fault.now → result ≡ Ending.WrongLine }
    ensures silent { result ≡ Ending.WrongLine → O.contents out.new ≡ O.contents out.old }
    ensures told { result ≡ Ending.Refused → TellsOther (E.contents err.old) (E.contents err.new) }
    ensures quiet { (result ≡ Ending.Refused → ⊥) → (result ≡ Ending.WrongLine → ⊥) →
        E.contents err.new ≡ E.contents err.old }
{
    match fault {
        LineFault::Help(_) | LineFault::Version(_) => match write!(out, "{fault}") {
            Ok(()) => Ending::Done,
            Err(error) => refuse_write(&error, err),
        },
        LineFault::Wrong(_) => {
            let _ = write!(err, "{fault}");
            Ending::WrongLine
        }
    }
}

// Carries out an order.
#[tactic(auto, using(crate::proofs::OrdersKept::kept_as_wanted, crate::proofs::OrdersKept::done_status, crate::proofs::OrdersKept::other_status, crate::proofs::ProgramsTold::refuses_compile, crate::proofs::Explained::refuses_explain, crate::proofs::Printed::stays_written, crate::proofs::ProgramsTold::quiet_as_wanted))]
fn carry_out<F: Files, O: Write, E: Write>(
    alloc: Global,
    order: &Order,
    files: &mut F,
    out: &mut O,
    err: &mut E,
) -> Ending
    ensures unchanged { ChangesAsWanted (wanted_in order.now) (F.files files.old) (F.files files.new) }
    ensures written { result ≡ Ending.Done →
        WritesAsWanted (wanted_in order.now) (F.files files.old) (F.files files.new) }
    ensures printed { result ≡ Ending.Done → PrintsAsWanted (wanted_in order.now) (F.files files.old)
        (O.contents out.old) (O.contents out.new) }
    ensures ran { (result ≡ Ending.Refused → ⊥) → (result ≡ Ending.WrongLine → ⊥) →
        RunsAsWanted (wanted_in order.now) (F.files files.old) (F.files files.new) (status_of result)
        (E.contents err.old) (E.contents err.new) (O.contents out.old) (O.contents out.new) }
    ensures stopped { (result ≡ Ending.Done → ⊥) →
        StopsAsWanted (wanted_in order.now) (F.files files.old) (F.files files.new) }
    ensures untouched { result ≡ Ending.WrongLine → KeepsFiles (F.files files.old) (F.files files.new) }
    ensures refused_text { result ≡ Ending.WrongLine → TellsText (wanted_in order.now)
        (E.contents err.old) (E.contents err.new) }
    ensures told { result ≡ Ending.Refused → TellsAsWanted (wanted_in order.now)
        (TellsOutput (F.failures files.old) (F.failures files.new) (E.contents err.old) (E.contents err.new))
        (TellsRefusal (F.files files.old) (names_of (wanted_in order.now))
        (F.failures files.old) (F.failures files.new) (E.contents err.old) (E.contents err.new)) }
    ensures converted { ConvertsAsWanted (wanted_in order.now) (F.files files.old)
        (F.files files.new) (status_of result) (F.failures files.old) (F.failures files.new)
        (E.contents err.old) (E.contents err.new) (O.contents out.old) (O.contents out.new) }
    ensures refused { result ≡ Ending.Refused → RefusesAsWanted (wanted_in order.now)
        (F.files files.old) (F.files files.new) (F.failures files.old) (F.failures files.new)
        (E.contents err.old) (E.contents err.new) (O.contents out.old) (O.contents out.new) }
    ensures silent { result ≡ Ending.WrongLine → O.contents out.new ≡ O.contents out.old }
    ensures count { (result ≡ Ending.Refused → ⊥) → F.failures files.new ≡ F.failures files.old }
    ensures quiet { (result ≡ Ending.Refused → ⊥) → (result ≡ Ending.WrongLine → ⊥) →
        QuietAsWanted (wanted_in order.now) (E.contents err.old) (E.contents err.new) }
{
    match order {
        Order::Compile(compile) => compile_file(alloc, compile, files, err),
        Order::Program(program) => {
            run_order(alloc, &RunOrder::Sources(program), files, out, err)
        }
        Order::Link(link) => link_files(alloc, link.objects.as_slice(), link.out, files, err),
        Order::Place(place) => carry_out_place(alloc, place, files, out, err),
        Order::Need(need) => tell_need(alloc, need, files, out, err),
        Order::Execute(execute) => {
            run_order(alloc, &RunOrder::Objects(execute), files, out, err)
        }
        Order::Explain(explain) => explain_number(alloc, explain, out, err),
        Order::Convert(convert) => { convert_by_tables(alloc, convert, files, out, err) }
    }
}

// Carries out an order on an object file or on sources that are placed, once the values of its options are known.
#[tactic(auto, using(host::proofs::FilesRead::files_stay, crate::proofs::TextsTold::done_or_refused, crate::proofs::TextsTold::tells_plan, crate::proofs::NeedTold::is_done, crate::proofs::NeedTold::refused_not_done))]
fn carry_out_place<F: Files, O: Write, E: Write>(
    alloc: Global,
    order: &PlaceOrder,
    files: &mut F,
    out: &mut O,
    err: &mut E,
) -> Ending
    ensures unchanged { KeepsFiles (F.files files.old) (F.files files.new) }
    ensures printed { result ≡ Ending.Done → PrintsWanted (place_in order.now) (F.files files.old)
        (O.contents out.old) (O.contents out.new) }
    ensures done { (result ≡ Ending.Refused → ⊥) → (result ≡ Ending.WrongLine → ⊥) →
        result ≡ Ending.Done }
    ensures refused_text { result ≡ Ending.WrongLine → TellsText (wants_place (place_in order.now))
        (E.contents err.old) (E.contents err.new) }
    ensures silent { result ≡ Ending.WrongLine → O.contents out.new ≡ O.contents out.old }
    ensures refused { result ≡ Ending.Refused → RefusesPlaced (place_in order.now) (F.files files.old)
        (F.failures files.old) (F.failures files.new)
        (E.contents err.old) (E.contents err.new) (O.contents out.old) (O.contents out.new) }
    ensures told { result ≡ Ending.Refused → TellsRefusal (F.files files.old)
        (place_in order.now).files
        (F.failures files.old) (F.failures files.new) (E.contents err.old) (E.contents err.new) }
    ensures count { (result ≡ Ending.Refused → ⊥) → F.failures files.new ≡ F.failures files.old }
    ensures quiet { (result ≡ Ending.Refused → ⊥) → (result ≡ Ending.WrongLine → ⊥) →
        E.contents err.new ≡ E.contents err.old }
{
    let plan = match order.plan() {
        Ok(plan) => plan,
        Err(fault) => return refuse_value(&fault, err),
    };
    match order.action {
        PlaceAction::Locate | PlaceAction::Hex => {
            carry_out_object(alloc, order, &plan, files, out, err)
        }
        PlaceAction::Listing | PlaceAction::Symbols => {
            show_files(alloc, order, &plan, files, out, err)
        }
    }
}

// Carries out an order on one object file, once its plan is known.
#[tactic(auto, using(host::proofs::FilesRead::files_stay, crate::proofs::OrdersKept::told_of_only, crate::proofs::TextsTold::done_or_refused, crate::proofs::TextsTold::tells_jump, crate::proofs::TextsTold::tells_second, crate::proofs::NeedTold::is_done, crate::proofs::NeedTold::refused_not_done, crate::proofs::ProgramsTold::refuses_object))]
fn carry_out_object<F: Files, O: Write, E: Write>(
    alloc: Global,
    order: &PlaceOrder,
    plan: &Plan,
    files: &mut F,
    out: &mut O,
    err: &mut E,
) -> Ending
    requires { plan_read (place_in order.now).plan ≡ Ok plan.now }
    ensures unchanged { KeepsFiles (F.files files.old) (F.files files.new) }
    ensures printed { result ≡ Ending.Done → PrintsObject (place_in order.now) (F.files files.old)
        (O.contents out.old) (O.contents out.new) }
    ensures done { (result ≡ Ending.Refused → ⊥) → (result ≡ Ending.WrongLine → ⊥) →
        result ≡ Ending.Done }
    ensures refused_text { result ≡ Ending.WrongLine → TellsObjectText (place_in order.now)
        (E.contents err.old) (E.contents err.new) }
    ensures silent { result ≡ Ending.WrongLine → O.contents out.new ≡ O.contents out.old }
    ensures refused { result ≡ Ending.Refused → RefusesObject (place_in order.now) (F.files files.old)
        (F.failures files.old) (F.failures files.new)
        (E.contents err.old) (E.contents err.new) (O.contents out.old) (O.contents out.new) }
    ensures told { result ≡ Ending.Refused → TellsRefusal (F.files files.old)
        (place_in order.now).files
        (F.failures files.old) (F.failures files.new) (E.contents err.old) (E.contents err.new) }
    ensures count { (result ≡ Ending.Refused → ⊥) → F.failures files.new ≡ F.failures files.old }
    ensures quiet { (result ≡ Ending.Refused → ⊥) → (result ≡ Ending.WrongLine → ⊥) →
        E.contents err.new ≡ E.contents err.old }
{
    let jump = match order.jump() {
        Ok(jump) => jump,
        Err(fault) => return refuse_value(&fault, err),
    };
    let file = match order.file() {
        Ok(file) => file,
        Err(fault) => return refuse_value(&fault, err),
    };
    match order.action {
        PlaceAction::Hex => print_hex(alloc, file, plan, jump, files, out, err),
        PlaceAction::Locate | PlaceAction::Listing | PlaceAction::Symbols => {
            print_places(alloc, file, plan, files, out, err)
        }
    }
}
