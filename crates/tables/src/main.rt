//! Carries out the command lines of standard input over files in memory, and prints those whose answer is not the expected
//! one. A block begins with the words of a command line after `$ `. Then come its files, each a line `@ NAME` and the
//! lines of its text, where a last line that ends in `\` has no line feed, and `x ` stands before bytes in hexadecimal digits;
//! then its files that are written, after `& ` in place of `@ `; then what is printed, a line after `> `, and as
//! faults, a line after `! `; then how many calls of files failed, after `% `, where some did; then the exit status after
//! `= `; and at last a line `====`. A line `* COUNT PIECE` of a text stands for COUNT pieces without an end, and `>* COUNT
//! LINE` for COUNT lines of what is printed; `>?` and `!?` say only that something is printed. So no line of a text begins
//! with `$ `, `@ `, `& `, `x `, `% `, `= `, `* `, `>`, `!` or `damage `. Of the carriage returns that end a line the last one is
//! no part of it.
//! A file `closed.obj` can't be begun, and `broken.obj` takes three bytes.
//! Each command line is carried out again for each of its calls of files, with that call failing: it is to be refused with U3, to
//! print nothing, and of a file that it is said to write to have written a beginning at most. But where that call reads the table of
//! `--explain=TABLE`, only the explanation is to be another, which says that the table can't be read.
//! A line `damage` between blocks has the bytes of an object file in hexadecimal digits. Each of them is changed to each other
//! value, and a line is printed at once: how many changes there were, how many were answered otherwise than by the first fault of
//! a record's length or sum, as a plain walk over the records finds it, and how many have which of these faults.
//! Each program that a command line runs is also compiled to object files, which are merged and printed as Intel HEX: it is
//! counted how often these are other bytes than those of the image that is built of the sources.
//! Then it prints what the machine, its parts and the interpreter do, as the manuals say it; what a program does that is executed,
//! where it may lie, and what the code of expressions computes; objects that are read, walked over, placed, loaded and run, texts of
//! Intel HEX that are read, and how commands end whose output fails part way; whether help has each number with the words of its fault;
//! what long code and code with many labels is; what calls answer that are made twice; what words, names and trees sources have; and at
//! last whether the document of the routines, the file `runtime.md` where the program runs, is as it is made here, or else that document.
//! With the word `code` or `twice` it reads no standard input, and prints what code is alone, or the answers to calls that are made twice,
//! for a test that refuses its allocations.
//!
//! What is said was written by hand from the rules of the language in `docs/definition.md`, of object files in
//! `docs/formats.md` and of the commands in `docs/commands.md`, or computed from them by other programs that share
//! nothing with this one.
#![tactic(auto)]

mod adjusting;
mod arguments;
mod assemblies;
mod block;
mod calls;
mod codes;
mod damage;
mod events;
mod executed;
mod expressions;
mod faulty;
mod interpreting;
mod linked;
mod memory_files;
mod names_of_sources;
mod objects;
mod operations;
mod page;
mod readers;
mod routines;
mod runs;
mod scanned;
mod scripts;
mod sentences;
mod shape;
mod shorter;
mod texts;
mod trees_of_sources;
mod twice;

use adjusting::print_adjusting;
use anyhow::Result;
use assemblies::print_assemblies;
use block::{Answer, Block};
use codes::print_codes;
use damage::print_damage;
use executed::print_execution;
use expressions::print_expressions;
use host::HostFiles;
use interpreting::print_programs;
use linked::is_linked_alike;
use names_of_sources::print_names;
use objects::print_objects;
use operations::print_operations;
use page::Page;
use routines::print_routines;
use runs::print_runs;
use scripts::print_scripts;
use sentences::print_sentences;
use shorter::print_shorter;
use std::env;
use std::io::read_to_string;
use trees_of_sources::print_trees;
use twice::print_twice;

// The line after a block.
const END_OF_BLOCK: &str = "====";

// How many there were, and how many of them are others than they are to be.
#[derive(Drop)]
struct Count {
    all: u64,
    others: u64,
}

impl Count {
    // Before anything is counted.
    fn new() -> Count {
        Count { all: 0, others: 0 }
    }

    // Counts one.
    fn add(&mut self, is_right: bool) {
        self.all = self.all.saturating_add(1);
        if !is_right {
            self.others = self.others.saturating_add(1);
        }
    }

    // Prints both.
    fn print(&self, page: &mut Page, what: &str, differ: &str) {
        page.number("", self.all);
        page.number(what, self.others);
        page.text(differ);
    }
}

// How many lines were read; the answers to command lines, those where a call of files failed, and the images that were compared with
// those by way of object files.
#[derive(Drop)]
struct Counts {
    lines: u64,
    answers: Count,
    stopped: Count,
    images: Count,
}

// Counts an answer; where it is another than it is to be, prints it.
fn count_answer(
    page: &mut Page,
    count: &mut Count,
    block: &Block,
    answer: &Answer,
    is_right: bool,
) {
    count.add(is_right);
    if !is_right {
        page.number("line ", block.place);
        page.text(": ");
        answer.print(page);
        page.text("\n");
    }
}

// Carries out a command line once more for each of its calls of files, with that one failing: it is to stop there, or to be
// without the table of its explanation.
fn fail_each(page: &mut Page, count: &mut Count, block: &Block, words: &[&str], calls: u64) {
    for call in 0..calls {
        let answer = Answer::of(page.alloc(), block, words, call);
        let is_right = answer.is_refused_for_file(block) || answer.lacks_table(block);
        count_answer(page, count, block, &answer, is_right);
    }
}

// Compares the image of a command line with that by way of object files, where there is one; where it is another, prints the line.
fn compare_images(page: &mut Page, count: &mut Count, block: &Block, words: &[&str]) {
    let Some(is_same) = is_linked_alike(page.alloc(), block, words) else {
        return;
    };
    count.add(is_same);
    if !is_same {
        page.number("line ", block.place);
        page.text(": another image by way of object files\n");
    }
}

// Carries out a block, with no call of files failing and with each. Where it is refused there is no image to compare.
fn run_block(page: &mut Page, counts: &mut Counts, block: &Block) {
    let Ok(words) = block.words(page.alloc()) else {
        return page.note(false);
    };
    let words = words.as_slice();
    let answer = Answer::of(page.alloc(), block, words, u64::MAX);
    let is_right = answer.is_as_said(block);
    count_answer(page, &mut counts.answers, block, &answer, is_right);
    fail_each(page, &mut counts.stopped, block, words, answer.calls);
    if answer.status != 1 && answer.status != 2 {
        compare_images(page, &mut counts.images, block, words);
    }
}

// Takes in a line: changes the object that it writes, or carries out the block that it ends.
fn read_line<'a>(page: &mut Page, counts: &mut Counts, block: &mut Block<'a>, line: &'a str) {
    counts.lines = counts.lines.saturating_add(1);
    if let Some(object) = line.strip_prefix("damage ") {
        print_damage(page, object);
    } else if line == END_OF_BLOCK {
        run_block(page, counts, block);
        *block = Block::new(page.alloc());
    } else {
        let is_read = block.read(page.alloc(), counts.lines, line);
        page.note(is_read);
    }
}

// Carries out the command lines of rows.
fn print_blocks(page: &mut Page, rows: &str) {
    let mut counts = Counts {
        lines: 0,
        answers: Count::new(),
        stopped: Count::new(),
        images: Count::new(),
    };
    let mut block = Block::new(page.alloc());
    for line in rows.lines() {
        read_line(page, &mut counts, &mut block, line);
    }
    counts.answers.print(page, " command lines, ", " differ\n");
    counts
        .stopped
        .print(page, " failing calls of files, ", " answered otherwise\n");
    counts
        .images
        .print(page, " images, ", " differ by way of object files\n");
}

// Prints what the parts of the machine do, the interpreter, and what reads and places objects.
fn print_parts(page: &mut Page) {
    print_codes(page);
    print_operations(page);
    print_runs(page);
    print_scripts(page);
    print_programs(page);
    print_execution(page);
    print_expressions(page);
    print_adjusting(page);
    print_objects(page);
    print_shorter(page);
    print_sentences(page);
    print_assemblies(page);
    print_twice(page);
    print_names(page);
    print_trees(page);
}

// Prints what words order, which begin with the program's own name: what code is, the answers to calls that are made twice, or else the
// answers to the command lines of standard input, what the parts do, what code is, and the routines.
fn print_ordered(rt: &HostRuntime, page: &mut Page, words: &[String]) -> Result<()> {
    match words.get(1).map_or("", |word| word.as_str()) {
        "code" => print_assemblies(page),
        "twice" => print_twice(page),
        _ => {
            let rows = read_to_string(rt.alloc(), rt.reader())?;
            print_blocks(page, rows.as_str());
            print_parts(page);
            print_routines(&mut HostFiles::new(rt), page);
        }
    }
    Ok(())
}

fn main(rt: HostRuntime) -> Result<()> {
    let words: Vec<String> = env::args(&rt)?.collect(rt.alloc())?;
    let mut page = Page::new(rt.alloc());
    print_ordered(&rt, &mut page, words.as_slice())?;
    page.write(&mut rt.stdout())
}
