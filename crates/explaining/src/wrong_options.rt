//! Options that a command does not have, by those that it has for the same.

use crate::options::command_word;
use crate::sentences::said_of;

// What to write for options of other programs, and what else a command does not take: a line for each.
const OF_LINK: &str = "-o -o is --out here\n";

const OF_COMPILE: &str = "\
-o The object file is the second name: plm compile SOURCE OBJECT
--out The object file is the second name: plm compile SOURCE OBJECT
--output The object file is the second name: plm compile SOURCE OBJECT
";

const OF_CONVERT: &str = "\
-o It prints on standard output: write > FILE after it
--out It prints on standard output: write > FILE after it
--output It prints on standard output: write > FILE after it
-I The folders of included files come after --folder
--include The folders of included files come after --folder
-D A switch that is on comes after --set
--define A switch that is on comes after --set
";

const OF_PRINTING: &str = "\
-o It prints on standard output: write > FILE after it
--out It prints on standard output: write > FILE after it
--output It prints on standard output: write > FILE after it
--org The address of the code comes after --code, in decimal
--origin The address of the code comes after --code, in decimal
";

const OF_RUNS: &str = "\
-i Input comes from --input or --input-file, as --input-file 00:- for standard input at port 0
--stdin Input comes from --input or --input-file, as --input-file 00:- for standard input at port 0
-o Output goes to --output-file, as --output-file 01:- for port 1 on standard output
--out Output goes to --output-file, as --output-file 01:- for port 1 on standard output
--stdout Output goes to --output-file, as --output-file 01:- for port 1 on standard output
--org The address of the code comes after --code, in decimal
--origin The address of the code comes after --code, in decimal
";

const OF_EXPLAIN: &str = "\
BYTE plm explain takes one word. plm explain OUTSIDE explains each reason
CONSTANT plm explain takes one word. plm explain OUTSIDE explains each reason
DIVIDE plm explain takes one word. plm explain OUTSIDE explains each reason
STACK plm explain takes one word. plm explain OUTSIDE explains each reason
";

// The same for `plm -v`, and for `-V` after any command.
const OF_ALONE: &str = "-v plm --version prints the version\n";

const OF_ALL: &str = "-V plm --version prints the version\n";

// The option that is refused in what a command line printed, where no similar one is named there.
fn refused_option(printed: &[u8]) -> Option<&str> {
    let text = std::str::from_utf8(printed).unwrap_or("");
    let (_, rest) = text.split_once("error: unexpected argument '")?;
    let (option, after) = rest.split_once("' found")?;
    if after.contains("a similar argument exists") {
        None
    } else {
        Some(option)
    }
}

// What to write for options that a command does not have.
fn options_of(command: &str) -> &'static str {
    match command {
        "link" => OF_LINK,
        "compile" => OF_COMPILE,
        "convert" => OF_CONVERT,
        "hex" | "list" | "locate" | "symbols" => OF_PRINTING,
        "run" | "interpret" | "execute" => OF_RUNS,
        "explain" => OF_EXPLAIN,
        "-v" => OF_ALONE,
        _ => "",
    }
}

// What to write for an option that a command does not have, where it is likely one of another program.
fn cure_of(command: &str, option: &str) -> Option<&'static str> {
    let option = option.as_bytes();
    said_of(options_of(command), option).or(said_of(OF_ALL, option))
}

/// What to write for an option that the command line of these words was refused for, by what was printed of that.
pub(crate) fn cure_of_option(words: &[&str], printed: &[u8]) -> Option<&'static str> {
    cure_of(command_word(words), refused_option(printed)?)
}
