//! The options of a command line, and what they take.

use crate::number_spelling::hexadecimal;
use crate::page::{MARGIN, Page, Piece};
use crate::sentences::said_of;

// What an option takes: a line for each.
const VALUES: &str = "\
--code takes a decimal number of 0 to 65535
--data takes a decimal number of 0 to 65535
--stack takes a decimal number of 0 to 65535
--stack-size takes a decimal number of 0 to 65535
--jump takes a decimal number of 0 to 65535
--limit takes a decimal number of 0 to 1000000000000
--fill takes two hexadecimal digits
--memory takes groups as 0080:0461/005C:00: an address, in four hexadecimal digits, a colon and its bytes, in two each; none lies past FFFF
--input-file takes a port, a colon and a file as 00:text.txt; a port has one file, and no bytes of --input
--output-file takes a port, a colon and a file as 01:out.bin; no port and no file is named twice
--input takes groups as 01:0904/02:FF: a port, a colon and its bytes, in two hexadecimal digits each
";

// How what is said of an option begins that takes a decimal number.
const DECIMAL: &str = "takes a decimal number";

// The option whose value `value` is in a word that comes after another, or no text.
fn option_at<'a>(before: &'a str, word: &'a str, value: &str) -> &'a str {
    if word == value && before.starts_with("--") {
        return before;
    }
    match word.split_once('=') {
        Some((option, given)) if given == value && option.starts_with("--") => option,
        _ => "",
    }
}

/// The name of the command among words, which comes after the program's name, or no text.
pub(crate) fn command_word<'a>(words: &[&'a str]) -> &'a str {
    match words {
        [_, command, ..] => *command,
        _ => "",
    }
}

// Adds what an option takes, with the decimal number of a value in hexadecimal digits.
fn add_taken(page: &mut Page, option: &str, taken: &'static str, value: &str) {
    page.pieces(&[
        Piece::Text(MARGIN),
        Piece::Text(option),
        Piece::Text(" "),
        Piece::Text(taken),
    ]);
    if taken.starts_with(DECIMAL)
        && let Some(number) = hexadecimal(value.as_bytes())
    {
        page.pieces(&[
            Piece::Text(": "),
            Piece::Shown(value.as_bytes()),
            Piece::Text(" is "),
            Piece::Number(number),
        ]);
    }
    page.pieces(&[Piece::Text(". See plm explain U4.\n")]);
}

// Adds what each option with the value `value` takes, and tells whether there is one.
fn explain_options(page: &mut Page, words: &[&str], value: &str) -> bool {
    let mut before = "";
    let mut is_found = false;
    for word in words {
        let option = option_at(before, *word, value);
        if let Some(taken) = said_of(VALUES, option.as_bytes()) {
            add_taken(page, option, taken, value);
            is_found = true;
        }
        before = *word;
    }
    is_found
}

// Whether `value` is a word that is no option's value.
fn stands_alone(words: &[&str], value: &str) -> bool {
    let mut before = "";
    for word in words {
        if *word == value && said_of(VALUES, before.as_bytes()).is_none() {
            return true;
        }
        before = *word;
    }
    false
}

// Whether a command takes one file, and `value` is a second one.
fn is_second_file(words: &[&str], value: &str) -> bool {
    match command_word(words) {
        "locate" | "hex" => stands_alone(words, value),
        _ => false,
    }
}

// Adds that no fault has a number, or that the command takes one file.
fn explain_word(page: &mut Page, words: &[&str], value: &str) {
    match command_word(words) {
        "explain" => add_taken(page, "No fault", "has this number", value),
        command => add_taken(page, command, "takes one file", value),
    }
}

/// Adds what each option with the value `value` takes, with the decimal number of a hexadecimal one. Where no option has it, and where it is
/// a second file too, adds what the command takes.
pub(crate) fn explain_value(page: &mut Page, words: &[&str], value: &str) {
    if !explain_options(page, words, value) || is_second_file(words, value) {
        explain_word(page, words, value);
    }
}
