//! The files of ports, as options write them.

ghost use Rattle.std.specs.Prelude.{◌≡◌, ◌||◌, [], IfOk, IsOk, Ok, Err, map, option_map};
ghost use Rattle.failure.specs.Failure.{IfFault};
ghost use Rattle.clap.specs.Walk.{texts};
ghost use Rattle.command_line.specs.Settings.{file_names, has_file, has_input, input_name, names_in, port_file, port_file_in, port_file_read, port_files_read, port_of_digits};
ghost use Rattle.command_line.specs.internal.Reads.{ReadsFileOfPort};

use crate::start_memory::digits_value;
use crate::values::{InputByte, ValueFault};
use failure::Failure;
use std::alloc::Global;

/// A port, and the file from which its bytes come, or to which they go.
#[derive(Clone, Copy)]
pub struct PortFile<'a> {
    /// The port.
    pub port: u8,
    /// The name of the file.
    pub name: &'a str,
}

// The name of a file, where a dash stands for standard input.
fn input_name_of<'a>(name: &'a str) -> &'a str
    ensures { result.now ≡ input_name name.entry.now }
{
    if name == "-" { "/dev/stdin" } else { name }
}

// The file of a port, by the digits of the port and the name.
fn port_of<'a>(digits: &str, name: &'a str) -> Option<PortFile<'a>>
    ensures { option_map port_file_in result ≡ port_of_digits digits.now name.entry.now }
{
    if name.is_empty() {
        return None;
    }
    match digits_value(digits.as_bytes()) {
        Some(port) => Some(PortFile {
            port,
            name: input_name_of(name),
        }),
        None => None,
    }
}

// The file of a port that a text writes.
fn port_and_name<'a>(text: &'a str) -> Option<PortFile<'a>>
    ensures { option_map port_file_in result ≡ port_file text.entry.now }
{
    match text.split_once(':') {
        Some((digits, name)) => port_of(digits, name),
        None => None,
    }
}

// Whether some bytes of an input are for a port.
fn is_given(input: &[InputByte], port: u8) -> bool
    ensures { result ≡ has_input input.now port }
{
    let mut rest = input;
    while let [one, more @ ..] = rest {
        if one.port == port {
            return true;
        }
        rest = more;
    }
    false
}

/// Whether a port has one of these files.
pub(crate) fn is_named(files: &[PortFile], port: u8) -> bool
    ensures { result ≡ has_file (map port_file_in files.now) port }
{
    let mut rest = files;
    while let [one, more @ ..] = rest {
        if one.port == port {
            return true;
        }
        rest = more;
    }
    false
}

// The file that a text writes, of a port that has neither one of these files nor bytes of an input.
fn file_of<'a>(
    text: &'a str,
    input: &[InputByte],
    files: &[PortFile<'a>],
) -> Result<PortFile<'a>, ValueFault<'a>>
    ensures { ReadsFileOfPort
        (port_file_read input.now (map port_file_in files.now) text.entry.now) result }
{
    match port_and_name(text) {
        Some(file) => {
            if is_given(input, file.port) || is_named(files, file.port) {
                Err(ValueFault { text })
            } else {
                Ok(file)
            }
        }
        None => Err(ValueFault { text }),
    }
}

/// The files of ports that texts write, beside an input. It answers U4 only where a text writes none, or one of a port that
/// has a file or bytes of the input, with the first such text; else the files, or that memory ran out.
pub(crate) fn port_files<'a>(
    alloc: Global,
    words: &[&'a str],
    input: &[InputByte],
) -> Result<Vec<PortFile<'a>>, Failure<ValueFault<'a>>>
    ensures ok { IfOk result (λ files.
        port_files_read input.now (texts words.now) ≡ Ok (map port_file_in files.items)) }
    ensures names { IfOk result (λ files.
        file_names (map port_file_in files.items) ≡ names_in (texts words.now)) }
    ensures fault { IfFault result (λ fault.
        port_files_read input.now (texts words.now) ≡ Err fault.text.now) }
    ensures memory { words.now ≡ [] → IsOk result }
{
    let mut files = Vec::new(alloc);
    let mut rest = words;
    while let [text, more @ ..] = rest {
        match file_of(text, input, files.as_slice()) {
            Ok(file) => files.push(file)?,
            Err(fault) => return Err(Failure::Fault(fault)),
        }
        rest = more;
    }
    Ok(files)
}
