//! The files to which the bytes of ports go, as options write them.

ghost use Rattle.std.specs.Prelude.{◌≡◌, [], IfOk, IsOk, Ok, Err, map, option_map};
ghost use Rattle.failure.specs.Failure.{IfFault};
ghost use Rattle.clap.specs.Walk.{texts};
ghost use Rattle.command_line.specs.Settings.{file_names, has_name, output_file, output_file_read, output_files_read, output_of_digits, outputs_in, port_file_in};
ghost use Rattle.command_line.specs.internal.Reads.{ReadsFileOfPort};

use crate::port_files::{PortFile, is_named};
use crate::start_memory::digits_value;
use crate::values::ValueFault;
use failure::Failure;
use std::alloc::Global;

// The file of a port, by the digits of the port and the name.
fn output_of<'a>(digits: &str, name: &'a str) -> Option<PortFile<'a>>
    ensures { option_map port_file_in result ≡ output_of_digits digits.now name.entry.now }
{
    if name.is_empty() {
        return None;
    }
    match digits_value(digits.as_bytes()) {
        Some(port) => Some(PortFile { port, name }),
        None => None,
    }
}

// The file of a port that a text writes.
fn port_and_output<'a>(text: &'a str) -> Option<PortFile<'a>>
    ensures { option_map port_file_in result ≡ output_file text.entry.now }
{
    match text.split_once(':') {
        Some((digits, name)) => output_of(digits, name),
        None => None,
    }
}

// Whether one of these files has a name.
fn is_used(files: &[PortFile], name: &str) -> bool
    ensures { result ≡ has_name (map port_file_in files.now) name.now }
{
    let mut rest = files;
    while let [one, more @ ..] = rest {
        if one.name == name {
            return true;
        }
        rest = more;
    }
    false
}

// The file that a text writes, of a port that has none of these files, and with another name than theirs.
fn output_after<'a>(text: &'a str, files: &[PortFile<'a>]) -> Result<PortFile<'a>, ValueFault<'a>>
    ensures { ReadsFileOfPort (output_file_read (map port_file_in files.now) text.entry.now) result }
{
    match port_and_output(text) {
        Some(file) => {
            if is_named(files, file.port) || is_used(files, file.name) {
                Err(ValueFault { text })
            } else {
                Ok(file)
            }
        }
        None => Err(ValueFault { text }),
    }
}

/// The files to which the bytes of ports go, as texts write them. It answers U4 only where a text writes none, or one of a
/// port that has a file or with a name that a file has, with the first such text; else the files, or that memory ran out.
pub(crate) fn output_files<'a>(
    alloc: Global,
    words: &[&'a str],
) -> Result<Vec<PortFile<'a>>, Failure<ValueFault<'a>>>
    ensures ok { IfOk result (λ files.
        output_files_read (texts words.now) ≡ Ok (map port_file_in files.items)) }
    ensures names { IfOk result (λ files.
        file_names (map port_file_in files.items) ≡ outputs_in (texts words.now)) }
    ensures fault { IfFault result (λ fault. output_files_read (texts words.now) ≡ Err fault.text.now) }
    ensures memory { words.now ≡ [] → IsOk result }
{
    let mut files = Vec::new(alloc);
    let mut rest = words;
    while let [text, more @ ..] = rest {
        match output_after(text, files.as_slice()) {
            Ok(file) => files.push(file)?,
            Err(fault) => return Err(Failure::Fault(fault)),
        }
        rest = more;
    }
    Ok(files)
}
