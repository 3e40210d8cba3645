//! The bytes of ports that come from files.

ghost use Rattle.std.specs.Prelude.{◌≡◌, ◌++◌, IfErr, IfOk, OnOk, flat_map, map, zip};
ghost use Rattle.host.specs.Failure.{IfFault};
ghost use Rattle.clap.specs.Walk.{texts};
ghost use Rattle.host.specs.Files.{Counts, KeepsFiles};
ghost use Rattle.host.specs.Reading.{StopsAt};
ghost use Rattle.command_line.specs.Settings.{file_names, port_file_in, values_in};
ghost use Rattle.commands.specs.InputFiles.{HasInput, bytes_of_file, input_names, input_with, ports_of, quiet_ports, with_texts};

use command_line::{InputByte, PortFile, Settings};
use host::{Failure, FileFault, Files, read_files};
use std::alloc::{AllocError, Global};

// The names of files.
#[tactic(auto, using(crate::proofs::InputFiles::name_put, crate::proofs::InputFiles::all_put))]
fn names_of<'a>(alloc: Global, files: &[PortFile<'a>]) -> Result<Vec<&'a str>, AllocError>
    ensures { IfOk result (λ names. texts names.items ≡ file_names (map port_file_in files.now)) }
{
    let mut names = Vec::new(alloc);
    let mut rest = files;
    while let [file, more @ ..] = rest {
        names.push(file.name)?;
        rest = more;
    }
    Ok(names)
}

// Adds the ports of files.
#[tactic(auto, using(crate::proofs::InputFiles::seen_put, crate::proofs::InputFiles::all_put))]
fn put_ports(quiet: &mut Vec<u8>, files: &[PortFile]) -> Result<(), AllocError>
    ensures { OnOk result (quiet.new.items ≡ quiet.old.items ++ ports_of (map port_file_in files.now)) }
{
    let mut rest = files;
    while let [file, more @ ..] = rest {
        quiet.push(file.port)?;
        rest = more;
    }
    Ok(())
}

/// The ports whose events are not printed.
pub(crate) fn quiet_of(alloc: Global, values: &Settings) -> Result<Vec<u8>, AllocError>
    ensures { IfOk result (λ quiet. quiet.items ≡ quiet_ports (values_in values.now)) }
{
    let mut quiet = Vec::new(alloc);
    put_ports(&mut quiet, values.output_files.as_slice())?;
    put_ports(&mut quiet, values.input_files.as_slice())?;
    Ok(quiet)
}

// Adds the bytes of a file.
#[tactic(auto, using(crate::proofs::InputFiles::item_put, crate::proofs::InputFiles::items_put))]
fn put_bytes(input: &mut Vec<InputByte>, file: &PortFile, bytes: &[u8]) -> Result<(), AllocError>
    ensures { OnOk result (input.new.items
        ≡ input.old.items ++ bytes_of_file (port_file_in file.now, bytes.now)) }
{
    let port = file.port;
    let mut rest = bytes;
    while let [byte, more @ ..] = rest {
        input.push(InputByte { port, byte: *byte })?;
        rest = more;
    }
    Ok(())
}

// Adds the bytes of files.
#[tactic(auto, using(crate::proofs::MapLines::both_added, crate::proofs::MapLines::firsts_ended, crate::proofs::MapLines::looks_ended))]
fn put_files(
    input: &mut Vec<InputByte>,
    files: &[PortFile],
    texts: &[Vec<u8>],
) -> Result<(), AllocError>
    ensures { OnOk result (input.new.items ≡ input.old.items
        ++ flat_map bytes_of_file (zip (map port_file_in files.now) (map (λ text. text.items) texts.now))) }
{
    let mut files = files;
    let mut texts = texts;
    while let [file, more @ ..] = files {
        let [text, others @ ..] = texts else {
            return Ok(());
        };
        put_bytes(input, file, text.as_slice())?;
        files = more;
        texts = others;
    }
    Ok(())
}

// The bytes of files, and then those of an input.
fn joined(
    alloc: Global,
    files: &[PortFile],
    texts: &[Vec<u8>],
    input: &[InputByte],
) -> Result<Vec<InputByte>, AllocError>
    ensures { IfOk result (λ all. all.items ≡
        input_with (map port_file_in files.now) (map (λ text. text.items) texts.now) input.now) }
{
    let mut all = Vec::new(alloc);
    put_files(&mut all, files, texts)?;
    all.extend_from_slice(input)?;
    Ok(all)
}

// Adds the bytes of the files, which are these texts, to the input.
fn add_texts(alloc: Global, values: &mut Settings, texts: &[Vec<u8>]) -> Result<(), AllocError>
    ensures { OnOk result (values_in values.new ≡
        with_texts (values_in values.old) (map (λ text. text.items) texts.now)) }
{
    let input = joined(
        alloc,
        values.input_files.as_slice(),
        texts,
        values.input.as_slice(),
    )?;
    values.input = input;
    Ok(())
}

/// Reads the files from which the bytes of ports come, in the order of the options, and adds their bytes to the input. After
/// a failure the values are as they were. A fault comes with the name of its file, all before which were read, and is one
/// failure that was counted.
#[tactic(auto, using(host::proofs::FilesRead::files_stay))]
pub(crate) fn read_input<'a, F: Files>(
    alloc: Global,
    values: &mut Settings<'a>,
    files: &mut F,
) -> Result<(), Failure<(FileFault, &'a str)>>
    ensures kept { KeepsFiles (F.files files.old) (F.files files.new) }
    ensures input { OnOk result (HasInput (F.files files.old) (values_in values.old) (values_in values.new)) }
    ensures count { OnOk result (F.failures files.new ≡ F.failures files.old) }
    ensures stops { IfFault result (λ fault.
        StopsAt (F.files files.old) (input_names (values_in values.old)) fault.1.now) }
    ensures failed { IfErr result (λ failure. Counts failure (F.failures files.old) (F.failures files.new)) }
{
    let Ok(names) = names_of(alloc, values.input_files.as_slice()) else {
        return Err(Failure::Memory);
    };
    match read_files(alloc, names.as_slice(), files) {
        Ok(texts) => match add_texts(alloc, values, texts.as_slice()) {
            Ok(()) => Ok(()),
            Err(_) => Err(Failure::Memory),
        },
        Err(failure) => Err(failure),
    }
}
