//! Images by way of object files. Each source of a program that is run is compiled to an object file, these files are
//! merged, and the bytes of the merge are printed as Intel HEX. They are to be the bytes of the image that is built of the
//! sources.

use crate::block::Block;
use crate::memory_files::MemoryFiles;
use command_line::{Action, Order, PlanTexts, ProgramOrder, command};
use explained_commands::run_command;
use hex80::write_hex;
use host::read_files;
use std::alloc::Global;
use std::fmt::Write;
use tool::{Built, Plan, Source, build};

// The file that has the merge.
const MERGE: &str = "merge.obj";

// What a command line prints over these files, where it is carried out.
fn printed(alloc: Global, words: &[&str], files: &mut MemoryFiles) -> Option<Vec<u8>> {
    let mut out: Vec<u8> = Vec::new(alloc);
    let mut err: Vec<u8> = Vec::new(alloc);
    let status = run_command(alloc, words, files, &mut out, &mut err);
    if status == 0 { Some(out) } else { None }
}

// Compiles a source, and gives the name of its object file.
fn compiled(alloc: Global, source: &str, files: &mut MemoryFiles) -> Option<String> {
    let mut name = String::new(alloc);
    if write!(name, "{source}.obj").is_err() {
        return None;
    }
    match printed(alloc, &["plm", "compile", source, name.as_str()], files) {
        Some(_) => Some(name),
        None => None,
    }
}

// Compiles sources, and gives the names of their object files.
fn compiled_all(alloc: Global, sources: &[&str], files: &mut MemoryFiles) -> Option<Vec<String>> {
    let mut names = Vec::new(alloc);
    for source in sources {
        let name = compiled(alloc, source, files)?;
        if names.push(name).is_err() {
            return None;
        }
    }
    Some(names)
}

// Compiles and merges sources, and answers whether there is a merge.
fn is_merged(alloc: Global, sources: &[&str], files: &mut MemoryFiles) -> bool {
    let Some(names) = compiled_all(alloc, sources, files) else {
        return false;
    };
    let Ok(mut words) = vec![in alloc; "plm", "link", "--out", MERGE] else {
        return false;
    };
    for name in &names {
        if words.push(name.as_str()).is_err() {
            return false;
        }
    }
    printed(alloc, words.as_slice(), files).is_some()
}

// The bytes of the merge as Intel HEX, placed by a plan.
fn merge_text(alloc: Global, plan: PlanTexts, files: &mut MemoryFiles) -> Option<Vec<u8>> {
    let PlanTexts {
        code,
        data_base,
        stack,
        stack_size,
    } = plan;
    printed(
        alloc,
        &[
            "plm",
            "hex",
            "--code",
            code,
            "--data",
            data_base,
            "--stack",
            stack,
            "--stack-size",
            stack_size,
            MERGE,
        ],
        files,
    )
}

// What is built of texts.
fn built_of(alloc: Global, names: &[&str], texts: &[Vec<u8>], plan: &Plan) -> Option<Built> {
    let mut sources = Vec::new(alloc);
    for (name, text) in names.iter().zip(texts) {
        let source = Source {
            name: *name,
            text: text.as_slice(),
        };
        if sources.push(source).is_err() {
            return None;
        }
    }
    match build(alloc, sources.as_slice(), plan) {
        Ok(built) => Some(built),
        Err(_) => None,
    }
}

// The bytes of the image that is built of the sources of an order, as Intel HEX.
fn built_text(alloc: Global, order: &ProgramOrder, files: &mut MemoryFiles) -> Option<Vec<u8>> {
    let Ok(settings) = order.settings(alloc) else {
        return None;
    };
    let Ok(texts) = read_files(alloc, order.files.as_slice(), files) else {
        return None;
    };
    let built = built_of(
        alloc,
        order.files.as_slice(),
        texts.as_slice(),
        &settings.plan,
    )?;
    let mut text: Vec<u8> = Vec::new(alloc);
    match write_hex(alloc, built.image().pieces(), &mut text) {
        Ok(()) => Some(text),
        Err(_) => None,
    }
}

// Whether the image of an order is the same by way of object files, where there is one.
fn is_order_alike(alloc: Global, order: &ProgramOrder, files: &mut MemoryFiles) -> Option<bool> {
    let text = built_text(alloc, order, files)?;
    if !is_merged(alloc, order.files.as_slice(), files) {
        return Some(false);
    }
    match merge_text(alloc, order.plan, files) {
        Some(merged) => Some(merged.as_slice() == text.as_slice()),
        None => Some(false),
    }
}

/// Whether the image of the program that a command line runs is the same by way of object files. None where it runs nothing, or there is no
/// image of its sources.
pub fn is_linked_alike(alloc: Global, block: &Block, words: &[&str]) -> Option<bool> {
    let mut files = MemoryFiles::new(alloc, block.files.as_slice());
    match command(alloc, words) {
        Ok(Order::Program(order)) => match order.action {
            Action::Run => is_order_alike(alloc, &order, &mut files),
            Action::Interpret => None,
        },
        _ => None,
    }
}
