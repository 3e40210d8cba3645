//! Carrying out a command line, and explaining how it ended.

ghost use Rattle.std.specs.Prelude.{◌≡◌, false, true, length, IfOk, OnErr};
ghost use Rattle.clap.specs.Walk.{texts};
ghost use Rattle.explained_commands.specs.Asking.{asks, plain_words, table_count};
ghost use Rattle.explained_commands.specs.Ending.{Ends, EndsExplained};

use crate::asking::{asks, plain_words, table_names};
use commands::run_command;
use explaining::{KeptFiles, KeptLines, explain};
use host::Files;
use std::alloc::{AllocError, Global};
use std::io::Write;

/// Carries out the words of a command line, as `run_command` does, and answers the exit status. Where one of them is
/// `--explain`, or begins with `--explain=`, before a word `--`, it carries out the others, and then explains on `err` how
/// they ended: `err` has what `run_command` leaves there, and maybe something after it. What follows `--explain=` is the
/// name of a table of lines, which is read after that, where a fault in a line of a source was told. It fails only if
/// memory runs out for the words, before anything is done.
pub fn run_words<F: Files, O: Write, E: Write>(
    alloc: Global,
    words: &[&str],
    files: &mut KeptFiles<F>,
    out: &mut O,
    err: &mut KeptLines<E>,
) -> Result<u8, AllocError>
    ensures plain { IfOk result (λ status. asks (texts words.now) ≡ false → Ends
        (texts words.now) status (F.files files.old.inner) (F.files files.new.inner)
        (F.failures files.old.inner) (F.failures files.new.inner)
        (E.contents err.old.inner) (E.contents err.new.inner) (O.contents out.old) (O.contents out.new)) }
    ensures explained { IfOk result (λ status. asks (texts words.now) ≡ true → EndsExplained
        (plain_words (texts words.now)) (table_count (texts words.now)) status
        (F.files files.old.inner) (F.files files.new.inner)
        (F.failures files.old.inner) (F.failures files.new.inner)
        (E.contents err.old.inner) (E.contents err.new.inner) (O.contents out.old) (O.contents out.new)) }
    ensures files { OnErr result (files.new ≡ files.old) }
    ensures err { OnErr result (err.new ≡ err.old) }
    ensures out { OnErr result (out.new ≡ out.old) }
{
    if !asks(words) {
        return Ok(run_whole(alloc, words, files, out, err));
    }
    let plain = plain_words(alloc, words)?;
    let tables = table_names(alloc, words)?;
    Ok(run_explained(alloc, plain.as_slice(), tables.as_slice(), files, out, err))
}

// Carries out words. What `run_command` promises is one fact here.
fn run_whole<F: Files, O: Write, E: Write>(
    alloc: Global,
    words: &[&str],
    files: &mut KeptFiles<F>,
    out: &mut O,
    err: &mut KeptLines<E>,
) -> u8
    ensures { Ends
        (texts words.now) result (F.files files.old.inner) (F.files files.new.inner)
        (F.failures files.old.inner) (F.failures files.new.inner)
        (E.contents err.old.inner) (E.contents err.new.inner) (O.contents out.old) (O.contents out.new) }
{
    run_command(alloc, words, files, out, err)
}

// Carries out words, and explains how they ended, with tables of these names.
#[tactic(auto, using(crate::proofs::Explained::explained))]
fn run_explained<F: Files, O: Write, E: Write>(
    alloc: Global,
    words: &[&str],
    tables: &[&str],
    files: &mut KeptFiles<F>,
    out: &mut O,
    err: &mut KeptLines<E>,
) -> u8
    ensures { EndsExplained
        (texts words.now) (length tables.now) result (F.files files.old.inner) (F.files files.new.inner)
        (F.failures files.old.inner) (F.failures files.new.inner)
        (E.contents err.old.inner) (E.contents err.new.inner) (O.contents out.old) (O.contents out.new) }
{
    files.keep();
    err.keep();
    let status = run_whole(alloc, words, files, out, err);
    explain(alloc, words, tables, files, status, err);
    status
}
