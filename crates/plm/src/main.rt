//! The program `plm`: it hands the words of its command line, the files of the system and its two output streams to
//! `run_words`.
#![tactic(auto)]

use explained_commands::{HostFiles, KeptFiles, KeptLines, run_words};
use std::io::Write;
use std::process::ExitCode;
use std::{env, io, rt};

// Carries out the words of the command line, and answers the exit status.
fn run<R: rt::Env + rt::Files + AllocGlobal, O: Write, E: Write>(
    rt: &R,
    out: &mut O,
    err: &mut KeptLines<E>,
) -> io::Result<u8> {
    let args: Vec<String> = env::args(rt)?.collect(rt.alloc())?;
    let mut words = Vec::new(rt.alloc());
    for arg in &args {
        words.push(arg.as_str())?;
    }
    let mut files = KeptFiles::new(rt.alloc(), HostFiles::new(rt));
    Ok(run_words(rt.alloc(), words.as_slice(), &mut files, out, err)?)
}

fn main(rt: HostRuntime) -> ExitCode {
    let mut out = rt.stdout();
    let mut err = KeptLines::new(rt.alloc(), rt.stderr());
    match run(&rt, &mut out, &mut err) {
        Ok(status) => ExitCode::from(status),
        Err(e) if e.kind() == io::ErrorKind::OutOfMemory => {
            let _ = writeln!(err, "MEMORY - 0");
            ExitCode::from(1)
        }
        Err(e) => {
            let _ = writeln!(err, "plm: {e}");
            ExitCode::from(2)
        }
    }
}
