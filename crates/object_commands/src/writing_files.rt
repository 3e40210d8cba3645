//! Files that are written whole.

ghost use Rattle.std.specs.Prelude.{◌≡◌, ◌<◌, length, IfErr, OnOk, OnErr};
ghost use Rattle.host.specs.Files.{ChangesFiles, Counts, with_file};
ghost use Rattle.object_commands.specs.Linking.{StopsWriting};

use host::{Failure, FileFault, Files};

/// Writes a file from its beginning. After a failure all files are as before, or it has a beginning of the bytes and the
/// others are as before.
pub fn write_file<F: Files>(
    name: &str,
    bytes: &[u8],
    files: &mut F,
) -> Result<(), Failure<FileFault>>
    ensures ok { OnOk result
        (ChangesFiles (F.files files.old) (F.files files.new) (with_file name.now bytes.now)) }
    ensures err { OnErr result
        (StopsWriting (F.files files.old) (F.files files.new) name.now bytes.now) }
    ensures count { OnOk result (F.failures files.new ≡ F.failures files.old) }
    ensures failed { IfErr result (λ failure. Counts failure (F.failures files.old) (F.failures files.new)) }
{
    files.begin(name)?;
    let mut sent = 0;
    while sent < bytes.len() {
        sent += files.append(name, &bytes[sent..])?;
    }
    Ok(())
}
