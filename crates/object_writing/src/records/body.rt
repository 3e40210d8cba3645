//! Bodies of records while they are filled.

ghost use Rattle.std.specs.Prelude.{◌≡◌, ◌+◌, ◌≤◌, [], ◌++◌, length, take, OnOk, OnErr};
ghost use Rattle.std.specs.Io.KnownBytes.{Appends};
ghost use Rattle.omf80.specs.Records.{bytes_of};
ghost use Rattle.failure.specs.Writing.{AppendsBeginning};

use failure::{Failure, WriteFault};
use omf80::{BODY_LIMIT, RecordKind, write_record};
use std::io::Write;
use std::marker::Model;

/// A body of a record while it is filled. Contracts see the bytes that it has.
#[derive(Drop)]
pub struct Body {
    bytes: [u8; BODY_LIMIT],
    count: usize,
}

impl Model for Body {
    ghost use Rattle.std.specs.Prelude.{ℕ, List, ◌≤◌, take};
    ghost use Rattle.omf80.specs.declared.kind.TheConstants.{BODY_LIMIT};

    ghost Value = { List ℕ };

    ghost view = { λ body. take body.count body.bytes };

    ghost invariant = { λ body. body.count ≤ BODY_LIMIT };
}

impl Body {
    /// A body of no bytes.
    pub fn new() -> Body
        ensures { result ≡ [] }
    {
        let bytes = [0; BODY_LIMIT];
        Body { bytes, count: 0 }
    }

    /// Its bytes.
    pub fn as_slice(&self) -> &[u8]
        ensures bytes { result.now ≡ self.now }
        ensures limit { length self.now ≤ BODY_LIMIT }
    {
        &self.bytes[..self.count]
    }

    /// How many bytes it has.
    pub fn len(&self) -> usize
        ensures count { result ≡ length self.now }
        ensures limit { result ≤ BODY_LIMIT }
    {
        self.count
    }

    /// Adds bytes after its last one.
    #[tactic(auto, using(crate::proofs::Bodies::more_put))]
    pub fn put(&mut self, bytes: &[u8])
        requires { length self.old + length bytes.now ≤ BODY_LIMIT }
        ensures { self.new ≡ self.old ++ bytes.now }
    {
        let end = self.count + bytes.len();
        self.bytes[self.count..end].copy_from_slice(bytes);
        self.count = end;
    }

    /// Keeps so many bytes from its front.
    pub fn keep(&mut self, count: usize)
        requires { count ≤ length self.old }
        ensures { self.new ≡ take count self.old }
    {
        self.count = count;
    }
}

/// Writes a record of a kind with a body of at most `BODY_LIMIT` bytes.
pub fn write_body<W: Write>(
    kind: RecordKind,
    body: &[u8],
    out: &mut W,
) -> Result<(), Failure<WriteFault>>
    requires { length body.now ≤ BODY_LIMIT }
    ensures ok { OnOk result (Appends (W.contents out.old) (W.contents out.new)
        (bytes_of (record { kind = kind; body = body.now }))) }
    ensures err { OnErr result (AppendsBeginning (W.contents out.old) (W.contents out.new)
        (bytes_of (record { kind = kind; body = body.now }))) }
{
    write_record(out, kind.code(), body)
}
