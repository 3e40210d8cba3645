//! Records read from bytes, and written.

ghost use Rattle.std.specs.Prelude.{◌≡◌, ℕ, ◌+◌, ◌-◌, ◌*◌, ◌%◌, ◌≤◌, ◌<◌, Some, None, ◌∷◌, ◌++◌, [], length, drop, take, sum, slice_index, IfOk, IfErr, OnOk, OnErr, IfSome};
ghost use Rattle.std.specs.Io.KnownBytes.{Appends};
ghost use Rattle.mem80.specs.Sums.{checksum_of};
ghost use Rattle.omf80.specs.Records.{BeginsWith, kind_of_type, record_fault, first_body, record_end, record_bytes, stated_length, word_bytes};
ghost use Rattle.omf80.specs.internal.Views.{record_view};
ghost use Rattle.failure.specs.Writing.{AppendsBeginning};

use crate::fault::Fault;
use crate::kind::{BODY_LIMIT, HEADING_SIZE, LENGTH_LIMIT, RecordKind};
use crate::record::Record;
use byteorder::{ByteOrder, LittleEndian};
use failure::{Failure, WriteFault, write_bytes};
use std::io::Write;
use std::marker::Model;

/// The records of a file, from its front. Contracts see the bytes that are left.
#[derive(Drop)]
pub struct Records<'a> {
    rest: &'a [u8],
}

impl<'a> Model for Records<'a> {
    ghost use Rattle.std.specs.Prelude.{List, ℕ};

    ghost Value = { List ℕ };

    ghost view = { λ records. records.rest.now };
}

// The sum of bytes, modulo 256.
fn sum_of(bytes: &[u8]) -> u8
    ensures { result ≡ sum bytes.now % 256 }
{
    let mut total: u8 = 0;
    for &byte in bytes {
        total = total.wrapping_add(byte);
    }
    total
}

// The length that a record states.
fn stated_length(bytes: &[u8]) -> u16
    requires { 3 ≤ length bytes.now }
    ensures { result ≡ stated_length bytes.now }
{
    LittleEndian::read_u16(&bytes[1..])
}

// A number in two bytes.
fn word(number: u16) -> [u8; 2]
    ensures { result ≡ word_bytes number }
{
    let mut bytes = [0; 2];
    LittleEndian::write_u16(&mut bytes, number);
    bytes
}

// The kind of the record that the bytes begin with, and where it ends.
#[tactic(auto, using(crate::proofs::Reading::too_short, crate::proofs::Reading::no_length, crate::proofs::Reading::too_long, crate::proofs::Reading::cut_off, crate::proofs::Reading::wrong_sum, crate::proofs::Reading::unknown_type, crate::proofs::Reading::no_record_fault,))]
fn heading_of(bytes: &[u8]) -> Result<(RecordKind, usize), Fault>
    ensures no_fault { IfOk result (λ _. record_fault bytes.now ≡ None) }
    ensures kind { IfOk result (λ heading. kind_of_type (slice_index bytes.now 0) ≡ Some heading.0) }
    ensures end { IfOk result (λ heading. heading.1 ≡ record_end bytes.now) }
    ensures within { IfOk result (λ heading. heading.1 ≤ length bytes.now) }
    ensures begins { IfOk result (λ heading. 4 ≤ heading.1) }
    ensures fault { IfErr result (λ fault. record_fault bytes.now ≡ Some fault) }
{
    if bytes.len() < HEADING_SIZE {
        return Err(Fault::Truncated);
    }
    let stated = stated_length(bytes) as usize;
    if stated == 0 || stated > LENGTH_LIMIT {
        return Err(Fault::WrongLength);
    }
    let end = HEADING_SIZE + stated;
    if bytes.len() < end {
        return Err(Fault::Truncated);
    }
    if sum_of(&bytes[..end]) != 0 {
        return Err(Fault::WrongSum);
    }
    match RecordKind::of_type(bytes[0]) {
        Some(kind) => Ok((kind, end)),
        None => Err(Fault::UnknownType),
    }
}

// The record that the bytes begin with, and the bytes after it.
fn first_record<'a>(bytes: &'a [u8]) -> Result<(Record<'a>, &'a [u8]), Fault>
    ensures record { IfOk result (λ first. BeginsWith bytes.now (record_view first.0) first.1.now) }
    ensures fault { IfErr result (λ fault. record_fault bytes.now ≡ Some fault) }
    ensures no_fault { IfOk result (λ _. record_fault bytes.now ≡ None) }
    ensures of_type { IfOk result (λ first. kind_of_type (slice_index bytes.now 0) ≡ Some first.0.kind) }
    ensures body { IfOk result (λ first. first.0.body.now ≡ first_body bytes.now) }
    ensures rest { IfOk result (λ first. first.1.now ≡ drop (record_end bytes.now) bytes.now) }
{
    let (kind, end) = heading_of(bytes)?;
    let body = &bytes[HEADING_SIZE..end - 1];
    Ok((Record { kind, body }, &bytes[end..]))
}

impl<'a> Records<'a> {
    /// The records of these bytes.
    pub fn new(bytes: &'a [u8]) -> Records<'a>
        ensures { result ≡ bytes.now }
    {
        Records { rest: bytes }
    }

    /// The bytes that are left.
    pub fn rest(&self) -> &'a [u8]
        ensures { result.now ≡ self.now }
    {
        self.rest
    }

    /// Takes the record that the bytes begin with. After a fault they are as before.
    pub fn next_record(&mut self) -> Result<Record<'a>, Fault>
        ensures record { IfOk result (λ read. BeginsWith self.old (record_view read) self.new) }
        ensures fault { IfErr result (λ fault. record_fault self.old ≡ Some fault) }
        ensures no_fault { IfOk result (λ read. record_fault self.old ≡ None) }
        ensures of_type { IfOk result (λ read. kind_of_type (slice_index self.old 0) ≡ Some read.kind) }
        ensures body { IfOk result (λ read. read.body.now ≡ first_body self.old) }
        ensures rest { IfOk result (λ read. self.new ≡ drop (record_end self.old) self.old) }
        ensures kept { OnErr result (self.new ≡ self.old) }
    {
        let (record, rest) = first_record(self.rest)?;
        self.rest = rest;
        Ok(record)
    }
}

// The byte that makes a heading, a body and itself add up to 0.
fn checksum(heading: &[u8], body: &[u8]) -> u8
    ensures adds_up { (sum heading.now + sum body.now + result) % 256 ≡ 0 }
    ensures byte { result < 256 }
{
    let total = sum_of(heading).wrapping_add(sum_of(body));
    0_u8.wrapping_sub(total)
}

/// Writes a record with a type and a body of at most `BODY_LIMIT` bytes. After a failure the writer has a
/// beginning of it.
pub fn write_record<W: Write>(out: &mut W, kind: u8, body: &[u8]) -> Result<(), Failure<WriteFault>>
    requires { length body.now ≤ BODY_LIMIT }
    ensures ok { OnOk result (Appends (W.contents out.old) (W.contents out.new) (record_bytes kind body.now)) }
    ensures err { OnErr result
        (AppendsBeginning (W.contents out.old) (W.contents out.new) (record_bytes kind body.now)) }
{
    let [low, high] = word(body.len() as u16 + 1);
    let heading = [kind, low, high];
    let last = checksum(&heading, body);
    write_bytes(out, &heading)?;
    write_bytes(out, body)?;
    write_bytes(out, &[last])
}
