//! Entries of records, put together as far as whole entries fit.

ghost use Rattle.std.specs.Prelude.{◌≡◌, ◌+◌, ◌≤◌, not, [], ◌∷◌, ◌++◌, length, take, OnOk, OnErr};
ghost use Rattle.std.specs.Io.KnownBytes.{Appends};
ghost use Rattle.omf80.specs.Records.{word_bytes};
ghost use Rattle.object_modules.specs.Before.{is_empty};
ghost use Rattle.object_modules.specs.Parts.{segment_number, fix_kind_number, listed_name_bytes, definition_bytes, reference_bytes};
ghost use Rattle.failure.specs.Writing.{AppendsBeginning};
ghost use Rattle.object_writing.specs.internal.Groups.{empty_group, group_bytes, flushed, with_room, with_bytes, with_entry, last_record};

use crate::records::body::{Body, write_body};
use crate::records::numbers::{number_of_kind, number_of_segment, word};
use failure::{Failure, WriteFault};
use object_modules::{FixKind, Segment};
use omf80::{BODY_LIMIT, RecordKind};
use std::io::Write;
use std::marker::Model;

/// A record that is begun, to which entries are added. One that doesn't fit any more goes into the next record,
/// and the one before it is written.
#[derive(Drop)]
pub struct Group {
    kind: RecordKind,
    // How many bytes stand before the entries.
    front: usize,
    body: Body,
}

impl Model for Group {
    ghost use Rattle.std.specs.Prelude.{◌≤◌, length, take, drop};
    ghost use Rattle.omf80.specs.declared.kind.TheConstants.{BODY_LIMIT};
    ghost use Rattle.object_writing.specs.internal.Groups.{Group as GroupValue};

    ghost Value = { GroupValue };

    ghost view = { λ group. record {
      kind = group.kind;
      front = take group.front group.body;
      begun = drop group.front group.body;
    } };

    ghost invariant = { λ group. record {
      small : group.front ≤ 2;
      within : group.front ≤ length group.body;
      limit : length group.body ≤ BODY_LIMIT;
    } };
}

// A record with these bytes before its entries.
#[tactic(auto, using(crate::proofs::Bodies::front_rules))]
fn group_with(kind: RecordKind, front: &[u8]) -> Group
    requires { length front.now ≤ 2 }
    ensures { result ≡ empty_group kind front.now }
{
    let mut body = Body::new();
    body.put(front);
    Group {
        kind,
        front: front.len(),
        body,
    }
}

impl Group {
    /// Names of other modules (External Names Record).
    pub fn external_names() -> Group
        ensures { result ≡ empty_group RecordKind.ExternalNames [] }
    {
        group_with(RecordKind::ExternalNames, &[])
    }

    /// Public names of a segment (Public Declarations Record).
    pub fn publics(segment: Segment) -> Group
        ensures { result ≡ empty_group RecordKind.Publics (segment_number segment ∷ []) }
    {
        group_with(RecordKind::Publics, &[number_of_segment(segment)])
    }

    /// Fixes of a kind to external names (External References Record).
    pub fn external_references(kind: FixKind) -> Group
        ensures { result ≡ empty_group RecordKind.ExternalReferences (fix_kind_number kind ∷ []) }
    {
        group_with(RecordKind::ExternalReferences, &[number_of_kind(kind)])
    }

    /// Fixes of a kind to the segment of their content (Relocation Record).
    pub fn relocation(kind: FixKind) -> Group
        ensures { result ≡ empty_group RecordKind.Relocation (fix_kind_number kind ∷ []) }
    {
        group_with(RecordKind::Relocation, &[number_of_kind(kind)])
    }

    /// Fixes of a kind to another segment (Intersegment References Record).
    pub fn intersegment(target: Segment, kind: FixKind) -> Group
        ensures { result ≡ empty_group RecordKind.IntersegmentReferences
            (segment_number target ∷ fix_kind_number kind ∷ []) }
    {
        group_with(
            RecordKind::IntersegmentReferences,
            &[number_of_segment(target), number_of_kind(kind)],
        )
    }

    // Writes the record with the entries that it has.
    #[tactic(auto, using(crate::proofs::Bodies::front_rules))]
    fn write<W: Write>(&self, out: &mut W) -> Result<(), Failure<WriteFault>>
        ensures ok { OnOk result (Appends (W.contents out.old) (W.contents out.new) (group_bytes self.now)) }
        ensures err { OnErr result
            (AppendsBeginning (W.contents out.old) (W.contents out.new) (group_bytes self.now)) }
    {
        write_body(self.kind, self.body.as_slice(), out)
    }

    // How many bytes its body has.
    #[tactic(auto, using(crate::proofs::Bodies::front_rules))]
    fn len(&self) -> usize
        ensures count { result ≡ length self.now.front + length self.now.begun }
        ensures limit { result ≤ BODY_LIMIT }
        ensures front { length self.now.front ≤ 2 }
    {
        self.body.len()
    }

    // Forgets the entries that it has.
    #[tactic(auto, using(crate::proofs::Bodies::front_rules))]
    fn clear(&mut self)
        ensures { self.new ≡ empty_group self.old.kind self.old.front }
    {
        self.body.keep(self.front);
    }

    // Adds bytes after its last entry.
    #[tactic(auto, using(crate::proofs::Bodies::front_rules))]
    fn put(&mut self, bytes: &[u8])
        requires { length self.old.front + length self.old.begun + length bytes.now ≤ BODY_LIMIT }
        ensures { self.new ≡ with_bytes self.old bytes.now }
    {
        self.body.put(bytes);
    }

    // Writes the record if an entry of a size doesn't fit into it.
    fn make_room<W: Write>(&mut self, size: usize, out: &mut W) -> Result<(), Failure<WriteFault>>
        requires { size ≤ 64 }
        ensures ok { OnOk result (Appends (W.contents out.old) (W.contents out.new) (flushed self.old size)) }
        ensures err { OnErr result
            (AppendsBeginning (W.contents out.old) (W.contents out.new) (flushed self.old size)) }
        ensures group { OnOk result (self.new ≡ with_room self.old size) }
        ensures room { OnOk result (length self.new.front + length self.new.begun + size ≤ BODY_LIMIT) }
    {
        if BODY_LIMIT - self.len() < size {
            self.write(out)?;
            self.clear();
        }
        Ok(())
    }

    // Adds an entry, whose bytes stand in three rows.
    fn add<W: Write>(
        &mut self,
        first: &[u8],
        middle: &[u8],
        last: &[u8],
        out: &mut W,
    ) -> Result<(), Failure<WriteFault>>
        requires { length first.now + length middle.now + length last.now ≤ 64 }
        ensures ok { OnOk result (Appends (W.contents out.old) (W.contents out.new)
            (flushed self.old (length (first.now ++ (middle.now ++ last.now))))) }
        ensures err { OnErr result (AppendsBeginning (W.contents out.old) (W.contents out.new)
            (flushed self.old (length (first.now ++ (middle.now ++ last.now))))) }
        ensures group { OnOk result (self.new ≡ with_entry self.old (first.now ++ (middle.now ++ last.now))) }
    {
        self.make_room(first.len() + middle.len() + last.len(), out)?;
        self.put(first);
        self.put(middle);
        self.put(last);
        Ok(())
    }

    /// Adds an external name of at most 31 characters.
    pub fn add_name<W: Write>(
        &mut self,
        name: &[u8],
        out: &mut W,
    ) -> Result<(), Failure<WriteFault>>
        requires { length name.now ≤ 31 }
        ensures ok { OnOk result (Appends (W.contents out.old) (W.contents out.new)
            (flushed self.old (length (listed_name_bytes name.now)))) }
        ensures err { OnErr result (AppendsBeginning (W.contents out.old) (W.contents out.new)
            (flushed self.old (length (listed_name_bytes name.now)))) }
        ensures group { OnOk result (self.new ≡ with_entry self.old (listed_name_bytes name.now)) }
    {
        self.add(&[name.len() as u8], name, &[0], out)
    }

    /// Adds a public name of at most 31 characters and its offset.
    pub fn add_definition<W: Write>(
        &mut self,
        offset: u16,
        name: &[u8],
        out: &mut W,
    ) -> Result<(), Failure<WriteFault>>
        requires { length name.now ≤ 31 }
        ensures ok { OnOk result (Appends (W.contents out.old) (W.contents out.new)
            (flushed self.old (length (definition_bytes (record { offset = offset; name = name.now }))))) }
        ensures err { OnErr result (AppendsBeginning (W.contents out.old) (W.contents out.new)
            (flushed self.old (length (definition_bytes (record { offset = offset; name = name.now }))))) }
        ensures group { OnOk result (self.new ≡ with_entry self.old
            (definition_bytes (record { offset = offset; name = name.now }))) }
    {
        let [low, high] = word(offset);
        self.add(&[low, high, name.len() as u8], name, &[0], out)
    }

    /// Adds the number of an external name and the offset of a place that refers to it.
    pub fn add_reference<W: Write>(
        &mut self,
        external: u16,
        offset: u16,
        out: &mut W,
    ) -> Result<(), Failure<WriteFault>>
        ensures ok { OnOk result (Appends (W.contents out.old) (W.contents out.new)
            (flushed self.old (length (reference_bytes (record { external = external; offset = offset }))))) }
        ensures err { OnErr result (AppendsBeginning (W.contents out.old) (W.contents out.new)
            (flushed self.old (length (reference_bytes (record { external = external; offset = offset }))))) }
        ensures group { OnOk result (self.new ≡ with_entry self.old
            (reference_bytes (record { external = external; offset = offset }))) }
    {
        self.add(&word(external), &word(offset), &[], out)
    }

    /// Adds the offset of a place.
    pub fn add_offset<W: Write>(
        &mut self,
        offset: u16,
        out: &mut W,
    ) -> Result<(), Failure<WriteFault>>
        ensures ok { OnOk result (Appends (W.contents out.old) (W.contents out.new)
            (flushed self.old (length (word_bytes offset)))) }
        ensures err { OnErr result (AppendsBeginning (W.contents out.old) (W.contents out.new)
            (flushed self.old (length (word_bytes offset)))) }
        ensures group { OnOk result (self.new ≡ with_entry self.old (word_bytes offset)) }
    {
        self.add(&word(offset), &[], &[], out)
    }

    // Whether it has an entry.
    #[tactic(auto, using(crate::proofs::Bodies::has_begun))]
    fn has_entries(&self) -> bool
        ensures { result ≡ not (is_empty self.now.begun) }
    {
        self.front < self.body.len()
    }

    /// Writes the record that is begun, if it has an entry.
    pub fn finish<W: Write>(&self, out: &mut W) -> Result<(), Failure<WriteFault>>
        ensures ok { OnOk result (Appends (W.contents out.old) (W.contents out.new) (last_record self.now)) }
        ensures err { OnErr result
            (AppendsBeginning (W.contents out.old) (W.contents out.new) (last_record self.now)) }
    {
        if self.has_entries() {
            self.write(out)
        } else {
            Ok(())
        }
    }
}
