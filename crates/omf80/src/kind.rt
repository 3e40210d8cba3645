//! Types of records, and how long a record may be.

/// The bytes before the body of a record: its type, and its length in two bytes (Record Format).
pub const HEADING_SIZE: usize = 3;

/// The greatest length that a record may state, in the two bytes after its type (Record Format). It counts
/// the body and the checksum. The limit is this profile's own.
pub const LENGTH_LIMIT: usize = 1028;

/// How many bytes a body has at most: those between the length that the record states and its checksum
/// (Record Format). One byte, the checksum, is left of `LENGTH_LIMIT`.
pub const BODY_LIMIT: usize = 1027;

/// The types of records that object files of this profile have.
#[derive(Clone, Copy, Debug)]
pub enum RecordKind {
    /// Type 02H: the name of the module, and its segments.
    Header,
    /// Type 18H: names of other modules that this one refers to.
    ExternalNames,
    /// Type 16H: places of this module that others may refer to by name.
    Publics,
    /// Type 06H: bytes of a segment.
    Content,
    /// Type 20H: places in the last content that refer to external names.
    ExternalReferences,
    /// Type 22H: places in the last content that refer to its own segment.
    Relocation,
    /// Type 24H: places in the last content that refer to another segment.
    IntersegmentReferences,
    /// Type 04H: the end of the module, and where it starts if it is a main module.
    ModuleEnd,
    /// Type 0EH: the end of the file.
    EndOfFile,
}

impl RecordKind {
    ghost use Rattle.std.specs.Prelude.{◌≡◌};
    ghost use Rattle.omf80.specs.Records.{type_byte, kind_of_type};

    /// The kind of record that begins with a byte.
    pub fn of_type(byte: u8) -> Option<RecordKind>
        ensures { result ≡ kind_of_type byte }
    {
        match byte {
            0x02 => Some(RecordKind::Header),
            0x18 => Some(RecordKind::ExternalNames),
            0x16 => Some(RecordKind::Publics),
            0x06 => Some(RecordKind::Content),
            0x20 => Some(RecordKind::ExternalReferences),
            0x22 => Some(RecordKind::Relocation),
            0x24 => Some(RecordKind::IntersegmentReferences),
            0x04 => Some(RecordKind::ModuleEnd),
            0x0E => Some(RecordKind::EndOfFile),
            _ => None,
        }
    }

    /// The byte that a record of this kind begins with.
    pub fn code(&self) -> u8
        ensures { result ≡ type_byte self.now }
    {
        match self {
            RecordKind::Header => 0x02,
            RecordKind::ExternalNames => 0x18,
            RecordKind::Publics => 0x16,
            RecordKind::Content => 0x06,
            RecordKind::ExternalReferences => 0x20,
            RecordKind::Relocation => 0x22,
            RecordKind::IntersegmentReferences => 0x24,
            RecordKind::ModuleEnd => 0x04,
            RecordKind::EndOfFile => 0x0E,
        }
    }
}
