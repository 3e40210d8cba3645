//! The order of records in a file.

ghost use Rattle.std.specs.Prelude.{◌≡◌};
ghost use Rattle.object_modules.specs.Before.{rank_of, is_fix_record};
ghost use Rattle.object_reading.specs.internal.Order.{may_come};

use omf80::RecordKind;

// A number for each kind of record: none comes after one with a greater number.
fn rank_of(kind: RecordKind) -> u8
    ensures { result ≡ rank_of kind }
{
    match kind {
        RecordKind::Header => 0,
        RecordKind::ExternalNames => 1,
        RecordKind::Publics => 2,
        RecordKind::Content => 3,
        RecordKind::ExternalReferences => 3,
        RecordKind::Relocation => 3,
        RecordKind::IntersegmentReferences => 3,
        RecordKind::ModuleEnd => 4,
        RecordKind::EndOfFile => 5,
    }
}

// Whether a record lists fixes.
fn is_fix_record(kind: RecordKind) -> bool
    ensures { result ≡ is_fix_record kind }
{
    matches!(
        kind,
        RecordKind::ExternalReferences | RecordKind::Relocation | RecordKind::IntersegmentReferences
    )
}

/// Whether a record of a kind may come next, right after the latest one if there is any.
pub fn may_come(latest: Option<RecordKind>, kind: RecordKind) -> bool
    ensures { result ≡ may_come latest kind }
{
    let Some(latest) = latest else {
        return matches!(kind, RecordKind::Header);
    };
    let rank = rank_of(latest);
    match kind {
        RecordKind::Header => false,
        RecordKind::EndOfFile => rank == 4,
        RecordKind::ModuleEnd => rank <= 3,
        _ => rank <= rank_of(kind) && (!is_fix_record(kind) || rank == 3),
    }
}
