//! Names, and the identifiers among which they stand.

ghost use Rattle.std.specs.Prelude.{◌≡◌};
ghost use Rattle.std.specs.Str.{bytes_eq};
ghost use Rattle.types.specs.internal.Walking.{names_among};

use trees::{Identifier, Name};

/// Whether two names are the same.
pub(crate) fn is_same(name: Name, other: Name) -> bool
    ensures { result ≡ bytes_eq name other }
{
    name.as_slice() == other.as_slice()
}

/// Whether a name is among those that are declared together.
pub(crate) fn is_among(declared: &[Identifier], name: Name) -> bool
    ensures { result ≡ names_among declared.now name }
{
    for one in declared {
        if is_same(name, one.name) {
            return true;
        }
    }
    false
}
