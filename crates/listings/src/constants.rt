//! How many bytes the constants of a module have, which come first in its code segment.

ghost use Rattle.std.specs.Prelude.{◌≡◌, min};
ghost use Rattle.typed_trees.specs.Views.{module_view};
ghost use Rattle.typed_trees.specs.Weight.{constant_bytes, size_of_constant};

use typed_trees::{ConstantItem, Typed};

// A number that stops at the greatest of 32 bits.
fn capped(count: usize) -> u32
    ensures { result ≡ min count 4294967295 }
{
    if count < 4_294_967_295 {
        count as u32
    } else {
        4_294_967_295
    }
}

// The bytes of a constant (4,294,967,295 if it has more).
fn size_of(typed: &Typed, item: ConstantItem) -> u32
    ensures { result ≡ min (size_of_constant (module_view typed.now) item) 4294967295 }
{
    match item {
        ConstantItem::ConstantObject(number) => match typed.objects.get(number as usize) {
            Some(object) => object.size(),
            None => 0,
        },
        ConstantItem::ConstantList(number) => match typed.lists.get(number as usize) {
            Some(bytes) => capped(bytes.len()),
            None => 0,
        },
    }
}

/// The bytes of the constants (4,294,967,295 if they have more).
#[tactic(auto, using(layout::proofs::Sums::constants_more, layout::proofs::Sums::constants_end))]
pub(crate) fn constant_size(typed: &Typed) -> u32
    ensures { result ≡ min (constant_bytes (module_view typed.now)) 4294967295 }
{
    let mut total: u32 = 0;
    for item in &typed.constants {
        total = total.saturating_add(size_of(typed, *item));
    }
    total
}
