//! The stack charge of a call of a procedure.

ghost use Rattle.std.specs.Prelude.{◌≡◌, ◌≤◌, min};
ghost use Rattle.mem80.specs.declared.memory.TheConstants.{MEMORY_SIZE};
ghost use Rattle.typed_trees.specs.Charge.{charge_of, height_of_list};
ghost use Rattle.typed_trees.specs.TypedTrees.{TypedProcedure};
ghost use Rattle.frames.specs.internal.Charges.{charge_in, IsChargedAs};

use treecode::TreeProcedure;

/// The stack charge of a call of a procedure in bytes (4,294,967,295 if it is more). The main program is charged as a
/// procedure without parameters.
#[tactic(auto, unfolding(typed_trees::specs::Charge::charge_of))]
pub fn charge(procedure: &TreeProcedure) -> u32
    ensures exact { result ≡ min (charge_in procedure.now) 4294967295 }
    ensures of_typed { (typed : TypedProcedure) → IsChargedAs procedure.now typed
        → height_of_list typed.body ≤ 65535 → result ≡ min (charge_of typed) 4294967295 }
    // If the height is above 65535, both exceed the size of memory.
    ensures in_memory { (typed : TypedProcedure) → IsChargedAs procedure.now typed
        → min result MEMORY_SIZE ≡ min (charge_of typed) MEMORY_SIZE }
{
    let parameters = u32::try_from(procedure.parameters.len()).unwrap_or(u32::MAX);
    parameters
        .saturating_mul(2)
        .saturating_add(procedure.frame_bytes)
        .saturating_add(procedure.height.saturating_mul(2))
        .saturating_add(10)
}
