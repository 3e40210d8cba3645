//! Sums of bytes.

ghost use Rattle.std.specs.Prelude.{◌≡◌, ◌%◌, sum};

/// The sum of bytes, modulo 256.
#[tactic(auto, using(crate::proofs::SumLemmas::sum_more))]
pub(crate) fn byte_sum(bytes: &[u8]) -> u8
    ensures { result ≡ sum bytes.now % 256 }
{
    let mut total: u8 = 0;
    for byte in bytes {
        total = total.wrapping_add(*byte);
    }
    total
}
