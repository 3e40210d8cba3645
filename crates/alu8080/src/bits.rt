//! What an operation sets: the condition bits, as they are or as what tells them.

ghost use Rattle.std.specs.Prelude.{◌≡◌, Bool, nat_le};
ghost use Rattle.isa8080.specs.declared.registers.Flags.{Flags};
ghost use Rattle.isa8080.specs.Flags.{flags_of};

use isa8080::Flags;

/// The five condition bits, in a form of one's own. Their meaning is `flags`.
pub trait ConditionBits: Drop {
    ghost flags: { Self → Flags };

    /// The bits that an operation sets: sign, zero and parity of its value, the auxiliary carry where the sum
    /// of the low digits is over 15, and the carry.
    fn of_result(value: u8, digit_sum: u8, carry: bool) -> Self
        ensures { flags result ≡ flags_of value (nat_le 16 digit_sum) carry };

    /// The auxiliary carry, by which DAA adjusts.
    fn ac(&self) -> bool
        ensures { result ≡ (flags self.now).ac };

    /// The carry.
    fn cy(&self) -> bool
        ensures { result ≡ (flags self.now).cy };

    /// Puts another carry, and keeps the other bits.
    fn set_cy(&mut self, carry: bool)
        ensures { flags self.new ≡ record (flags self.old) { cy = carry } };
}

impl ConditionBits for Flags {
    ghost flags = { λ f. f };

    #[inline(always)]
    fn of_result(value: u8, digit_sum: u8, carry: bool) -> Flags {
        Flags {
            s: value >= 128,
            z: value == 0,
            ac: digit_sum >= 16,
            p: value.count_ones() % 2 == 0,
            cy: carry,
        }
    }

    #[inline(always)]
    fn ac(&self) -> bool {
        self.ac
    }

    #[inline(always)]
    fn cy(&self) -> bool {
        self.cy
    }

    #[inline(always)]
    fn set_cy(&mut self, carry: bool) {
        self.cy = carry;
    }
}
