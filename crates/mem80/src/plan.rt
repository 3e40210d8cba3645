//! Plans: where the parts of a program are to lie in memory.
#![tactic(auto)]

ghost use Rattle.std.specs.Prelude.{◌≡◌};
ghost use Rattle.mem80.specs.internal.Plans.{stack_end_of};

/// Where the parts of a program are to lie.
#[derive(Clone, Copy)]
pub struct Plan {
    /// The address of the code.
    pub code: u16,
    /// The address of the data.
    pub data_base: u16,
    /// The lowest address of the stack.
    pub stack: u16,
    /// The number of bytes of the stack.
    pub stack_size: u16,
}

impl Plan {
    /// The plan without options: code at 256, data at 16384, 1024 bytes of stack at 61440.
    pub fn usual() -> Plan
        ensures { result ≡ record { code = 256; data_base = 16384; stack = 61440; stack_size = 1024 } }
    {
        Plan {
            code: 256,
            data_base: 16384,
            stack: 61440,
            stack_size: 1024,
        }
    }

    /// The address just past the stack, which is 0 for a stack that ends at 65536.
    pub fn stack_end(&self) -> u16
        ensures { result ≡ stack_end_of self.now }
    {
        self.stack.wrapping_add(self.stack_size)
    }
}
