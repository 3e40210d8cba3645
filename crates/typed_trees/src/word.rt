//! Numbers of 16 bits.

ghost use Rattle.std.specs.Prelude.{◌<◌};

/// A number of 16 bits. A tree that holds one holds with it that it is below 65536.
#[derive(Clone, Copy)]
pub struct Word {
    pub value: u16,
    pub ghost fits: { value < 65536 },
}
