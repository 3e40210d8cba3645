//! A pair of registers as one 16-bit value.

ghost use Rattle.std.specs.Prelude.{◌≡◌};
ghost use Rattle.isa8080.specs.State.{word as word_of};
ghost use Rattle.cpu8080.specs.internal.PairBytes.{bytes_of};

use std::marker::Model;

/// Two registers that are kept as one 16-bit value, so that the host reads and writes them at once.
#[derive(Drop)]
pub struct RegisterPair {
    word: u16,
}

impl Model for RegisterPair {
    ghost use Rattle.cpu8080.specs.internal.PairBytes.{PairBytes, bytes_of};

    ghost Value = { PairBytes };

    ghost view = { λ p. bytes_of p.word };
}

impl RegisterPair {
    /// The pair with a 16-bit value.
    #[inline(always)]
    pub fn from_word(word: u16) -> RegisterPair
        ensures { result ≡ bytes_of word }
    {
        RegisterPair { word }
    }

    /// The pair with these bytes.
    #[inline(always)]
    pub fn from_bytes(high: u8, low: u8) -> RegisterPair
        ensures { result ≡ record { high = high; low = low } }
    {
        RegisterPair {
            word: word_with(high, low),
        }
    }

    /// The 16-bit value.
    #[inline(always)]
    pub fn word(&self) -> u16
        ensures { result ≡ word_of self.now.high self.now.low }
    {
        self.word
    }

    /// The high byte.
    #[inline(always)]
    pub fn high(&self) -> u8
        ensures { result ≡ self.now.high }
    {
        (self.word / 256) as u8
    }

    /// The low byte.
    #[inline(always)]
    pub fn low(&self) -> u8
        ensures { result ≡ self.now.low }
    {
        (self.word % 256) as u8
    }
}

/// The 16-bit value of a high and a low byte.
#[inline(always)]
pub fn word_with(high: u8, low: u8) -> u16
    ensures value { result ≡ word_of high low }
    ensures bytes { bytes_of result ≡ record { high = high; low = low } }
{
    high as u16 * 256 + low as u16
}
