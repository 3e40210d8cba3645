//! What routines are called with: words at the edges, and random ones.

use runtime8080::Routine;

const EDGES: [u16; 20] = [
    0, 1, 2, 3, 7, 8, 9, 15, 16, 17, 127, 128, 255, 256, 257, 0x7FFF, 0x8000, 0xAAAA, 0xFF00,
    0xFFFF,
];

// Where the blocks begin that MOVE is tried on: from here over 65535 to 4FFH.
const BLOCKS: u16 = 0xF500;

/// Arguments, one after another: each word of a table with each, or random words.
#[derive(Drop)]
pub struct Arguments {
    /// The routine that takes them.
    pub routine: Routine,
    /// How many there are.
    pub count: u64,
    is_random: bool,
    // The bits of a random second word that are not 0.
    mask: u16,
    number: usize,
    seed: u32,
}

impl Arguments {
    /// The arguments from the first on.
    pub fn new(routine: Routine, is_random: bool, mask: u16) -> Arguments {
        Arguments {
            routine,
            count: if is_random { 10_000 } else { 400 },
            is_random,
            mask,
            number: 0,
            seed: 1,
        }
    }

    // A random word: the higher half of a linear congruential generator.
    fn random(&mut self) -> u16 {
        self.seed = self
            .seed
            .wrapping_mul(1_664_525)
            .wrapping_add(1_013_904_223);
        (self.seed / 65_536) as u16
    }

    // The next two words.
    fn pair(&mut self) -> (u16, u16) {
        if self.is_random {
            let first = self.random();
            let second = self.random();
            (first, second & self.mask)
        } else {
            let number = self.number % 400;
            self.number = number.wrapping_add(1);
            (EDGES[number / 20], EDGES[number % 20])
        }
    }

    // What MOVE takes: the first word is where the block lies, and the second one its count and, by its higher bits, how far it goes, 256
    // bytes down to 255 up.
    fn block(&self, first: u16, second: u16) -> [u16; 3] {
        let from = BLOCKS.wrapping_add(first % 4096);
        let to = from.wrapping_add(second / 128).wrapping_sub(256);
        let count = if self.is_random {
            second % 64
        } else {
            second % 512
        };
        [from, to, count]
    }

    /// What the next call takes in DE, in HL, and in BC or in A above the flags. A takes the lower byte of the first word, and the flags the
    /// higher one; for the shifts of an ADDRESS those of the second word, which is their count.
    pub fn next_words(&mut self) -> [u16; 3] {
        let (first, second) = self.pair();
        let (de, in_a) = match self.routine {
            Routine::Move => return self.block(first, second),
            Routine::ShiftLeftAddress | Routine::ShiftRightAddress => (first, second),
            _ => (second, first),
        };
        [de, first, in_a.wrapping_mul(256) | in_a / 256]
    }
}
