//! Numbers that look random, the same for the same seed.

/// A linear congruential generator.
#[derive(Clone, Copy)]
pub struct Random {
    state: u64,
}

impl Random {
    /// The numbers of a place: others for each seed and each place.
    pub fn at(seed: u32, place: u32) -> Random {
        let mut random = Random {
            state: u64::from(seed) << 32 | u64::from(place),
        };
        random.step();
        random.step();
        random
    }

    // To the next state, by the constants of Knuth's MMIX.
    fn step(&mut self) {
        self.state = self
            .state
            .wrapping_mul(6364136223846793005)
            .wrapping_add(1442695040888963407);
    }

    /// The next number, of the top half of the state.
    pub fn number(&mut self) -> u32 {
        self.step();
        (self.state >> 32) as u32
    }

    /// A number below this one, or 0.
    pub fn below(&mut self, limit: u32) -> u32 {
        let product = u64::from(self.number()) * u64::from(limit);
        (product >> 32) as u32
    }

    /// A place in a list of this length, or 0 where there is none.
    pub fn place(&mut self, length: usize) -> usize {
        self.below(u32::try_from(length).unwrap_or(u32::MAX)) as usize
    }

    /// One of the words.
    pub fn word(&mut self, words: &[&'static str]) -> &'static str {
        words.get(self.place(words.len())).copied().unwrap_or("")
    }
}
