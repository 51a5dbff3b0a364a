//! Numbers that are drawn at random, each of them once.

use crate::random::Random;
use std::alloc::{AllocError, Global};

/// The numbers that are left.
#[derive(Drop)]
pub struct Deck {
    numbers: Vec<u32>,
}

impl Deck {
    /// The numbers below this one.
    pub fn below(alloc: Global, count: u32) -> Result<Deck, AllocError> {
        let numbers = (0..count).collect(alloc)?;
        Ok(Deck { numbers })
    }

    /// One of the numbers that are left, if there is any.
    pub fn draw(&mut self, random: &mut Random) -> Option<u32> {
        let place = random.place(self.numbers.len());
        if place < self.numbers.len() {
            Some(self.numbers.swap_remove(place))
        } else {
            None
        }
    }
}
