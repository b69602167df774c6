//! Numbers and texts by chance, the same in each run.

use std::alloc::{AllocError, Global};

/// Numbers by chance: each follows from the one before it.
#[derive(Drop)]
pub(crate) struct Chance {
    state: u64,
}

impl Chance {
    /// The numbers of a list of calls.
    pub(crate) fn new(list: u32) -> Chance {
        let mut chance = Chance {
            state: u64::from(list),
        };
        for _ in 0..4 {
            let _unused = chance.below(1);
        }
        chance
    }

    /// The next number below this one; 0 if there is none.
    pub(crate) fn below(&mut self, most: u32) -> u32 {
        self.state = self
            .state
            .wrapping_mul(6364136223846793005)
            .wrapping_add(1442695040888963407);
        let number = (self.state >> 32) as u32;
        number.checked_rem(most).unwrap_or(0)
    }

    /// Whether something happens that happens once in so many times.
    pub(crate) fn once_in(&mut self, times: u32) -> bool {
        self.below(times) == 0
    }

    /// A limit, at most this one; often 0, or a small number.
    pub(crate) fn limit(&mut self, most: u32) -> u32 {
        match self.below(8) {
            0 => 0,
            1 => self.below(20).min(most),
            2..=3 => self.below(150).min(most),
            _ => self.below(most),
        }
    }

    /// A short text, or one that lies in up to four chunks.
    pub(crate) fn text(&mut self, alloc: Global) -> Result<Vec<u8>, AllocError> {
        let most = if self.once_in(3) { 380 } else { 9 };
        let count = self.below(most);
        let mut text = Vec::new(alloc);
        for _ in 0..count {
            let [byte, ..] = self.below(256).to_le_bytes();
            text.push(byte)?;
        }
        Ok(text)
    }
}
