//! Random numbers and words.

ghost use Rattle.std.specs.Prelude.{◌<◌, max};

/// A linear congruential generator.
#[derive(Drop)]
pub struct Draws {
    state: u64,
}

impl Draws {
    /// The draws of this seed.
    pub fn new(seed: u64) -> Draws {
        Draws { state: seed }
    }

    /// The next number below the limit.
    pub fn below(&mut self, limit: u64) -> u64
        ensures { result < max limit 1 }
    {
        self.state = self
            .state
            .wrapping_mul(6364136223846793005)
            .wrapping_add(1442695040888963407);
        (self.state >> 20) % limit.max(1)
    }

    /// One of the words.
    pub fn word<'a>(&mut self, words: &[&'a str]) -> &'a str {
        let place = self.below(words.len() as u64) as usize;
        match words.get(place) {
            Some(word) => *word,
            None => "",
        }
    }
}
