//! What is drawn by chance: the same for the same seed.
ghost use Rattle.std.specs.Prelude.{◌<◌, length};

use rand_core::utils::NextWord;
use rand_pcg::Pcg32;

/// The stream of all draws; a seed is where a generator stands in it.
const STREAM: u64 = 0x1b75;

/// Draws numbers and things.
#[derive(Drop)]
pub(crate) struct Chance {
    words: Pcg32,
}

impl Chance {
    pub(crate) fn new(seed: u64) -> Chance {
        Chance {
            words: Pcg32::new(seed, STREAM),
        }
    }

    fn word(&mut self) -> u32 {
        self.words.next_word()
    }

    /// A number below this one.
    pub(crate) fn below(&mut self, bound: u32) -> u32
        requires { 0 < bound }
        ensures { result < bound }
    {
        self.word() % bound
    }

    /// One time in so many.
    pub(crate) fn once_in(&mut self, times: u32) -> bool
        requires { 0 < times }
    {
        self.below(times) == 0
    }

    /// A byte.
    pub(crate) fn byte(&mut self) -> u8 {
        (self.word() & 0xff) as u8
    }

    /// A place among so many.
    pub(crate) fn place(&mut self, count: usize) -> usize
        requires { 0 < count }
        ensures { result < count }
    {
        self.word() as usize % count
    }

    /// One of these things.
    pub(crate) fn pick<T: Copy>(&mut self, things: &[T]) -> T
        requires { 0 < length things.now }
    {
        let place = self.place(things.len());
        things[place]
    }
}
