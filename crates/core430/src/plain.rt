ghost use Rattle.std.specs.Prelude.{◌≡◌, ◌/◌, ◌%◌, false, [], replicate, IfOk};
ghost use Rattle.base16.specs.Memory.{words_of};

use crate::memory::{Denied, Memory};
use base16::NoMemory;
use std::alloc::Global;
use std::marker::Model;

/// How many words there are.
const WORDS: usize = 32768;

/// A memory of which every word may be written. Contracts see it as the list of its 32,768 words, the first at byte
/// address 0.
#[derive(Drop)]
pub struct PlainMemory {
    words: Vec<u16>,
}

impl Model for PlainMemory {
    ghost use Rattle.std.specs.Prelude.{◌≡◌, ℕ, List, vec_len};

    ghost Value = { List ℕ };

    ghost view = { λ p. p.words.items };

    ghost invariant = { λ p. vec_len p.words ≡ 32768 };
}

impl PlainMemory {
    /// A memory in which each word is 0.
    pub fn new(alloc: Global) -> Result<PlainMemory, NoMemory>
        ensures { IfOk result (λ memory. memory ≡ replicate 32768 0) }
    {
        Ok(PlainMemory {
            words: vec![in alloc; 0; WORDS]?,
        })
    }
}

impl Memory for PlainMemory {
    ghost words = { λ p. words_of p };

    ghost denied = { λ p a. false };

    ghost lender = { λ p. 0 };

    ghost aside = { λ p. [] };

    fn get(&self, address: u16) -> u16 {
        self.words[address as usize / 2]
    }

    #[tactic(auto, using(base16::proofs::Writes::words_put))]
    fn put(&mut self, address: u16, word: u16) -> Result<(), Denied> {
        self.words[address as usize / 2] = word;
        Ok(())
    }
}
