ghost use Rattle.std.specs.Prelude.{◌≡◌, ℕ, ◌/◌, ◌%◌, length, slice_index, slice_set, replicate, IfOk, OnOk, OnErr};
ghost use Rattle.base16.specs.Memory.{words_of, put};
ghost use Rattle.fram.specs.Contents.{poked_after};
ghost use Rattle.world.specs.World.{IsLawful, Spends};

use base16::board::{DATA, SEGMENTS};
use base16::{NoMemory, Words};
use std::alloc::Global;
use std::marker::Model;
use world::{Off, World};

/// How many words the memory has.
pub const WORDS: usize = 32768;

/// The board's memory. Byte addresses are 0000 to FFFF (hexadecimal), and each word stands at an even one.
#[derive(Drop)]
pub struct Fram {
    words: Vec<u16>,
    poked: u64,
}

impl Model for Fram {
    ghost use Rattle.std.specs.Prelude.{◌≡◌, vec_len};
    ghost use Rattle.fram.specs.Contents.{Contents};

    ghost Value = { Contents };

    ghost view = { λ f. record { words = f.words.items; poked = f.poked } };

    ghost invariant = { λ f. vec_len f.words ≡ 32768 };
}

impl Fram {
    /// A memory in which each word is 0.
    pub fn blank(alloc: Global) -> Result<Fram, NoMemory>
        ensures words { IfOk result (λ fram. fram.words ≡ replicate 32768 0) }
        ensures memory { IfOk result (λ fram. (a : ℕ) → words_of fram.words a ≡ 0) }
        ensures poked { IfOk result (λ fram. fram.poked ≡ 0) }
    {
        Ok(Fram {
            words: vec![in alloc; 0; WORDS]?,
            poked: 0,
        })
    }

    /// The word at an even byte address.
    pub fn get(&self, address: u16) -> u16
        requires { address % 2 ≡ 0 }
        ensures value { result ≡ slice_index self.now.words (address / 2) }
        ensures memory { result ≡ words_of self.now.words address }
        ensures size { length self.now.words ≡ 32768 }
    {
        self.words[address as usize / 2]
    }

    /// Sets the word at an even byte address, at no cost in ticks: what a load does, and never a running program.
    pub fn poke(&mut self, address: u16, word: u16)
        requires { address % 2 ≡ 0 }
        ensures words { self.new.words ≡ slice_set self.old.words (address / 2) word }
        ensures memory { words_of self.new.words ≡ put (words_of self.old.words) address word }
        ensures poked { self.new.poked ≡ poked_after address self.old.poked }
        ensures size { length self.new.words ≡ 32768 }
    {
        self.words[address as usize / 2] = word;
        if address < SEGMENTS || address >= DATA {
            self.poked = self.poked.saturating_add(1);
        }
    }

    /// Spends a tick and then sets the word at an even byte address. It is `Off` exactly where the power cycle has no
    /// tick left, and then nothing changes.
    pub fn write<W: World>(&mut self, world: &mut W, address: u16, word: u16) -> Result<(), Off>
        requires { address % 2 ≡ 0 }
        ensures written { OnOk result (self.new.words ≡ slice_set self.old.words (address / 2) word) }
        ensures memory { OnOk result (words_of self.new.words ≡ put (words_of self.old.words) address word) }
        ensures tick { OnOk result (Spends 1 (W.state world.old) (W.state world.new)) }
        ensures off { OnErr result ((W.state world.old).left ≡ 0) }
        ensures kept { OnErr result (self.new.words ≡ self.old.words) }
        ensures world_kept { OnErr result (W.state world.new ≡ W.state world.old) }
        ensures poked { self.new.poked ≡ self.old.poked }
        ensures size { length self.new.words ≡ 32768 }
        ensures lawful_before { IsLawful (W.state world.old) }
        ensures lawful { IsLawful (W.state world.new) }
    {
        let place = &mut self.words[address as usize / 2];
        world.tick()?;
        *place = word;
        Ok(())
    }
}

impl Words for Fram {
    ghost words = { λ fram. words_of fram.words };

    fn word(&self, address: u16) -> u16 {
        self.get(address)
    }
}
