ghost use Rattle.std.specs.Prelude.{◌≡◌, ◌+◌, ◌*◌, ◌%◌, ◌≤◌, ◌/◌, length, replicate, false, [], IfOk};
ghost use Rattle.base16.specs.Memory.{words_of, put};
ghost use Rattle.core430.specs.Bytes.{with_byte as with_byte_of};
ghost use Rattle.ideal430.specs.Service.{store_in};
ghost use Rattle.ideal430.specs.Loaded.{IsLoadable, loaded};
ghost use Rattle.ideal430.specs.Shown.{IsEven, filled};

use crate::service::Store;
use base16::board::{CODE, DATA, FIRST_STACK_POINTER};
use base16::{Image, NoMemory, Sequence, Words};
use core430::{Denied, Memory};
use std::alloc::Global;
use std::marker::Model;

/// How many words there are.
const WORDS: usize = 32768;

/// A memory of which every word may be written and which gives its words back. Contracts see it as the list of its
/// 32,768 words, the first at byte address 0.
#[derive(Drop)]
pub struct Ram {
    words: Vec<u16>,
}

impl Model for Ram {
    ghost use Rattle.std.specs.Prelude.{◌≡◌, ℕ, List, vec_len};

    ghost Value = { List ℕ };

    ghost view = { λ m. m.words.items };

    ghost invariant = { λ m. vec_len m.words ≡ 32768 };
}

impl Ram {
    /// A memory in which each word is 0.
    fn new(alloc: Global) -> Result<Ram, NoMemory>
        ensures { IfOk result (λ memory. memory ≡ replicate 32768 0) }
    {
        Ok(Ram {
            words: vec![in alloc; 0; WORDS]?,
        })
    }

    /// Sets the word at an even byte address.
    #[tactic(auto, using(base16::proofs::Writes::words_put))]
    fn set(&mut self, address: u16, word: u16)
        requires { address % 2 ≡ 0 }
        ensures { words_of self.new ≡ put (words_of self.old) address word }
    {
        self.words[address as usize / 2] = word;
    }

    /// All its words, in the same memory.
    pub fn into_words(self) -> Sequence<u16>
        ensures words { result ≡ self }
        ensures count { length result ≡ 32768 }
    {
        let Ram { words } = self;
        Sequence::from_vec(words)
    }
}

impl Words for Ram {
    ghost words = { λ m. words_of m };

    fn word(&self, address: u16) -> u16 {
        self.words[address as usize / 2]
    }
}

impl Memory for Ram {
    ghost words = { λ m. words_of m };

    ghost denied = { λ m a. false };

    ghost lender = { λ m. 0 };

    ghost aside = { λ m. [] };

    fn get(&self, address: u16) -> u16 {
        self.words[address as usize / 2]
    }

    fn put(&mut self, address: u16, word: u16) -> Result<(), Denied> {
        self.set(address, word);
        Ok(())
    }
}

/// The word with the byte at an address replaced.
fn with_byte(address: u16, word: u16, byte: u8) -> u16
    ensures { result ≡ with_byte_of address word byte }
{
    if address % 2 == 0 {
        word / 256 * 256 + u16::from(byte)
    } else {
        word % 256 + u16::from(byte) * 256
    }
}

/// Makes a store.
pub fn make(memory: &mut Ram, store: Store)
    requires { IsEven store }
    ensures { words_of memory.new ≡ store_in (words_of memory.old) store }
{
    match store {
        Store::Word { address, word } | Store::Link { address, word } => memory.set(address, word),
        Store::Byte { address, byte } => {
            let even = address - address % 2;
            let word = memory.word(even);
            memory.set(even, with_byte(address, word, byte));
        }
    }
}

/// Sets the words from an even byte address on.
fn fill(memory: &mut Ram, start: u16, words: &[u16])
    requires even { start % 2 ≡ 0 }
    requires fits { start + 2 * length words.now ≤ 65536 }
    ensures { words_of memory.new ≡ filled start words.now (length words.now) (words_of memory.old) }
{
    for (i, word) in words.iter().enumerate() {
        memory.set(start + 2 * i as u16, *word);
    }
}

/// The memory into which an image was loaded.
pub fn load(alloc: Global, image: &Image) -> Result<Ram, NoMemory>
    requires { IsLoadable image.now.code image.now.globals }
    ensures { IfOk result (λ memory. words_of memory ≡ loaded image.now.code image.now.globals) }
{
    let mut memory = Ram::new(alloc)?;
    fill(&mut memory, 0x1002, &[0x5443, 1]);
    fill(&mut memory, 0x1200, &[CODE, FIRST_STACK_POINTER]);
    fill(&mut memory, DATA, image.globals.as_slice());
    fill(&mut memory, CODE, image.code.as_slice());
    Ok(memory)
}
