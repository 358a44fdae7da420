ghost use Rattle.std.specs.Prelude.{◌≡◌, ℕ, ◌%◌, Bool, List, OnOk, OnErr, is_err};
ghost use Rattle.base16.specs.Memory.{put as put_word};

/// A write that was refused.
#[derive(Clone, Copy, Debug, PartialEq, Eq)]
pub struct Denied;

/// A memory of 32,768 words at the even byte addresses, some of which may not be written.
pub trait Memory {
    /// The word at each even byte address.
    ghost words: { Self → ℕ → ℕ };

    /// Whether a write to an address is refused.
    ghost denied: { Self → ℕ → Bool };

    /// The name of the reference through which it writes, where it holds one: a caller that lends its memory gets it back
    /// as the steps left it.
    ghost lender: { Self → ℕ };

    /// What no write changes.
    ghost aside: { Self → List ℕ };

    /// The word at an even byte address.
    fn get(&self, address: u16) -> u16
        requires { address % 2 ≡ 0 }
        ensures { result ≡ words self.now address };

    /// Sets the word at an even byte address and no other, or changes nothing where the address is denied.
    fn put(&mut self, address: u16, word: u16) -> Result<(), Denied>
        requires { address % 2 ≡ 0 }
        ensures refused { is_err result ≡ denied self.old address }
        ensures ok { OnOk result (words self.new ≡ put_word (words self.old) address word) }
        ensures err { OnErr result (words self.new ≡ words self.old) }
        ensures kept { denied self.new ≡ denied self.old }
        ensures lender { lender self.new ≡ lender self.old }
        ensures aside { aside self.new ≡ aside self.old };
}
