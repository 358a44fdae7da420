ghost use Rattle.std.specs.Prelude.{◌≡◌, ◌<◌, Some, length, slice_get, OnOk, OnErr};
ghost use Rattle.std.specs.Bool.{OnTrue, OnFalse};
ghost use Rattle.world.specs.World.{WorldState, IsLawful, Spends, Gives, Wakes};

use base16::Reading;

/// Power has failed: the power cycle has no tick left.
#[derive(Clone, Copy, Debug, PartialEq, Eq)]
pub struct Off;

/// What outlives and interrupts a program: power, a clock and sensors. Each contract says all that its call changes.
pub trait World {
    /// All that contracts know of the outside at one moment.
    ghost state: { Self → WorldState };

    /// Spends one tick. It is `Off` exactly where the power cycle has none left.
    fn tick(&mut self) -> Result<(), Off>
        ensures ok { OnOk result (Spends 1 (state self.old) (state self.new)) }
        ensures off { OnErr result ((state self.old).left ≡ 0) }
        ensures unchanged { OnErr result (state self.new ≡ state self.old) }
        ensures lawful_before { IsLawful (state self.old) }
        ensures lawful { IsLawful (state self.new) };

    /// The next value of a sensor; channels are 0 to 15. It is a reading, so a tick was spent for it before.
    fn sense(&mut self, channel: u8) -> u16
        requires channel { channel < 16 }
        requires given { length (state self.old).readings < (state self.old).spent }
        ensures reading { Gives (Reading.Sense channel result) (state self.old) (state self.new) }
        ensures lawful { IsLawful (state self.new) };

    /// The clock in milliseconds, below 2^31, as a reading, so a tick was spent for it before.
    fn now(&mut self) -> u32
        requires { length (state self.old).readings < (state self.old).spent }
        ensures value { result ≡ (state self.old).clock }
        ensures reading { Gives (Reading.Clock result) (state self.old) (state self.new) }
        ensures lawful { IsLawful (state self.new) };

    /// The clock in milliseconds, below 2^31; no reading.
    fn clock(&self) -> u32
        ensures value { result ≡ (state self.now).clock }
        ensures lawful { IsLawful (state self.now) };

    /// Lets the off time pass and begins the next power cycle. It is false exactly where no cycle is left.
    fn wake(&mut self) -> bool
        ensures woken { OnTrue result (Wakes (state self.old) (state self.new)) }
        ensures none { OnFalse result ((state self.old).cycles ≡ 0) }
        ensures unchanged { OnFalse result (state self.new ≡ state self.old) }
        ensures lawful_before { IsLawful (state self.old) }
        ensures lawful { IsLawful (state self.new) };

    /// How many ticks have been spent in all, below 2^31.
    fn spent(&self) -> u32
        ensures value { result ≡ (state self.now).spent }
        ensures lawful { IsLawful (state self.now) };

    /// How many ticks the user asks for between two checkpoints.
    fn period(&self) -> u32
        ensures value { result ≡ (state self.now).period }
        ensures lawful { IsLawful (state self.now) };

    /// How many readings have been given, at most as many as ticks were spent.
    fn given(&self) -> u32
        ensures value { result ≡ length (state self.now).readings }
        ensures lawful { IsLawful (state self.now) };

    /// One of the readings given, by its place from 0.
    fn reading(&self, i: u32) -> Reading
        requires { i < length (state self.now).readings }
        ensures value { slice_get (state self.now).readings i ≡ Some result }
        ensures lawful { IsLawful (state self.now) };
}
