ghost use Rattle.std.specs.Prelude.{◌≡◌};
ghost use Rattle.core430.specs.Status.{with_flags, carry_of, zero_of, negative_of, overflow_of, is_off};

/// The status with C, Z, N and V replaced.
#[tactic(auto, unfolding(crate::specs::Status::with_flags))]
#[inline(always)]
pub fn with(status: u16, c: bool, z: bool, n: bool, v: bool) -> u16
    ensures { result ≡ with_flags status c z n v }
{
    let c = if c { 1 } else { 0 };
    let z = if z { 2 } else { 0 };
    let n = if n { 4 } else { 0 };
    let v = if v { 256 } else { 0 };
    status / 512 * 512 + v + status / 8 % 32 * 8 + n + z + c
}

#[tactic(auto, unfolding(crate::specs::Status::carry_of))]
#[inline(always)]
pub fn carry(status: u16) -> bool
    ensures { result ≡ carry_of status }
{
    status % 2 == 1
}

#[tactic(auto, unfolding(crate::specs::Status::zero_of))]
#[inline(always)]
pub fn zero(status: u16) -> bool
    ensures { result ≡ zero_of status }
{
    status / 2 % 2 == 1
}

#[tactic(auto, unfolding(crate::specs::Status::negative_of))]
#[inline(always)]
pub fn negative(status: u16) -> bool
    ensures { result ≡ negative_of status }
{
    status / 4 % 2 == 1
}

#[tactic(auto, unfolding(crate::specs::Status::overflow_of))]
#[inline(always)]
pub fn overflow(status: u16) -> bool
    ensures { result ≡ overflow_of status }
{
    status / 256 % 2 == 1
}

/// Whether CPUOFF is set.
#[tactic(auto, unfolding(crate::specs::Status::is_off))]
#[inline(always)]
pub fn off(status: u16) -> bool
    ensures { result ≡ is_off status }
{
    status / 16 % 2 == 1
}
