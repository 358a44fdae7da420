ghost use Rattle.std.specs.Prelude.{◌≡◌, get_or, None};
ghost use Rattle.c_run.specs.Actions as spec;

/// A timed scalar: its place among all stamps, and its lifetime in milliseconds.
#[derive(Clone, Copy, Debug, PartialEq, Eq)]
pub struct Timed {
    pub stamp: u32,
    pub lifetime: u64,
}

/// Whether a stamp is lacking or older than a limit in milliseconds.
fn older(now: u32, limit: u64, stamp: Option<u32>) -> bool
    ensures { result ≡ spec.older now limit stamp }
{
    match stamp {
        None => true,
        Some(then) => limit < u64::from(now.saturating_sub(then)),
    }
}

/// Whether the stamp at a place is lacking or older than a limit in milliseconds.
pub fn is_older(now: u32, limit: u64, stamp: u32, stamps: &[Option<u32>]) -> bool
    ensures { result ≡ spec.older now limit (get_or stamps.now stamp None) }
{
    let at = stamp as usize;
    if at < stamps.len() {
        older(now, limit, stamps[at])
    } else {
        true
    }
}

/// Whether one of some timed scalars is expired.
pub fn some_expired(now: u32, names: &[Timed], stamps: &[Option<u32>]) -> bool
    ensures { result ≡ spec.some_expired now names.now stamps.now }
{
    for name in names {
        if is_older(now, name.lifetime, name.stamp, stamps) {
            return true;
        }
    }
    false
}
