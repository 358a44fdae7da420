ghost use Rattle.std.specs.Prelude.{◌≡◌, ◌+◌, IfOk};

use base16::NoMemory;

/// A number so much greater.
pub fn further(from: u32, by: u32) -> Result<u32, NoMemory>
    ensures { IfOk result (λ to. to ≡ from + by) }
{
    match from.checked_add(by) {
        Some(to) => Ok(to),
        None => Err(NoMemory),
    }
}
