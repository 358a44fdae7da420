//! Names of functions.

ghost use Rattle.std.specs.Prelude.{◌≡◌, is_some};
ghost use Rattle.c_typing.specs.Calls.{builtin_named};
ghost use Rattle.c_checking.specs.Externals as spec;

use base16::Name;

/// Whether a name is among these.
#[tactic(auto, using(crate::proofs::Finding::one_turn, crate::proofs::Finding::one_here, crate::proofs::Finding::one_nowhere))]
pub fn is_one_of(names: &[Name], name: &Name) -> bool
    ensures { result ≡ spec.is_one_of names.now name.now }
{
    for other in names {
        if other.bytes() == name.bytes() {
            return true;
        }
    }
    false
}

/// Whether every source has a function of this name.
pub fn is_builtin(name: &Name) -> bool
    ensures { result ≡ is_some (builtin_named name.now) }
{
    let name = name.bytes();
    name == b"sense".as_slice() || name == b"emit".as_slice() || name == b"checkpoint".as_slice()
}
