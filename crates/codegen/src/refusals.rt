//! Which programs are refused.

ghost use Rattle.std.specs.Prelude.{◌≡◌, ◌≤◌, length};
ghost use Rattle.core_tree.specs.Data.{data_bytes};
ghost use Rattle.codegen.specs.Refused as spec;

use crate::errors::GenErr;
use core_tree::{Core, code_cost, frame_bytes};

/// The first function whose frame has more than 240 bytes.
#[tactic(auto, using(crate::proofs::Refused::frame_found, crate::proofs::Refused::frame_past))]
fn big_frame(core: &Core) -> Option<u16>
    requires { length core.now.functions ≤ 65536 }
    ensures { result ≡ spec.big_frame core.now.structs 0 core.now.functions }
{
    for number in 0..core.functions.len() {
        if frame_bytes(core, number as u16) > 240 {
            return Some(number as u16);
        }
    }
    None
}

/// Why a program with so many bytes of variables and stamps has no image.
pub fn refusal(core: &Core, bytes: u32) -> Option<GenErr>
    requires few { length core.now.functions ≤ 65536 }
    requires bytes { bytes ≡ data_bytes core.now }
    ensures { result ≡ spec.refusal_of core.now }
{
    if let Some(function) = big_frame(core) {
        return Some(GenErr::FrameTooBig { function });
    }
    if bytes > 16_384 {
        Some(GenErr::DataTooBig)
    } else if code_cost(core) > 27_648 {
        Some(GenErr::CodeTooBig)
    } else {
        None
    }
}
