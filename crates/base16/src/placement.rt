ghost use Rattle.std.specs.Prelude.{◌≡◌, ◌++◌, List, ℕ, Option, Some, None, drop, IfOk};
ghost use Rattle.base16.specs.Placement.{placed_from, or_else_none};
ghost use Rattle.base16.specs.Placement as spec;

use crate::board::{FIRST_STACK_POINTER, MOST_FRAME_BYTES, SEGMENT_BYTES, SEGMENT_COUNT, SEGMENTS};
use crate::name::NoMemory;
use crate::sequence::Sequence;
use std::alloc::Global;

/// The byte address of a new frame of so many bytes below the return word that a caller with this stack pointer pushes,
/// or in the next segment; none where the frame has more than 240 bytes or segment 31 has no place for it.
#[tactic(auto, unfolding(crate::specs::Placement::frame_below))]
pub fn frame_below(sp: u16, bytes: u32) -> Option<u16>
    ensures { result ≡ spec.frame_below sp bytes }
{
    let return_word = u32::from(sp.saturating_sub(2));
    let segment = u32::from(SEGMENT_BYTES);
    let base = return_word / segment * segment;
    if bytes > u32::from(MOST_FRAME_BYTES) {
        return None;
    }
    if base + bytes + 4 <= return_word {
        Some((return_word - bytes) as u16)
    } else if base < u32::from(SEGMENTS + SEGMENT_BYTES * (SEGMENT_COUNT - 1)) {
        Some((base + 2 * segment - 2 - bytes) as u16)
    } else {
        None
    }
}

/// The byte addresses of the frames of the live calls, from their bytes, oldest first; none where one of them has no
/// place.
#[tactic(auto, using(crate::proofs::Placing::place_turn, crate::proofs::Placing::place_none, crate::proofs::Placing::place_all))]
pub fn place(alloc: Global, frames: &[u32]) -> Result<Option<Sequence<u16>>, NoMemory>
    ensures { IfOk result (λ placed. placed ≡ spec.place frames.now) }
{
    let mut placed = Sequence::new(alloc);
    let mut sp = FIRST_STACK_POINTER;
    for bytes in frames {
        let Some(at) = frame_below(sp, *bytes) else {
            return Ok(None);
        };
        placed.push(at)?;
        sp = at;
    }
    Ok(Some(placed))
}

#[cfg(test)]
mod tests {
    use super::*;
    use std::test::Fail;

    #[test]
    fn frames_stand_below_return_words_or_in_the_next_segment(rt: HostRuntime) -> Result<(), Fail> {
        for (frames, addresses) in [
            ([].as_slice(), Some([].as_slice())),
            (&[6], Some(&[0x20f8])),
            (&[210, 130], Some(&[0x202c, 0x217c])),
            (&[6, 200], Some(&[0x20f8, 0x202e])),
            (&[130, 210], Some(&[0x207c, 0x212c])),
            (&[6, 240, 4], Some(&[0x20f8, 0x2006, 0x21fa])),
            (&[6, 200, 200], Some(&[0x20f8, 0x202e, 0x2136])),
            (&[250], None),
            (&[240, 241], None),
        ] {
            let placed = place(rt.alloc(), frames)?;
            match (&placed, addresses) {
                (Some(placed), Some(addresses)) => assert_eq!(rt; placed.as_slice(), addresses),
                (None, None) => {}
                _ => assert!(rt; false, "whether the frames have places"),
            }
        }
        let mut frames: Vec<u32> = Vec::new(rt.alloc());
        frames.push(6)?;
        for _ in 0..32 {
            frames.push(200)?;
        }
        assert!(rt; place(rt.alloc(), &frames)?.is_some());
        frames.push(200)?;
        assert!(rt; place(rt.alloc(), &frames)?.is_none());
        Ok(())
    }
}
