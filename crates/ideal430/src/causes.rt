ghost use Rattle.std.specs.Prelude.{◌≡◌, ◌+◌, ◌<◌, ◌^◌, ◌%◌, ℕ, Some, None, true};
ghost use Rattle.base16.specs.Board.{segment_top};
ghost use Rattle.core430.specs.Registers.{view_of};
ghost use Rattle.ideal430.specs.Places.{may_store};
ghost use Rattle.ideal430.specs.Service.{Block, has_stack, is_frame, is_linked as has_link, is_bad_link, is_built, wild_where, own_wild, wild_of};
ghost use Rattle.ideal430.specs.declared.service.Service.TheVariants.{Enter, Leave};

use crate::service::Service;
use base16::board::{DATA, DATA_END, MOST_FRAME_BYTES, SEGMENT_BYTES, SEGMENTS, SERVICES};
use base16::{Regs, Words};

/// The first byte address of a segment.
pub fn base_of(segment: u16) -> u16
    requires { segment < 32 }
    ensures { result + 256 ≡ segment_top segment }
{
    SEGMENTS + SEGMENT_BYTES * segment
}

/// Whether SP points to a word of a segment.
pub fn stands(segment: u16, sp: u16) -> bool
    requires { segment < 32 }
    ensures { result ≡ has_stack segment sp }
{
    let base = base_of(segment);
    sp % 2 == 0 && sp >= base && sp < base + SEGMENT_BYTES
}

/// Whether a frame may have so many bytes.
fn framed(bytes: u16) -> bool
    ensures { result ≡ is_frame bytes }
{
    bytes % 2 == 0 && bytes >= 4 && bytes <= MOST_FRAME_BYTES
}

/// Whether a program may store at an address by a service.
fn storable(segment: u16, address: u16) -> bool
    requires { segment < 32 }
    ensures { result ≡ may_store segment address }
{
    address >= DATA && address < DATA_END
        || address >= SEGMENTS && address < base_of(segment) + SEGMENT_BYTES
}

/// Whether the link word stands behind a frame that ends here.
pub fn linked(segment: u16, end: u16) -> bool
    requires segment { segment < 32 }
    requires end { end < 2 ^ 15 }
    ensures { result ≡ has_link segment end }
{
    segment > 0 && end + 2 == base_of(segment) + SEGMENT_BYTES
}

/// Whether `enter` is refused that finds SP at a word of the working segment.
fn enter_is_wild(regs: &Regs, segment: u16) -> bool
    requires segment { segment < 32 }
    requires stack { has_stack segment (view_of regs.now.r 1) ≡ true }
    ensures { (m : ℕ → ℕ) (block : Block)
        → own_wild Enter (view_of regs.now.r) m segment block ≡ wild_where result (view_of regs.now.r 1) None }
{
    !framed(regs.r[15]) || regs.r[1] + 2 == base_of(segment) + SEGMENT_BYTES
}

/// Whether a link word at an even address does not point to a word of the segment below.
fn badly_linked<M: Words>(memory: &M, segment: u16, end: u16) -> bool
    requires segment { segment < 32 }
    requires end { end < 2 ^ 15 }
    requires even { end % 2 ≡ 0 }
    ensures { result ≡ is_bad_link (M.words memory.now) segment end }
{
    linked(segment, end) && !stands(segment - 1, memory.word(end))
}

/// Whether `leave` is refused that finds SP at a word of the working segment.
fn leave_is_wild<M: Words>(regs: &Regs, memory: &M, segment: u16) -> bool
    requires segment { segment < 32 }
    requires stack { has_stack segment (view_of regs.now.r 1) ≡ true }
    ensures { (block : Block) → own_wild Leave (view_of regs.now.r) (M.words memory.now) segment block
        ≡ wild_where result (view_of regs.now.r 1) None }
{
    let bytes = regs.r[15];
    if !framed(bytes) {
        return true;
    }
    let end = regs.r[1] + 2 + bytes;
    end + 2 > base_of(segment) + SEGMENT_BYTES || badly_linked(memory, segment, end)
}

/// The address of the access for which a service is refused, if it is one that it may not make.
pub fn wild_cause<M: Words>(service: Service, regs: &Regs, memory: &M, segment: u16) -> Option<u16>
    requires segment { segment < 32 }
    requires built { is_built service ≡ true }
    ensures { (block : Block) → result ≡ wild_of service (view_of regs.now.r) (M.words memory.now) segment block }
{
    let sp = regs.r[1];
    if !stands(segment, sp) {
        return Some(sp);
    }
    let address = regs.r[14];
    match service {
        Service::Enter => where_wild(enter_is_wild(regs, segment), sp),
        Service::Leave => where_wild(leave_is_wild(regs, memory, segment), sp),
        Service::StoreWord => where_wild(
            !(address % 2 == 0 && storable(segment, address)),
            address,
        ),
        Service::StoreByte => where_wild(!storable(segment, address), address),
        Service::Sense => where_wild(regs.r[15] > 15, SERVICES + 2 * 8),
        _ => None,
    }
}

/// An address, where something holds.
fn where_wild(holds: bool, address: u16) -> Option<u16>
    ensures { result ≡ wild_where holds address None }
{
    if holds { Some(address) } else { None }
}
