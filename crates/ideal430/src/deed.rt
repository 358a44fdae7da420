ghost use Rattle.std.specs.Prelude.{◌≡◌, ◌+◌, ◌-◌, ◌<◌, ◌≤◌, ◌%◌, ◌^◌, ℕ, List, None, true, false};
ghost use Rattle.base16.specs.Board.{segment_top};
ghost use Rattle.core430.specs.Registers.{view_of, set_reg};
ghost use Rattle.ideal430.specs.Service.{Block, has_stack, is_frame, is_linked, has_place as has_place_below, is_bad_link, is_built, outputs_of, full_block as full_block_of, own_full, refusal_of, popped as popped_of, returned as returned_of, mark as mark_of, enter_effect, leave_effect, emit_stores, own_effect};
ghost use Rattle.ideal430.specs.declared.service.Service.TheVariants as ServiceName;
ghost use Rattle.ideal430.specs.Shown.{stores_shown, effect_shown, block_words};

use crate::causes::{base_of, linked, wild_cause};
use crate::service::{Service, Store};
use base16::board::{MOST_OUTPUTS, OUTPUTS, SEGMENT_BYTES, SEGMENT_COUNT};
use base16::{EndKind, Regs, Words};

/// Up to two stores, in order.
#[derive(Clone, Copy, Debug, PartialEq, Eq)]
pub enum Stores {
    NoStore,
    One(Store),
    Two(Store, Store),
}

/// What a service does that is not refused.
#[derive(Clone, Copy, Debug, PartialEq, Eq)]
pub struct Deed {
    /// The registers after it.
    pub regs: Regs,
    /// The working segment after it.
    pub segment: u16,
    pub stores: Stores,
    /// Whether it is a mark.
    pub marks: bool,
    /// Whether it asks for a checkpoint.
    pub asks: bool,
    /// Whether the run is over.
    pub ends: bool,
}

/// How many outputs there are.
fn outputs<M: Words>(memory: &M) -> u16
    ensures { result ≡ outputs_of (M.words memory.now) }
{
    memory.word(OUTPUTS).min(MOST_OUTPUTS)
}

/// Whether so many words more are more than an open block may note.
fn full_block(noted: Option<u16>, words: u16) -> Option<EndKind>
    ensures { (block : Block) → block_words block ≡ noted → result ≡ full_block_of block words }
{
    match noted {
        Some(length) if u32::from(length) + u32::from(words) > 128 => Some(EndKind::BlockFull),
        _ => None,
    }
}

/// Whether a frame has a place below an address of a segment.
fn has_place(segment: u16, below: u16, bytes: u16) -> bool
    requires { segment < 32 }
    ensures { result ≡ has_place_below segment below bytes }
{
    u32::from(base_of(segment)) + u32::from(bytes) + 4 <= u32::from(below)
}

/// How a service is refused that is not Wild: there is no place for a frame, for an output or for the words of a block.
/// `noted` is the number of words that an open block has noted.
fn full<M: Words>(
    service: Service,
    regs: &Regs,
    memory: &M,
    segment: u16,
    noted: Option<u16>,
) -> Option<EndKind>
    requires segment { segment < 32 }
    requires stack { has_stack segment (view_of regs.now.r 1) ≡ true }
    requires built { is_built service ≡ true }
    ensures { (block : Block) → block_words block ≡ noted
        → result ≡ own_full service (popped_of (view_of regs.now.r) (M.words memory.now)) (M.words memory.now) segment block }
{
    match service {
        Service::Enter => {
            if has_place(segment, regs.r[1] + 2, regs.r[15]) || segment != SEGMENT_COUNT - 1 {
                None
            } else {
                Some(EndKind::StackFull)
            }
        }
        Service::StoreWord | Service::StoreByte => full_block(noted, 1),
        Service::Emit => {
            if outputs(memory) < MOST_OUTPUTS {
                full_block(noted, 2)
            } else {
                Some(EndKind::OutputFull)
            }
        }
        _ => None,
    }
}

/// How a service is refused, if it is: as Wild before all else. It then does nothing and takes no reading. `noted` is the
/// number of words that an open block has noted.
pub fn refusal<M: Words>(
    service: Service,
    regs: &Regs,
    memory: &M,
    segment: u16,
    noted: Option<u16>,
) -> Option<EndKind>
    requires segment { segment < 32 }
    requires built { is_built service ≡ true }
    ensures { (block : Block) → block_words block ≡ noted
        → result ≡ refusal_of service (view_of regs.now.r) (M.words memory.now) segment block }
{
    match wild_cause(service, regs, memory, segment) {
        Some(address) => Some(EndKind::Wild { address }),
        None => full(service, regs, memory, segment, noted),
    }
}

/// The registers with one set.
fn with(regs: Regs, register: u8, word: u16) -> Regs
    requires { register < 16 }
    ensures { view_of result.r ≡ set_reg (view_of regs.r) register word }
{
    let mut r = regs.r;
    r[register as usize] = word;
    Regs { r }
}

/// The registers with the service's return word popped.
fn popped<M: Words>(regs: &Regs, memory: &M, segment: u16) -> Regs
    requires segment { segment < 32 }
    requires stack { has_stack segment (view_of regs.now.r 1) ≡ true }
    ensures { view_of result.r ≡ popped_of (view_of regs.now.r) (M.words memory.now) }
{
    let sp = regs.r[1];
    let back = memory.word(sp);
    with(with(*regs, 0, back), 1, sp + 2)
}

/// A mark that stores these words.
fn mark(regs: Regs, segment: u16, stores: Stores) -> Deed
    ensures { effect_shown result ≡ mark_of (view_of regs.r) segment (stores_shown stores) }
{
    Deed {
        regs,
        segment,
        stores,
        marks: true,
        asks: false,
        ends: false,
    }
}

/// A frame is made below the return word, or below the link word of the next segment.
fn enter(regs: Regs, segment: u16) -> Deed
    requires segment { segment < 32 }
    requires frame { is_frame (view_of regs.r 15) ≡ true }
    requires top { view_of regs.r 1 ≤ segment_top segment }
    requires place { (m : ℕ → ℕ) (block : Block) → own_full ServiceName.Enter (view_of regs.r) m segment block ≡ None }
    ensures { effect_shown result ≡ enter_effect (view_of regs.r) segment }
{
    let bytes = regs.r[15];
    let sp = regs.r[1];
    if has_place(segment, sp, bytes) {
        mark(with(regs, 1, sp - bytes), segment, Stores::NoStore)
    } else {
        let link = base_of(segment) + 2 * SEGMENT_BYTES - 2;
        mark(
            with(regs, 1, link - bytes),
            segment + 1,
            Stores::One(Store::Link {
                address: link,
                word: sp,
            }),
        )
    }
}

/// The function's return word at an even address is popped.
fn returned<M: Words>(regs: Regs, memory: &M, at: u16) -> Regs
    requires even { at % 2 ≡ 0 }
    requires low { at < 2 ^ 15 }
    ensures { view_of result.r ≡ returned_of (view_of regs.r) (M.words memory.now) at }
{
    let back = memory.word(at);
    with(with(regs, 0, back), 1, at + 2)
}

/// A frame is left, and the function's return word popped.
fn leave<M: Words>(regs: Regs, memory: &M, segment: u16) -> Deed
    requires segment { segment < 32 }
    requires even { (view_of regs.r 1 + view_of regs.r 15) % 2 ≡ 0 }
    requires end { view_of regs.r 1 + view_of regs.r 15 + 2 ≤ segment_top segment }
    requires link { is_bad_link (M.words memory.now) segment (view_of regs.r 1 + view_of regs.r 15) ≡ false }
    ensures { effect_shown result ≡ leave_effect (view_of regs.r) (M.words memory.now) segment
        (view_of regs.r 1 + view_of regs.r 15) }
{
    let end = regs.r[1] + regs.r[15];
    if linked(segment, end) {
        let at = memory.word(end);
        mark(returned(regs, memory, at), segment - 1, Stores::NoStore)
    } else {
        let left = mark(returned(regs, memory, end), segment, Stores::NoStore);
        Deed {
            ends: segment == 0 && end == 0x20fe,
            ..left
        }
    }
}

/// An output is appended.
fn emit<M: Words>(regs: Regs, memory: &M, segment: u16) -> Deed
    requires { outputs_of (M.words memory.now) < 256 }
    ensures { effect_shown result ≡ mark_of (view_of regs.r) segment
        (emit_stores (outputs_of (M.words memory.now)) (view_of regs.r 13)) }
{
    let length = outputs(memory);
    let word = Store::Word {
        address: OUTPUTS + 2 + 2 * length,
        word: regs.r[13],
    };
    let count = Store::Word {
        address: OUTPUTS,
        word: length + 1,
    };
    mark(regs, segment, Stores::Two(word, count))
}

/// What a service does that is not refused, with the value of the reading that it takes, 0 if it takes none.
pub fn deed_of<M: Words>(
    service: Service,
    value: u16,
    found: &Regs,
    memory: &M,
    segment: u16,
) -> Deed
    requires segment { segment < 32 }
    requires built { is_built service ≡ true }
    requires allowed { refusal_of service (view_of found.now.r) (M.words memory.now) segment None ≡ None }
    ensures { (block : Block) → effect_shown result
        ≡ own_effect service value (popped_of (view_of found.now.r) (M.words memory.now)) (M.words memory.now) segment block }
{
    let regs = popped(found, memory, segment);
    match service {
        Service::Halt => Deed {
            marks: false,
            ends: true,
            ..mark(regs, segment, Stores::NoStore)
        },
        Service::Enter => enter(regs, segment),
        Service::Leave => leave(regs, memory, segment),
        Service::StoreWord => mark(
            regs,
            segment,
            Stores::One(Store::Word {
                address: regs.r[14],
                word: regs.r[13],
            }),
        ),
        Service::StoreByte => mark(
            regs,
            segment,
            Stores::One(Store::Byte {
                address: regs.r[14],
                byte: (regs.r[13] % 256) as u8,
            }),
        ),
        Service::Sense => mark(with(regs, 12, value), segment, Stores::NoStore),
        Service::Emit => emit(regs, memory, segment),
        Service::Checkpoint => Deed {
            asks: true,
            ..mark(regs, segment, Stores::NoStore)
        },
        _ => mark(regs, segment, Stores::NoStore),
    }
}
