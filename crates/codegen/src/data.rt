//! The data of a program: where its variables and stamps stand, and what stands there at the start.

ghost use Rattle.std.specs.Prelude.{◌≡◌, ◌+◌, ◌*◌, ◌++◌, length, map, slice_get, IfOk, OnOk};
ghost use Rattle.c_meaning.specs.After as whole;
ghost use Rattle.c_run.specs.Actions.{kept};
ghost use Rattle.c_values.specs.Objects.{wide};
ghost use Rattle.codegen.specs.Standing.{variable_addresses, data_laid, addresses_behind, bytes_behind};
ghost use Rattle.codegen.specs.Words as words;
ghost use Rattle.core_layout.specs.Laid.{IsLaid, layout_of};
ghost use Rattle.core_tree.specs.Data as spec;
ghost use Rattle.core_tree.specs.Layout as layout;
ghost use Rattle.matching.specs.Matches as matches;

use crate::sums::further;
use base16::board::DATA;
use base16::{Kind, NoMemory, Sequence};
use c_start::start;
use c_values::{Cell, Object, Value, word_of};
use core_layout::{Laid, slots_of, small_type_laid, structs_laid};
use core_tree::{Core, Global as Variable};
use std::alloc::Global;

/// A word or a byte of the data, and what stands there; nothing of it is said where it has no value.
#[derive(Clone, Copy)]
pub struct Datum {
    pub address: u32,
    pub wide: bool,
    pub code: Option<u16>,
}

/// Where the data of a program stand: the addresses of its variables in order, that of the first stamp, and how many bytes
/// there are.
#[derive(Drop)]
pub struct DataLaid {
    pub addresses: Sequence<u32>,
    pub stamps: u32,
    pub bytes: u32,
}

// Where the data stand.

/// The bytes of so many stamps.
fn stamp_bytes(count: u32) -> Result<u32, NoMemory>
    ensures { IfOk result (λ bytes. bytes ≡ 4 * count) }
{
    match count.checked_mul(4) {
        Some(bytes) => Ok(bytes),
        None => Err(NoMemory),
    }
}

/// Where a thing stands behind so many bytes.
fn start_behind(bytes: u32, even: bool) -> Result<u32, NoMemory>
    ensures { IfOk result (λ start. start ≡ layout.aligned even bytes) }
{
    if even {
        Ok(further(bytes, bytes % 2)?)
    } else {
        Ok(bytes)
    }
}

/// The layouts of the variables.
fn globals_laid(
    alloc: Global,
    core: &Core,
    known: &[Option<Laid>],
) -> Result<Sequence<Laid>, NoMemory>
    requires { IsLaid known.now core.now.structs }
    ensures { IfOk result (λ all. map layout_of all ≡ spec.global_layouts core.now core.now.globals) }
{
    let structs = core.structs.as_slice();
    let mut all = Sequence::new(alloc);
    for variable in core.globals.as_slice() {
        all.push(small_type_laid(alloc, structs, known, &variable.ty)?)?;
    }
    Ok(all)
}

/// The addresses of variables with these layouts.
#[tactic(auto, using(crate::proofs::Standing::addresses_turn))]
fn addresses_of(alloc: Global, laid: &[Laid]) -> Result<Sequence<u32>, NoMemory>
    ensures { IfOk result (λ all. all ≡ addresses_behind 0 (map layout_of laid.now)) }
{
    let mut all = Sequence::new(alloc);
    let mut bytes: u32 = 0;
    for next in laid {
        let start = start_behind(bytes, next.even)?;
        all.push(further(u32::from(DATA), start)?)?;
        bytes = further(start, u32::from(next.size))?;
    }
    Ok(all)
}

/// The bytes of variables with these layouts.
#[tactic(auto, using(crate::proofs::Standing::bytes_turn))]
fn bytes_of(laid: &[Laid]) -> Result<u32, NoMemory>
    ensures { IfOk result (λ bytes. bytes ≡ bytes_behind 0 (map layout_of laid.now)) }
{
    let mut bytes: u32 = 0;
    for next in laid {
        let start = start_behind(bytes, next.even)?;
        bytes = further(start, u32::from(next.size))?;
    }
    Ok(bytes)
}

/// How many stamps a variable has.
fn stamp_count(
    alloc: Global,
    core: &Core,
    known: &[Option<Laid>],
    variable: &Variable,
) -> Result<u32, NoMemory>
    requires { IsLaid known.now core.now.structs }
    ensures { IfOk result (λ count. count ≡ spec.stamp_count core.now variable.now) }
{
    match variable.lifetime {
        None => Ok(0),
        Some(_) => {
            let slots = slots_of(alloc, core.structs.as_slice(), known, &variable.ty)?;
            if slots.len() > u32::MAX as usize {
                return Err(NoMemory);
            }
            Ok(slots.len() as u32)
        }
    }
}

/// How many stamps a program has.
#[tactic(auto, using(crate::proofs::Standing::stamps_turn))]
fn stamps_of(alloc: Global, core: &Core, known: &[Option<Laid>]) -> Result<u32, NoMemory>
    requires { IsLaid known.now core.now.structs }
    ensures { IfOk result (λ count. count ≡ spec.stamps_of core.now core.now.globals) }
{
    let mut count: u32 = 0;
    for variable in core.globals.as_slice() {
        count = further(count, stamp_count(alloc, core, known, variable)?)?;
    }
    Ok(count)
}

/// Where the variables and stamps of a program stand.
///
/// # Errors
/// `NoMemory` if memory runs out, if a variable has more than 16,383 bytes, or if an address is above 2^32 - 1.
pub fn variables_laid(alloc: Global, core: &Core) -> Result<DataLaid, NoMemory>
    ensures { IfOk result (λ laid. laid ≡ data_laid core.now) }
{
    let known = structs_laid(alloc, core.structs.as_slice())?;
    let laid = globals_laid(alloc, core, known.as_slice())?;
    let addresses = addresses_of(alloc, laid.as_slice())?;
    let rounded = start_behind(bytes_of(laid.as_slice())?, true)?;
    let stamps = further(u32::from(DATA), rounded)?;
    let count = stamps_of(alloc, core, known.as_slice())?;
    let bytes = further(rounded, stamp_bytes(count)?)?;
    Ok(DataLaid {
        addresses,
        stamps,
        bytes,
    })
}

// What stands there.

/// Whether a scalar is a word.
fn is_wide(kind: Kind) -> bool
    ensures { result ≡ wide kind }
{
    match kind {
        Kind::Char => false,
        Kind::Int => true,
        Kind::UInt => true,
        Kind::Pointer => true,
    }
}

/// How a number stands in a scalar.
fn number_code(kind: Kind, number: i64) -> u16
    ensures { result ≡ matches.number_code kind number }
{
    if is_wide(kind) {
        word_of(number)
    } else {
        word_of(number) % 256
    }
}

/// The address of the variable of a number, if there is one.
fn address_of(addresses: &[u32], number: u64) -> Option<u32>
    ensures { result ≡ slice_get addresses.now number }
{
    if number < addresses.len() as u64 {
        Some(addresses[number as usize])
    } else {
        None
    }
}

/// The address so many bytes behind another.
fn pointer_code(address: Option<u32>, offset: u16) -> Option<u16>
    ensures { result ≡ matches.pointer_code address offset }
{
    match address {
        None => None,
        Some(address) => Some(((address % 65_536) as u16).wrapping_add(offset)),
    }
}

/// How a value stands in a scalar at the start of a program, whose variables have these addresses.
#[tactic(auto, using(crate::proofs::Coding::variable_found))]
pub fn encoded(_core: &Core, addresses: &[u32], kind: Kind, value: Value) -> Option<u16>
    requires { addresses.now ≡ variable_addresses _core.now }
    ensures { result ≡ matches.encoded (matches.placed _core.now (kept (whole.start _core.now))) kind value }
{
    match value {
        Value::Int(number) => Some(number_code(kind, number)),
        Value::Pointer { object, offset } => pointer_code(address_of(addresses, object), offset),
        Value::Null => Some(0),
        Value::Undefined => None,
    }
}

/// A scalar of a variable that stands at an address.
fn scalar(core: &Core, addresses: &[u32], address: u32, cell: Cell) -> Result<Datum, NoMemory>
    requires { addresses.now ≡ variable_addresses core.now }
    ensures { IfOk result (λ made.
        made ≡ words.scalar_datum (matches.placed core.now (kept (whole.start core.now))) address cell) }
{
    Ok(Datum {
        address: further(address, u32::from(cell.offset))?,
        wide: is_wide(cell.kind),
        code: encoded(core, addresses, cell.kind, cell.value),
    })
}

/// Adds the scalars of a variable that stands at an address.
#[tactic(auto, using(crate::proofs::Coding::scalars_turn))]
fn push_scalars(
    core: &Core,
    addresses: &[u32],
    address: u32,
    cells: &[Cell],
    into: &mut Sequence<Datum>,
) -> Result<(), NoMemory>
    requires { addresses.now ≡ variable_addresses core.now }
    ensures { let alive = matches.placed core.now (kept (whole.start core.now)) in
        OnOk result (into.new ≡ into.old ++ words.scalar_data alive address cells.now) }
{
    for cell in cells {
        into.push(scalar(core, addresses, address, *cell)?)?;
    }
    Ok(())
}

/// Adds the scalars of the variables.
fn push_objects(
    core: &Core,
    addresses: &[u32],
    objects: &[Object],
    into: &mut Sequence<Datum>,
) -> Result<(), NoMemory>
    requires there { addresses.now ≡ variable_addresses core.now }
    requires as_many { length objects.now ≡ length addresses.now }
    ensures { let alive = matches.placed core.now (kept (whole.start core.now)) in
        OnOk result (into.new
        ≡ into.old ++ words.object_data alive (matches.placed_from (spec.global_address core.now) 0 objects.now)) }
{
    for at in 0..objects.len() {
        let address = addresses[at];
        push_scalars(core, addresses, address, objects[at].cells.as_slice(), into)?;
    }
    Ok(())
}

/// A stamp as a number.
fn stamp_code(stamp: Option<u32>) -> u32
    ensures { result ≡ matches.stamp_code stamp }
{
    match stamp {
        None => 0xFFFF_FFFF,
        Some(ms) => ms,
    }
}

/// Adds stamps, the first of which stands at an address.
fn push_stamps(
    _core: &Core,
    first: u32,
    stamps: &[Option<u32>],
    into: &mut Sequence<Datum>,
) -> Result<(), NoMemory>
    requires { first ≡ spec.stamps_start _core.now }
    ensures { OnOk result (into.new ≡ into.old ++ words.stamp_data _core.now 0 stamps.now) }
{
    let mut low = first;
    for stamp in stamps {
        let code = stamp_code(*stamp);
        let high = further(low, 2)?;
        into.push(word(low, (code % 65_536) as u16))?;
        into.push(word(high, (code / 65_536) as u16))?;
        low = further(low, 4)?;
    }
    Ok(())
}

/// A word at an address.
fn word(address: u32, code: u16) -> Datum
    ensures { result ≡ words.word_datum address code }
{
    Datum {
        address,
        wide: true,
        code: Some(code),
    }
}

/// The scalars and stamps of a program at its start, which stand where they are laid.
///
/// # Errors
/// `NoMemory` if memory runs out, or if an address is above 2^32 - 1.
#[tactic(auto, using(crate::proofs::Coding::as_many, crate::proofs::Coding::data_are))]
pub fn data_of(alloc: Global, core: &Core, laid: &DataLaid) -> Result<Sequence<Datum>, NoMemory>
    requires { laid.now ≡ data_laid core.now }
    ensures { IfOk result (λ all. all ≡ words.data_of core.now) }
{
    let first = start(alloc, core)?;
    let mut all = Sequence::new(alloc);
    let addresses = laid.addresses.as_slice();
    push_objects(core, addresses, first.globals.as_slice(), &mut all)?;
    push_stamps(core, laid.stamps, first.stamps.as_slice(), &mut all)?;
    Ok(all)
}
