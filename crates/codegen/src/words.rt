//! The words of a program's data at its start.

ghost use Rattle.std.specs.Prelude.{◌≡◌, replicate, IfOk};
ghost use Rattle.base16.specs.Board.{data_start};
ghost use Rattle.codegen.specs.Bytes as spec;
ghost use Rattle.codegen.specs.Standing.{data_laid};
ghost use Rattle.codegen.specs.Words as words;

use crate::data::{DataLaid, Datum, data_of};
use base16::board::DATA;
use base16::{NoMemory, Sequence};
use core_tree::Core;
use std::alloc::Global;

/// Puts a byte at an address, if it is among these from the beginning of the data on.
#[tactic(auto, using(crate::proofs::Bytes::byte_put, crate::proofs::Bytes::byte_before, crate::proofs::Bytes::byte_behind))]
fn put(bytes: &mut Vec<u8>, address: u64, byte: u8)
    ensures { bytes.new.items ≡ spec.with_byte bytes.old.items data_start address byte }
{
    let first = u64::from(DATA);
    if address >= first && address - first < bytes.len() as u64 {
        bytes[(address - first) as usize] = byte;
    }
}

/// What stands for a datum of this code.
fn code_or_zero(code: Option<u16>) -> u16
    ensures { result ≡ words.code_or_zero code }
{
    match code {
        None => 0,
        Some(code) => code,
    }
}

/// Puts the bytes of a datum where it stands.
fn put_datum(bytes: &mut Vec<u8>, datum: Datum)
    ensures { bytes.new.items ≡ spec.with_datum datum bytes.old.items data_start }
{
    let address = u64::from(datum.address);
    let code = code_or_zero(datum.code);
    if datum.wide {
        put(bytes, address + 1, (code / 256) as u8);
    }
    put(bytes, address, (code % 256) as u8);
}

/// So many bytes that are 0.
fn zeros(alloc: Global, count: u32) -> Result<Vec<u8>, NoMemory>
    ensures { IfOk result (λ bytes. bytes.items ≡ replicate count 0) }
{
    Ok(vec![in alloc; 0; count as usize]?)
}

/// So many bytes of data from their beginning on. Of data that share a byte the first counts.
fn bytes_of(alloc: Global, all: &[Datum], count: u32) -> Result<Vec<u8>, NoMemory>
    ensures { IfOk result (λ bytes. bytes.items ≡ spec.bytes_from all.now data_start count) }
{
    let mut bytes = zeros(alloc, count)?;
    let mut at = all.len();
    while at > 0 {
        at -= 1;
        put_datum(&mut bytes, all[at]);
    }
    Ok(bytes)
}

/// The words of bytes, low bytes first.
#[tactic(auto, using(crate::proofs::Bytes::pair_turn, crate::proofs::Bytes::pairs_end))]
fn paired(alloc: Global, bytes: &[u8]) -> Result<Sequence<u16>, NoMemory>
    ensures { IfOk result (λ words. words ≡ spec.paired bytes.now) }
{
    let mut words = Sequence::new(alloc);
    for at in 0..bytes.len() / 2 {
        words.push(u16::from(bytes[2 * at]) + 256 * u16::from(bytes[2 * at + 1]))?;
    }
    Ok(words)
}

/// The words of a program's data at its start, which stand where they are laid.
///
/// # Errors
/// `NoMemory` if memory runs out, or if an address is above 2^32 - 1.
#[tactic(auto, using(crate::proofs::Bytes::words_are))]
pub fn global_words(alloc: Global, core: &Core, laid: &DataLaid) -> Result<Sequence<u16>, NoMemory>
    requires { laid.now ≡ data_laid core.now }
    ensures { IfOk result (λ all. all ≡ words.global_words core.now) }
{
    let data = data_of(alloc, core, laid)?;
    let bytes = bytes_of(alloc, data.as_slice(), laid.bytes)?;
    paired(alloc, bytes.as_slice())
}
