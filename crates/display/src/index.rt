ghost use Rattle.std.specs.Prelude.{◌≡◌, ℕ, ◌+◌, ◌<◌, ◌==◌, IfOk, IfSome, Some, slice_get, vec_len, length, if◌then◌else◌};
ghost use Rattle.display.specs.Display.{AreInData};
ghost use Rattle.display.specs.Index.{IsBlank, IsIndexOf, noted};

use base16::board::DATA_END;
use base16::{NoMemory, Scalar};
use std::alloc::Global;
use std::marker::Model;

/// How many byte addresses there are up to the end of the data.
const PLACES: usize = DATA_END as usize;

/// Which scalar stands at a byte address of the data, and which scalar's stamp, by the scalar's number.
#[derive(Drop)]
pub struct ScalarIndex {
    values: Vec<Option<u32>>,
    stamps: Vec<Option<u32>>,
}

impl Model for ScalarIndex {
    ghost use Rattle.display.specs.Index.{Index};

    ghost Value = { Index };

    ghost view = { λ x. record { values = x.values.items; stamps = x.stamps.items } };
}

impl ScalarIndex {
    /// The index of these scalars, which takes half a megabyte.
    pub fn new(alloc: Global, scalars: &[Scalar]) -> Result<ScalarIndex, NoMemory>
        requires { AreInData scalars.now }
        ensures { IfOk result (λ index. IsIndexOf scalars.now index) }
    {
        let mut values = blank(alloc)?;
        let mut stamps = blank(alloc)?;
        for (n, scalar) in scalars.iter().enumerate() {
            // More scalars than numbers would not fit in memory.
            let Ok(number) = u32::try_from(n) else {
                return Err(NoMemory);
            };
            note(&mut values, scalar.address, number);
            if let Some(address) = scalar.stamp {
                note(&mut stamps, address, number);
            }
        }
        Ok(ScalarIndex { values, stamps })
    }

    /// The scalar that stands at an address below 8000 (hexadecimal).
    pub fn value_at(&self, address: u16) -> Option<u32>
        requires { address < length self.now.values }
        ensures { slice_get self.now.values address ≡ Some result }
    {
        self.values[address as usize]
    }

    /// The scalar whose stamp stands at an address below 8000 (hexadecimal).
    pub fn stamp_at(&self, address: u16) -> Option<u32>
        requires { address < length self.now.stamps }
        ensures { slice_get self.now.stamps address ≡ Some result }
    {
        self.stamps[address as usize]
    }
}

/// No scalar at any place.
fn blank(alloc: Global) -> Result<Vec<Option<u32>>, NoMemory>
    ensures { IfOk result (λ places. IsBlank places.items) }
{
    let mut places = Vec::with_capacity(alloc, PLACES)?;
    'fill: while places.len() < PLACES {
        places.push(None)?;
    }
    Ok(places)
}

/// Notes the number of a scalar at an address, where none is noted yet.
fn note(places: &mut Vec<Option<u32>>, address: u16, number: u32)
    requires { address < length places.old.items }
    ensures { places.new.items ≡ noted places.old.items address number }
{
    if places[address as usize].is_none() {
        places[address as usize] = Some(number);
    }
}
