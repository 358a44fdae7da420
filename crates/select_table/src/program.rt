//! The items of a form's functions among those that start it and those of the helper routines.

ghost use Rattle.std.specs.Prelude.{◌≡◌, IsTrue};
ghost use Rattle.asm430.specs.Assembly.{is_formed, are_formed};

use asm430::{AsmErr, Item, assemble};
use base16::NoMemory;
use ir::{Ir, IrFunction};
use isa430::{Instr, OneOp, Src, valid};
use rt430::{Helper, routine};
use select430::select;
use std::alloc::Global;
use std::marker::Model;

/// Items that may be assembled.
#[derive(Drop)]
pub struct Program {
    items: Vec<Item>,
}

impl Model for Program {
    ghost use Rattle.std.specs.Prelude.{List, IsTrue};
    ghost use Rattle.asm430.specs.declared.item.Item.{Item as AnItem};
    ghost use Rattle.asm430.specs.Assembly.{are_formed};

    ghost Value = { List AnItem };

    ghost view = { λ m. m.items.items };

    ghost invariant = { λ m. IsTrue (are_formed m.items.items) };
}

fn is_formed(item: &Item) -> bool
    ensures { result ≡ is_formed item.now }
{
    match item {
        Item::Instr(instr) => valid(instr),
        Item::AddressOf(_, register) => 4 <= *register && *register < 16,
        _ => true,
    }
}

pub fn function_label(function: u16) -> u64 {
    u64::from(function) * 1099511627776
}

pub fn step_label(function: u16, step: u32) -> u64 {
    function_label(function).wrapping_add(4 * (u64::from(step) + 1))
}

/// The helper routines in the order of their labels, the first of which is 2^60.
const HELPERS: [Helper; 8] = [
    Helper::Mul16,
    Helper::Udiv16,
    Helper::Umod16,
    Helper::Sdiv16,
    Helper::Smod16,
    Helper::Shl,
    Helper::Shr,
    Helper::Sar,
];

const HALT: Item = Item::Instr(Instr::One {
    op: OneOp::Call,
    byte: false,
    src: Src::Immediate(0xff00),
});

impl Program {
    pub fn new(alloc: Global) -> Program {
        Program {
            items: Vec::new(alloc),
        }
    }

    /// Adds an item, or a word that is no instruction where it may not be assembled.
    #[tactic(auto, using(asm430::proofs::Steps::formed_push))]
    fn push(&mut self, item: Item) -> Result<(), NoMemory> {
        if is_formed(&item) {
            self.items.push(item)?;
        } else {
            self.items.push(Item::Word(0))?;
        }
        Ok(())
    }

    fn push_helpers(&mut self) -> Result<(), NoMemory> {
        let mut label = 1152921504606846976u64;
        for which in HELPERS {
            self.push(Item::Label(label))?;
            for word in routine(which) {
                self.push(Item::Word(*word))?;
            }
            label = label.wrapping_add(1);
        }
        Ok(())
    }

    fn push_steps(
        &mut self,
        alloc: Global,
        ir: &Ir,
        number: u16,
        function: &IrFunction,
    ) -> Result<(), NoMemory> {
        let mut place = 0u32;
        for _step in function.steps.as_slice() {
            self.push(Item::Label(step_label(number, place)))?;
            let items = select(alloc, ir, number, place)?;
            for item in items.as_slice() {
                self.push(*item)?;
            }
            place = place.wrapping_add(1);
        }
        Ok(())
    }

    /// Adds all: `main` is called, then the run ends; the steps of all functions with their labels; the helper routines.
    pub fn push_all(&mut self, alloc: Global, ir: &Ir) -> Result<(), NoMemory> {
        self.push(Item::CallTo(function_label(ir.main)))?;
        self.push(HALT)?;
        let mut number = 0u16;
        for function in ir.functions.as_slice() {
            self.push(Item::Label(function_label(number)))?;
            self.push_steps(alloc, ir, number, function)?;
            number = number.wrapping_add(1);
        }
        self.push_helpers()
    }

    /// The words, if there are not too many items.
    pub fn words(&self, alloc: Global) -> Result<Vec<u16>, AsmErr> {
        if self.items.len() >= 1_000_000 {
            return Err(AsmErr::TooLong);
        }
        assemble(alloc, self.items.as_slice())
    }
}
