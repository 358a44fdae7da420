ghost use Rattle.std.specs.Prelude.{◌≡◌, ◌+◌, ◌^◌, ◌<◌, ◌≤◌, length, IfOk, IsTrue};
ghost use Rattle.asm430.specs.Assembly.{are_formed, is_formed};

use asm430::{AsmErr, Item, assemble, code_is_read_in_one_way, listing};
use base16::{FuncSym, Image, Kind, Name, NoMemory, Scalar, Sequence, Symbols};
use isa430::{Cond, Dst, Instr, Src, TwoOp};
use std::alloc::{AllocError, Global};
use std::process::Abort;
use std::test::Fail;

const MOVE: Item = Item::Instr(Instr::Two {
    op: TwoOp::Mov,
    byte: false,
    src: Src::Reg(12),
    dst: Dst::Reg(13),
});

const STORE: Item = Item::Instr(Instr::Two {
    op: TwoOp::Mov,
    byte: false,
    src: Src::Immediate(0x1234),
    dst: Dst::Absolute(0x4000),
});

const RETURN: Item = Item::Instr(Instr::Two {
    op: TwoOp::Mov,
    byte: false,
    src: Src::Increment(1),
    dst: Dst::Reg(0),
});

fn check_words(rt: &impl Abort, alloc: Global, items: &[Item], words: &[u16]) -> Result<(), AsmErr>
    requires formed { IsTrue (are_formed items.now) }
    requires few { length items.now < 2 ^ 32 }
{
    let made = assemble(alloc, items)?;
    assert_eq!(rt; made.as_slice(), words, "{items:?}");
    Ok(())
}

fn check_fault(rt: &impl Abort, alloc: Global, items: &[Item], fault: AsmErr)
    requires formed { IsTrue (are_formed items.now) }
    requires few { length items.now < 2 ^ 32 }
{
    assert_eq!(rt; assemble(alloc, items).err(), Some(fault));
}

/// Two items with words between them.
#[tactic(auto, using(asm430::proofs::Steps::formed_push))]
fn spaced(alloc: Global, first: Item, words: u32, last: Item) -> Result<Vec<Item>, AllocError>
    requires first { IsTrue (is_formed first) }
    requires last { IsTrue (is_formed last) }
    requires few { words < 2 ^ 20 }
    ensures formed { IfOk result (λ items. IsTrue (are_formed items.items)) }
    ensures few { IfOk result (λ items. length items.items < 2 ^ 32) }
{
    let mut items = Vec::new(alloc);
    items.push(first)?;
    for _i in 0..words {
        items.push(Item::Word(7))?;
    }
    items.push(last)?;
    Ok(items)
}

#[test]
fn labels_stand_for_their_places(rt: HostRuntime) -> Result<(), Fail> {
    let alloc = rt.alloc();
    check_words(&rt, alloc, &[], &[])?;
    check_words(
        &rt,
        alloc,
        &[Item::Label(0), Item::Jump(Cond::Always, 0)],
        &[0x3fff],
    )?;
    check_words(
        &rt,
        alloc,
        &[Item::Jump(Cond::Always, 1), Item::Label(1)],
        &[0x3c00],
    )?;
    check_words(
        &rt,
        alloc,
        &[
            Item::Jump(Cond::Z, 7),
            Item::Word(1),
            Item::Word(2),
            Item::Label(7),
        ],
        &[0x2402, 1, 2],
    )?;
    check_words(
        &rt,
        alloc,
        &[STORE, Item::Label(1), Item::Jump(Cond::Nz, 1)],
        &[0x40b2, 0x1234, 0x4000, 0x23ff],
    )?;
    check_words(
        &rt,
        alloc,
        &[Item::Branch(5), Item::Label(5), MOVE],
        &[0x4030, 0x8004, 0x4c0d],
    )?;
    check_words(
        &rt,
        alloc,
        &[Item::CallTo(2), Item::Word(9), Item::Label(2), RETURN],
        &[0x12b0, 0x8006, 9, 0x4130],
    )?;
    check_words(
        &rt,
        alloc,
        &[Item::AddressOf(3, 4), Item::Label(3)],
        &[0x4034, 0x8004],
    )?;
    check_words(
        &rt,
        alloc,
        &[Item::Label(u64::MAX), Item::AddressOf(u64::MAX, 15)],
        &[0x403f, 0x8000],
    )?;
    Ok(())
}

#[test]
fn a_label_that_is_not_used_may_stand_twice(rt: HostRuntime) -> Result<(), Fail> {
    check_words(
        &rt,
        rt.alloc(),
        &[Item::Label(4), MOVE, Item::Label(4)],
        &[0x4c0d],
    )?;
    Ok(())
}

#[test]
fn a_used_label_stands_exactly_once(rt: HostRuntime) {
    let alloc = rt.alloc();
    check_fault(
        &rt,
        alloc,
        &[Item::Jump(Cond::Always, 1)],
        AsmErr::Unbound { label: 1 },
    );
    check_fault(
        &rt,
        alloc,
        &[Item::Label(1), Item::Jump(Cond::Always, 1), Item::Label(1)],
        AsmErr::Unbound { label: 1 },
    );
    check_fault(
        &rt,
        alloc,
        &[Item::CallTo(2), Item::Jump(Cond::Always, 1)],
        AsmErr::Unbound { label: 2 },
    );
}

#[test]
fn jumps_go_from_512_words_back_to_511_forward(rt: HostRuntime) -> Result<(), Fail> {
    let alloc = rt.alloc();
    let jump = Item::Jump(Cond::Always, 0);
    let label = Item::Label(0);
    let words = assemble(alloc, &spaced(alloc, jump, 511, label)?)?;
    assert_eq!(rt; words.first(), Some(&0x3dff));
    let words = assemble(alloc, &spaced(alloc, label, 511, jump)?)?;
    assert_eq!(rt; words.last(), Some(&0x3e00));
    check_fault(
        &rt,
        alloc,
        &spaced(alloc, jump, 512, label)?,
        AsmErr::Far {
            item: 0,
            distance: 512,
        },
    );
    check_fault(
        &rt,
        alloc,
        &spaced(alloc, label, 512, jump)?,
        AsmErr::Far {
            item: 513,
            distance: -513,
        },
    );
    Ok(())
}

#[test]
fn the_code_has_at_most_14336_words(rt: HostRuntime) -> Result<(), Fail> {
    let alloc = rt.alloc();
    let word = Item::Word(0);
    assert_eq!(rt;
        assemble(alloc, &spaced(alloc, word, 14334, word)?)?.len(),
        14336
    );
    check_fault(
        &rt,
        alloc,
        &spaced(alloc, word, 14335, word)?,
        AsmErr::TooLong,
    );
    check_fault(
        &rt,
        alloc,
        &spaced(alloc, Item::Branch(9), 14335, word)?,
        AsmErr::Unbound { label: 9 },
    );
    let jump = Item::Jump(Cond::Always, 0);
    check_fault(
        &rt,
        alloc,
        &spaced(alloc, jump, 15000, Item::Label(0))?,
        AsmErr::Far {
            item: 0,
            distance: 15000,
        },
    );
    Ok(())
}

/// A plain and a timed scalar, and two functions.
fn symbols(alloc: Global) -> Result<Symbols, NoMemory> {
    let mut scalars = Sequence::new(alloc);
    scalars.push(Scalar {
        name: Name::new(alloc, b"g")?,
        address: 0x4000,
        kind: Kind::Int,
        stamp: None,
    })?;
    scalars.push(Scalar {
        name: Name::new(alloc, b"t[1].m")?,
        address: 0x4abc,
        kind: Kind::UInt,
        stamp: Some(0x4004),
    })?;
    let mut functions = Sequence::new(alloc);
    functions.push(FuncSym {
        name: Name::new(alloc, b"f")?,
        address: 0x8def,
        frame: 240,
    })?;
    functions.push(FuncSym {
        name: Name::new(alloc, b"main")?,
        address: 0x8028,
        frame: 6,
    })?;
    Ok(Symbols { scalars, functions })
}

fn check_listing(
    rt: &impl Abort,
    alloc: Global,
    code: &[u16],
    tables: u16,
    symbols: Symbols,
    text: &[u8],
) -> Result<(), NoMemory>
    requires few { length code.now ≤ 14336 }
    requires tables { tables ≤ length code.now }
{
    let image = Image {
        code: Sequence::from_vec(Vec::from_slice(alloc, code)?),
        tables,
        globals: Sequence::new(alloc),
        symbols,
    };
    let made = listing(alloc, &image)?;
    assert_eq!(rt; made.as_slice(), text, "{code:?}");
    Ok(())
}

#[test]
fn a_listing_has_instructions_then_tables_then_symbols(rt: HostRuntime) -> Result<(), Fail> {
    let alloc = rt.alloc();
    check_listing(
        &rt,
        alloc,
        &[0x12b0, 0x8028, 0x403c, 0x1234, 0x00ff],
        4,
        symbols(alloc)?,
        b"8000 12b0 8028\n8004 403c 1234\n8008 data 00ff\nglobal g 4000\nglobal t[1].m 4abc\n\
          stamp t[1].m 4004\nfunction f 8def 240\nfunction main 8028 6\n",
    )?;
    code_is_read_in_one_way();
    Ok(())
}

#[test]
fn a_word_that_begins_no_instruction_is_listed_as_data(rt: HostRuntime) -> Result<(), Fail> {
    let alloc = rt.alloc();
    let none = || Symbols {
        scalars: Sequence::new(alloc),
        functions: Sequence::new(alloc),
    };
    check_listing(&rt, alloc, &[], 0, none(), b"")?;
    check_listing(
        &rt,
        alloc,
        &[0x4303, 7],
        0,
        none(),
        b"8000 data 4303\n8002 data 0007\n",
    )?;
    check_listing(
        &rt,
        alloc,
        &[0x4303, 0x1300, 0xa506, 0x40b2, 0x1234, 0x4000],
        6,
        none(),
        b"8000 4303\n8002 data 1300\n8004 data a506\n8006 40b2 1234 4000\n",
    )?;
    check_listing(
        &rt,
        alloc,
        &[0x40b2, 0x403c, 0x1234],
        2,
        none(),
        b"8000 data 40b2\n8002 data 403c\n8004 data 1234\n",
    )?;
    Ok(())
}
