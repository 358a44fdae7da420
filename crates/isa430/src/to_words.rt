ghost use Rattle.std.specs.Prelude.{◌≡◌, ◌+◌, ◌-◌, ◌*◌, ◌<◌, ◌≤◌, ◌++◌, ◌∷◌, replicate, length, IsTrue};
ghost use Rattle.std.specs.Option.{option_to_list};
ghost use Rattle.isa430.specs.Table.{two_number, one_number, cond_number, gen_mode, gen_register, src_mode, src_register, src_extension, dst_mode, dst_register, dst_extension, offset_field, bit_of, first_word, code_of, decode_words, size_of, plain, src_formed, dst_formed, offset_formed};
ghost use Rattle.isa430.specs.Table.{valid as valid_instr};
ghost use Rattle.isa430.specs.Laws.{IsReadBack};

use crate::instr::{Code, Cond, Dst, Gen, Instr, OneOp, Src, TwoOp};
use crate::table::{has_one, has_two};

fn two_field(op: TwoOp) -> u8
    ensures value { result ≡ two_number op }
    ensures range { result < 16 }
{
    match op {
        TwoOp::Mov => 4,
        TwoOp::Add => 5,
        TwoOp::Addc => 6,
        TwoOp::Subc => 7,
        TwoOp::Sub => 8,
        TwoOp::Cmp => 9,
        TwoOp::Bit => 11,
        TwoOp::Bic => 12,
        TwoOp::Bis => 13,
        TwoOp::Xor => 14,
        TwoOp::And => 15,
    }
}

fn one_field(op: OneOp) -> u8
    ensures value { result ≡ one_number op }
    ensures range { result < 6 }
{
    match op {
        OneOp::Rrc => 0,
        OneOp::Swpb => 1,
        OneOp::Rra => 2,
        OneOp::Sxt => 3,
        OneOp::Push => 4,
        OneOp::Call => 5,
    }
}

fn cond_field(cond: Cond) -> u8
    ensures value { result ≡ cond_number cond }
    ensures range { result < 8 }
{
    match cond {
        Cond::Nz => 0,
        Cond::Z => 1,
        Cond::Nc => 2,
        Cond::C => 3,
        Cond::N => 4,
        Cond::Ge => 5,
        Cond::Less => 6,
        Cond::Always => 7,
    }
}

/// The mode and the register of a constant.
fn constant_fields(constant: Gen) -> (u8, u8)
    ensures mode { result.0 ≡ gen_mode constant }
    ensures register { result.1 ≡ gen_register constant }
    ensures range { result.0 < 4 }
{
    match constant {
        Gen::Zero => (0, 3),
        Gen::One => (1, 3),
        Gen::Two => (2, 3),
        Gen::MinusOne => (3, 3),
        Gen::Four => (2, 2),
        Gen::Eight => (3, 2),
    }
}

/// The mode and the register of a source.
fn source_fields(src: Src) -> (u8, u8)
    ensures mode { result.0 ≡ src_mode src }
    ensures register { result.1 ≡ src_register src }
    ensures range { result.0 < 4 }
{
    match src {
        Src::Reg(register) => (0, register),
        Src::Indexed(register, _) => (1, register),
        Src::Absolute(_) => (1, 2),
        Src::Indirect(register) => (2, register),
        Src::Increment(register) => (3, register),
        Src::Immediate(_) => (3, 0),
        Src::Constant(constant) => constant_fields(constant),
    }
}

fn source_extension(src: Src) -> Option<u16>
    ensures { option_to_list result ≡ src_extension src }
{
    match src {
        Src::Indexed(_, word) | Src::Absolute(word) | Src::Immediate(word) => Some(word),
        Src::Reg(_) | Src::Indirect(_) | Src::Increment(_) | Src::Constant(_) => None,
    }
}

/// The mode and the register of a destination.
fn destination_fields(dst: Dst) -> (u8, u8)
    ensures mode { result.0 ≡ dst_mode dst }
    ensures register { result.1 ≡ dst_register dst }
    ensures range { result.0 < 2 }
{
    match dst {
        Dst::Reg(register) => (0, register),
        Dst::Indexed(register, _) => (1, register),
        Dst::Absolute(_) => (1, 2),
    }
}

fn destination_extension(dst: Dst) -> Option<u16>
    ensures { option_to_list result ≡ dst_extension dst }
{
    match dst {
        Dst::Indexed(_, word) | Dst::Absolute(word) => Some(word),
        Dst::Reg(_) => None,
    }
}

fn is_plain(register: u8) -> bool
    ensures { result ≡ plain register }
{
    register < 16 && !(register == 0 || register == 2 || register == 3)
}

fn is_source_formed(src: Src) -> bool
    ensures { result ≡ src_formed src }
{
    match src {
        Src::Reg(register) => register < 16 && register != 3,
        Src::Indexed(register, _) | Src::Indirect(register) | Src::Increment(register) => {
            is_plain(register)
        }
        Src::Absolute(_) | Src::Immediate(_) | Src::Constant(_) => true,
    }
}

fn is_destination_formed(dst: Dst) -> bool
    ensures { result ≡ dst_formed dst }
{
    match dst {
        Dst::Reg(register) => register < 16,
        Dst::Indexed(register, _) => is_plain(register),
        Dst::Absolute(_) => true,
    }
}

/// Whether the table has the instruction. Registers are from 0 to 15, the offset of a jump from -512 to 511, and each
/// operand is the one that its fields mean: R3 as a source is a constant and no register.
pub fn valid(instr: &Instr) -> bool
    ensures { result ≡ valid_instr instr.now }
{
    match *instr {
        Instr::Two { op, byte, src, dst } => {
            let (mode, source) = source_fields(src);
            let (ad, destination) = destination_fields(dst);
            is_source_formed(src)
                && is_destination_formed(dst)
                && has_two(two_field(op), byte, mode, source, ad, destination)
        }
        Instr::One { op, byte, src } => {
            let (mode, register) = source_fields(src);
            is_source_formed(src) && has_one(one_field(op), byte, mode, register)
        }
        Instr::Jump { cond: _, offset } => offset >= -512 && offset < 512,
    }
}

fn bit(b: bool) -> u16
    ensures value { result ≡ bit_of b }
    ensures range { result < 2 }
{
    if b { 1 } else { 0 }
}

/// The words of an instruction, from its first word and the words that follow for the source and the destination.
fn code(first: u16, source: Option<u16>, destination: Option<u16>) -> Code
    ensures words { result.words ≡ (first ∷ (option_to_list source ++ option_to_list destination)) ++ replicate (3 - result.len) 0 }
    ensures len { result.len ≡ 1 + length (option_to_list source) + length (option_to_list destination) }
{
    match (source, destination) {
        (None, None) => Code {
            words: [first, 0, 0],
            len: 1,
        },
        (Some(word), None) => Code {
            words: [first, word, 0],
            len: 2,
        },
        (None, Some(word)) => Code {
            words: [first, word, 0],
            len: 2,
        },
        (Some(word), Some(second)) => Code {
            words: [first, word, second],
            len: 3,
        },
    }
}

fn two_first(op: TwoOp, byte: bool, src: Src, dst: Dst) -> u16
    requires source { src_register src < 16 }
    requires destination { dst_register dst < 16 }
    ensures { result ≡ first_word (Instr.Two op byte src dst) }
{
    let (mode, source) = source_fields(src);
    let (ad, destination) = destination_fields(dst);
    two_field(op) as u16 * 4096
        + source as u16 * 256
        + ad as u16 * 128
        + bit(byte) * 64
        + mode as u16 * 16
        + destination as u16
}

fn one_first(op: OneOp, byte: bool, src: Src) -> u16
    requires { src_register src < 16 }
    ensures { result ≡ first_word (Instr.One op byte src) }
{
    let (mode, register) = source_fields(src);
    4096 + one_field(op) as u16 * 128 + bit(byte) * 64 + mode as u16 * 16 + register as u16
}

fn jump_first(cond: Cond, offset: i16) -> u16
    requires { IsTrue (offset_formed offset) }
    ensures { result ≡ first_word (Instr.Jump cond offset) }
{
    let field = if offset < 0 {
        1024 - offset.unsigned_abs()
    } else {
        offset as u16
    };
    8192 + cond_field(cond) as u16 * 1024 + field
}

fn assemble(instr: &Instr) -> Code
    requires { IsTrue (valid_instr instr.now) }
    ensures words { result.words ≡ code_of instr.now ++ replicate (3 - result.len) 0 }
    ensures len { result.len ≡ length (code_of instr.now) }
    ensures size { 2 * result.len ≡ size_of instr.now }
{
    match *instr {
        Instr::Two { op, byte, src, dst } => code(
            two_first(op, byte, src, dst),
            source_extension(src),
            destination_extension(dst),
        ),
        Instr::One { op, byte, src } => code(one_first(op, byte, src), source_extension(src), None),
        Instr::Jump { cond, offset } => code(jump_first(cond, offset), None, None),
    }
}

/// The words of a valid instruction, followed by zeros. `len` counts words, from 1 to 3.
pub fn encode(instr: &Instr) -> Code
    requires { IsTrue (valid_instr instr.now) }
    ensures words { result.words ≡ code_of instr.now ++ replicate (3 - result.len) 0 }
    ensures len { result.len ≡ length (code_of instr.now) }
    ensures size { 2 * result.len ≡ size_of instr.now }

    // These words decode to the instruction, also wherever they stand and whatever follows them.
    ensures decoded { decode_words result.words ≡ Some instr.now }
    ensures back { IsReadBack instr.now }
{
    assemble(instr)
}
