/// The operators of two operands (MSP430 user's guide, 16-bit CPU, "Double-Operand (Format I) Instructions"), without
/// DADD.
#[derive(Clone, Copy, Debug, PartialEq, Eq)]
pub enum TwoOp {
    Mov,
    Add,
    Addc,
    Subc,
    Sub,
    Cmp,
    Bit,
    Bic,
    Bis,
    Xor,
    And,
}

/// The operators of one operand (MSP430 user's guide, 16-bit CPU, "Single-Operand (Format II) Instructions"), without
/// RETI.
#[derive(Clone, Copy, Debug, PartialEq, Eq)]
pub enum OneOp {
    Rrc,
    Swpb,
    Rra,
    Sxt,
    Push,
    Call,
}

/// When a jump is taken, in the order of the numbers 0 to 7 (MSP430 user's guide, 16-bit CPU, "Jumps"): Z clear, Z set,
/// C clear, C set, N set, N equal to V, N other than V, always.
#[derive(Clone, Copy, Debug, PartialEq, Eq)]
pub enum Cond {
    Nz,
    Z,
    Nc,
    C,
    N,
    Ge,
    Less,
    Always,
}

/// The constants that R2 and R3 generate (MSP430 user's guide, 16-bit CPU, "Constant Generator Registers CG1 and CG2").
#[derive(Clone, Copy, Debug, PartialEq, Eq)]
pub enum Gen {
    Zero,
    One,
    Two,
    Four,
    Eight,
    MinusOne,
}

/// A source operand (MSP430 user's guide, 16-bit CPU, "Addressing Modes"). A register is a number from 0 to 15.
#[derive(Clone, Copy, Debug, PartialEq, Eq)]
pub enum Src {
    /// The register's word.
    Reg(u8),
    /// The memory at the register plus the word that follows.
    Indexed(u8, u16),
    /// The memory at an address.
    Absolute(u16),
    /// The memory at the register.
    Indirect(u8),
    /// The memory at the register, which is raised afterwards.
    Increment(u8),
    /// The word that follows; a byte instruction keeps the whole word and uses its low byte.
    Immediate(u16),
    /// A generated constant, with no word of its own.
    Constant(Gen),
}

/// A destination operand (MSP430 user's guide, 16-bit CPU, "Addressing Modes"). A register is a number from 0 to 15.
#[derive(Clone, Copy, Debug, PartialEq, Eq)]
pub enum Dst {
    /// The register.
    Reg(u8),
    /// The memory at the register plus the word that follows.
    Indexed(u8, u16),
    /// The memory at an address.
    Absolute(u16),
}

/// One instruction of the core.
#[derive(Clone, Copy, Debug, PartialEq, Eq)]
pub enum Instr {
    /// Two operands, of bytes or of words.
    Two {
        op: TwoOp,
        byte: bool,
        src: Src,
        dst: Dst,
    },
    /// One operand, of bytes or of words.
    One {
        op: OneOp,
        byte: bool,
        src: Src,
    },
    /// A jump by `offset` words from the word after it, from -512 to 511.
    Jump {
        cond: Cond,
        offset: i16,
    },
}

/// The words of an instruction: the first `len` of `words`, from 1 to 3. The others are 0.
#[derive(Clone, Copy, Debug, PartialEq, Eq)]
pub struct Code {
    pub words: [u16; 3],
    pub len: u8,
}
