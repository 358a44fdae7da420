use base16::{BinaryOp, EndKind, IntType, Kind, Sequence, UnaryOp};
use c_run::Timed;
use c_values::{State, Value};
use core_tree::Slot;

/// An object that a function names: a parameter or local of its own, parameters first, or a variable of the program.
#[derive(Clone, Copy)]
pub enum Base {
    Local(u32),
    Global(u32),
}

/// A value that a step takes.
#[derive(Clone, Copy)]
pub enum Operand {
    /// The topmost temporary, which the step takes away.
    Temporary,
    Constant(i64),
    /// The null pointer.
    Null,
    /// What a scalar of a known place holds as the step is made.
    Scalar { of: Base, offset: u16, kind: Kind },
}

/// Where a step finds a scalar.
#[derive(Clone, Copy)]
pub enum Target {
    /// At the place that is the topmost temporary, which the step takes away.
    Temporary,
    Known { of: Base, offset: u16 },
}

/// What a step computes of two values.
#[derive(Clone, Copy)]
pub enum Operation {
    /// An operator on integers at a type; the right one is of a type of its own.
    Integers {
        op: BinaryOp,
        at: IntType,
        own: IntType,
    },
    /// A pointer and an integer, which counts elements of a size in bytes, added or subtracted; `swapped` where the
    /// integer is the left one. `left` and `right` are the types as which numbers are taken; a number is taken as it
    /// is where there is none.
    PointerPlus {
        minus: bool,
        size: u32,
        left: Option<IntType>,
        right: Option<IntType>,
        swapped: bool,
    },
    /// How many elements of a size in bytes lie between two pointers.
    Difference {
        size: u32,
    },
    ComparePointers {
        op: BinaryOp,
    },
}

/// What a branch tests.
#[derive(Clone, Copy)]
pub enum Test {
    /// Whether a value is not zero.
    Value(Operand),
    /// Whether what is computed of two values is not zero.
    Computed {
        operation: Operation,
        left: Operand,
        right: Operand,
    },
}

/// What a store leaves as a temporary.
#[derive(Clone, Copy)]
pub enum Keep {
    Nothing,
    /// What the scalar holds then.
    Stored,
    /// The old value: the temporary below the value that is stored, or of an update what the scalar held.
    Before,
}

/// What a step does. The temporaries of a call are a stack: a step takes its temporaries from the top, the last of
/// its operands first, and puts what it gives on top. `depth` is the number of temporaries below those that it takes or
/// gives. `to` is the place of a step in the same function. A mark is made just after the effect that it belongs to.
#[derive(Clone, Copy)]
pub enum StepKind {
    // values
    /// Gives the value.
    Put {
        depth: u32,
        value: Operand,
    },
    /// Gives what nothing may use: the value of what has none.
    Nothing {
        depth: u32,
    },
    /// Takes a temporary away.
    Drop {
        depth: u32,
    },
    /// What is computed of the two topmost temporaries, of which the lower one stays below it.
    Beside {
        depth: u32,
        operation: Operation,
    },
    /// The value in an integer type; a pointer stays.
    Convert {
        depth: u32,
        to: IntType,
        value: Operand,
    },
    Unary {
        depth: u32,
        op: UnaryOp,
        at: IntType,
        value: Operand,
    },
    Binary {
        depth: u32,
        operation: Operation,
        left: Operand,
        right: Operand,
    },
    /// 1 where the value, which is of a type, is not zero, else 0.
    Truth {
        depth: u32,
        of: IntType,
        value: Operand,
    },
    // places
    /// Gives a known place.
    Address {
        depth: u32,
        of: Base,
        offset: u16,
    },
    /// The place to which a pointer points.
    Follow {
        depth: u32,
        value: Operand,
    },
    /// The place so many bytes further in its object.
    Member {
        depth: u32,
        offset: u32,
    },
    /// The element of a number, which is of a type, in the array at a place; its size is in bytes.
    Element {
        depth: u32,
        size: u32,
        own: IntType,
        index: Operand,
    },
    /// The place to which the sum of a pointer and an integer points; `swapped` where the integer is the left one.
    Sum {
        depth: u32,
        size: u32,
        left_type: IntType,
        right_type: IntType,
        swapped: bool,
        left: Operand,
        right: Operand,
    },
    /// The pointer to a place.
    PointTo {
        depth: u32,
    },
    // memory
    /// The scalar at a place, which gives way to it.
    Load {
        depth: u32,
        kind: Kind,
    },
    /// The scalar at a place, which stays below it.
    Peek {
        depth: u32,
        kind: Kind,
    },
    /// A store with a mark. A target on the stack is below the value that is kept from before, and both are below the
    /// value that is stored.
    Store {
        depth: u32,
        target: Target,
        kind: Kind,
        value: Operand,
        keep: Keep,
    },
    /// A store without a mark, to a scalar of a local.
    StoreLocal {
        depth: u32,
        local: u32,
        offset: u16,
        kind: Kind,
        value: Operand,
        keep: Keep,
    },
    /// A store with a mark of what is computed of the scalar and a value.
    Update {
        depth: u32,
        target: Target,
        kind: Kind,
        operation: Operation,
        value: Operand,
        keep: Keep,
    },
    /// The same without a mark, of a scalar of a local.
    UpdateLocal {
        depth: u32,
        local: u32,
        offset: u16,
        kind: Kind,
        operation: Operation,
        value: Operand,
        keep: Keep,
    },
    /// The scalars of a local are undefined from here on.
    Undefine {
        local: u32,
    },
    // jumps
    Jump {
        to: u32,
    },
    /// A jump where the test, whose value is of a type, comes out as `when`.
    Branch {
        depth: u32,
        test: Test,
        of: IntType,
        when: bool,
        to: u32,
    },
    /// A jump where the topmost temporary, which is of a type, is a number. It is taken away there, and else stays.
    Case {
        depth: u32,
        of: IntType,
        value: i64,
        to: u32,
    },
    // calls
    /// A call with so many arguments, which stand from the depth on.
    Call {
        depth: u32,
        function: u16,
        args: u16,
    },
    /// Behind a call: what it gave, if that is kept.
    Result {
        depth: u32,
        kept: bool,
    },
    /// The first step of a function, with the number of its parameters. Its mark stands before their values.
    Enter {
        params: u16,
    },
    Return {
        depth: u32,
        value: Operand,
    },
    ReturnNothing,
    // services
    /// A mark: just before the test of a loop.
    Turn,
    /// Gives the next reading of a channel, with a mark.
    Sense {
        depth: u32,
        channel: u8,
    },
    /// An output, with a mark; gives what nothing may use.
    Emit {
        depth: u32,
        value: Operand,
    },
    /// A mark; gives what nothing may use.
    Checkpoint {
        depth: u32,
    },
    /// A store with a stamp and a mark, to a scalar of a variable.
    Stamp {
        depth: u32,
        global: u32,
        target: Target,
        kind: Kind,
        value: Operand,
    },
    /// A mark, and a jump where the stamp of a scalar of a variable is lacking or older than a limit in milliseconds.
    Timely {
        depth: u32,
        global: u32,
        target: Target,
        kind: Kind,
        limit: u64,
        to: u32,
    },
    /// Opens a block with a mark, or jumps where a scalar of its table has expired.
    Open {
        table: u32,
        to: u32,
    },
    /// A mark in an open block, or a jump where a scalar of its table has expired, and then the block is undone.
    Check {
        table: u32,
        to: u32,
    },
    /// The same at a block's end, which closes it.
    Close {
        table: u32,
        to: u32,
    },
}

/// A step and the node of the tree that it belongs to.
#[derive(Clone, Copy)]
pub struct Step {
    pub node: u32,
    pub kind: StepKind,
}

/// A parameter or local: where it stands in the frame, in bytes, and its scalars.
#[derive(Drop)]
pub struct IrLocal {
    pub offset: u32,
    pub scalars: Sequence<Slot>,
}

/// A function: the bytes of its frame, the number of its parameters, these and the locals, and its steps.
#[derive(Drop)]
pub struct IrFunction {
    pub frame: u32,
    pub params: u32,
    pub locals: Sequence<IrLocal>,
    pub steps: Sequence<Step>,
}

/// A variable: its address modulo 65,536, its scalars with the values at the start, and its lifetime in milliseconds if
/// it is timed.
#[derive(Drop)]
pub struct IrGlobal {
    pub address: u16,
    pub scalars: Sequence<Slot>,
    pub init: Sequence<Value>,
    pub lifetime: Option<u64>,
}

/// The form of a program: its functions and variables in order, the timed scalars that its blocks name, a table for
/// each block, and the number of the function `main`.
#[derive(Drop)]
pub struct Ir {
    pub functions: Sequence<IrFunction>,
    pub globals: Sequence<IrGlobal>,
    pub tables: Sequence<Sequence<Timed>>,
    pub main: u16,
}

/// Where a run of the form is after a number of marks.
#[derive(Drop)]
pub enum IrState {
    /// Just after that many marks.
    Live { state: State },
    /// The run ended before or at that mark.
    Ended { kind: EndKind, state: State },
    /// The next reading is missing or of another kind.
    NeedsReading,
    /// A rule of undefined behaviour is broken, a step names what is not there or is not of the kind that it takes, or
    /// more steps would be made since the last mark than the form has.
    Stuck,
}
