use thiserror::Error;

/// Why a program has no image: the first of these causes, in this order; memory may run out for any program.
#[derive(Clone, Copy, Debug, PartialEq, Eq, Error)]
pub enum GenErr {
    /// A function's frame has more than 240 bytes: the first such function, by its place in the program.
    #[error("the frame of function {function} has more than 240 bytes")]
    FrameTooBig { function: u16 },
    /// Variables and stamps have more than 16,384 bytes.
    #[error("variables and stamps have more than 16384 bytes")]
    DataTooBig,
    /// The code may have more than 28,672 bytes: the rows of all nodes in the table of costs, and 1,024 for the start
    /// and the helper routines.
    #[error("the code may have more than 28672 bytes")]
    CodeTooBig,
    /// Memory ran out.
    #[error("memory ran out")]
    NoMemory,
}
