use crate::statements::Stmt;
use crate::types::{Struct, Ty};
use base16::Name;
use sqlite_items::Items;

/// A program.
#[derive(Drop)]
pub struct Core {
    pub structs: Items<Struct>,
    pub globals: Items<Global>,
    pub functions: Items<Function>,
}

/// A program whose annotations are not checked yet.
#[derive(Drop)]
pub struct Typed {
    pub core: Core,
}

/// A variable of the program, with an initial value for each scalar.
#[derive(Drop)]
pub struct Global {
    pub name: Name,
    pub ty: Ty,
    pub lifetime: Option<u64>,
    pub init: Items<Initial>,
    pub before: u32,
    pub line: u32,
}

/// What a scalar of a variable is at the start.
#[derive(Clone, Copy)]
pub enum Initial {
    /// 0 is also the null pointer.
    Int(i64),
    Address { global: u32, offset: u16 },
}

/// A function.
#[derive(Drop)]
pub struct Function {
    pub name: Name,
    pub params: Items<Ty>,
    pub locals: Items<Ty>,
    pub result: Ty,
    pub body: Items<Stmt>,
    pub node: u32,
    pub line: u32,
}
