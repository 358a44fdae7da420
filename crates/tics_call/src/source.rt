use base16::{Name, Sequence};

/// An assignment of a number to a global, from 0 to 32767.
#[derive(Debug, Drop)]
pub struct Store {
    pub name: Name,
    pub value: u16,
}

/// A program that stores constants: its globals in order of declaration, and its assignments in order.
#[derive(Debug, Drop)]
pub struct Program {
    pub names: Sequence<Name>,
    pub stores: Sequence<Store>,
}
