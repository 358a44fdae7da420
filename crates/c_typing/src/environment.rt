ghost use Rattle.std.specs.Prelude.{◌≡◌};
ghost use Rattle.std.specs.Option.{option_copied};
ghost use Rattle.c_typing.specs.Scopes as spec;

use base16::Name;
use core_tree::{Struct, Ty};
use sqlite_items::Items;

/// What a name stands for.
#[derive(Drop)]
pub enum What {
    /// A parameter or local by its number in the function, and whether it is const.
    Local { number: u32, ty: Ty, readonly: bool },
    /// A variable of the program by its number, and whether it is const.
    Global { number: u32, ty: Ty, readonly: bool },
    /// A function by its place among those declared.
    Function { place: u16 },
}

/// A declaration of a name.
#[derive(Drop)]
pub struct Named {
    pub name: Name,
    pub what: What,
}

/// What is known of a function. Its number is that of its definition among those of the source.
#[derive(Drop)]
pub struct Signature {
    pub result: Ty,
    pub params: Items<Ty>,
    pub number: u16,
    pub is_defined: bool,
}

/// What is declared at a point of the text.
#[derive(Drop)]
pub struct Env {
    /// The structs that are complete.
    pub structs: Items<Struct>,
    /// Which members of each of them are const.
    pub const_members: Items<Items<bool>>,
    /// The tag of the struct whose members stand around this point.
    pub defining: Option<Name>,
    /// The names in scope in the order of their declarations.
    pub names: Items<Named>,
    pub functions: Items<Signature>,
    /// The parameters and locals so far of the function around this point.
    pub locals: Items<Ty>,
    /// Its result.
    pub result: Ty,
    /// Where the names of the innermost scope begin.
    pub start: usize,
    /// Whether this point is in the text of an `@expires` block.
    pub inside: bool,
}

/// What a name stands for here, if it is declared.
pub fn lookup<'a>(names: &'a [Named], name: &Name) -> Option<&'a What>
    ensures { option_copied result ≡ spec.lookup names.now name.now }
{
    let mut found = None;
    for named in names {
        if named.name.bytes() == name.bytes() {
            found = Some(&named.what);
        }
    }
    found
}
