// What stands in the table, by the fields of the first word.

ghost use Rattle.std.specs.Prelude.{◌≡◌, ◌<◌, ◌≤◌};
ghost use Rattle.isa430.specs.Table.{two_number_listed, source_listed, destination_listed, raises, to_register_listed, two_listed, changed_listed, one_listed};

fn has_two_number(op: u8) -> bool
    ensures { result ≡ two_number_listed op }
{
    op >= 4 && op < 16 && op != 10
}

fn has_source(mode: u8, register: u8) -> bool
    ensures { result ≡ source_listed mode register }
{
    register != 0 || mode == 3
}

fn has_destination(mode: u8, register: u8) -> bool
    ensures { result ≡ destination_listed mode register }
{
    mode == 0 || !(register == 0 || register == 3)
}

fn is_raising(mode: u8, register: u8) -> bool
    ensures { result ≡ raises mode register }
{
    mode == 3 && !(register == 0 || register == 2 || register == 3)
}

fn may_change_register(op: u8, byte: bool, register: u8) -> bool
    ensures { result ≡ to_register_listed op byte register }
{
    match register {
        0 => !byte && op == 4,
        1 => !byte,
        2 => !byte && (op == 4 || op == 12 || op == 13),
        _ => true,
    }
}

/// Whether the table has a Format I instruction with these fields.
pub fn has_two(op: u8, byte: bool, mode: u8, source: u8, ad: u8, destination: u8) -> bool
    ensures { result ≡ two_listed op byte mode source ad destination }
{
    has_two_number(op)
        && has_source(mode, source)
        && has_destination(ad, destination)
        && !(is_raising(mode, source) && source == destination)
        && (ad != 0 || may_change_register(op, byte, destination))
}

fn may_be_changed(mode: u8, register: u8) -> bool
    ensures { result ≡ changed_listed mode register }
{
    match mode {
        0 => register > 3,
        1 => register != 3,
        2 => !(register == 2 || register == 3),
        _ => false,
    }
}

/// Whether the table has a Format II instruction with these fields.
pub fn has_one(op: u8, byte: bool, mode: u8, register: u8) -> bool
    ensures { result ≡ one_listed op byte mode register }
{
    has_source(mode, register)
        && (!byte || op == 0 || op == 2)
        && (if op < 4 {
            may_be_changed(mode, register)
        } else {
            op < 6 && register != 1
        })
}
