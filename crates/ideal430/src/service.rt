ghost use Rattle.std.specs.Prelude.{◌≡◌};
ghost use Rattle.core430.specs.Registers.{view_of};
ghost use Rattle.ideal430.specs.Service.{service_of as service_of_number, is_built as is_built_by_now, service_at as service_at_number, own_ask};

use base16::Regs;

/// What a running program asks of the board by a call of the address FF00 + 2 n (hexadecimal), in the order of n.
#[derive(Clone, Copy, Debug, PartialEq, Eq)]
pub enum Service {
    /// The run ends.
    Halt,
    /// A frame of R15 bytes is made.
    Enter,
    /// A frame of R15 bytes is left, and the function's return word popped.
    Leave,
    /// A turn of a loop.
    Turn,
    /// The word in R13 is stored at the address in R14.
    StoreWord,
    /// The low byte of R13 is stored at the address in R14.
    StoreByte,
    /// As `StoreWord`, and the clock is stored as the stamp at the address in R15.
    StampWord,
    /// As `StoreByte`, and the clock is stored as the stamp at the address in R15.
    StampByte,
    /// R12 becomes the next value of the sensor whose channel is in R15.
    Sense,
    /// The word in R13 is appended to the outputs.
    Emit,
    /// An expires block is opened, for the check table of R15 rows at the address in R14.
    Open,
    /// An open block is checked.
    Check,
    /// An open block is checked and closed.
    Close,
    /// The age of the stamp at the address in R14 is compared with R13 + 2^16 R15 milliseconds.
    Timely,
    /// A checkpoint is asked for.
    Checkpoint,
}

/// One store that a service makes.
#[derive(Clone, Copy, Debug, PartialEq, Eq)]
pub enum Store {
    /// A word at an even byte address.
    Word { address: u16, word: u16 },
    /// One byte, and the other byte of its word stays.
    Byte { address: u16, byte: u8 },
    /// The link word at the top of a new segment, an even byte address.
    Link { address: u16, word: u16 },
}

/// What a service asks of the outside.
#[derive(Clone, Copy, Debug, PartialEq, Eq)]
pub enum Ask {
    Nothing,
    /// The next value of the sensor of a channel, from 0 to 15.
    Sensor { channel: u16 },
    /// The clock, in milliseconds.
    Clock,
}

/// The service of a number, from 0 to 14.
fn service_of(n: u16) -> Option<Service>
    ensures { result ≡ service_of_number n }
{
    match n {
        0 => Some(Service::Halt),
        1 => Some(Service::Enter),
        2 => Some(Service::Leave),
        3 => Some(Service::Turn),
        4 => Some(Service::StoreWord),
        5 => Some(Service::StoreByte),
        6 => Some(Service::StampWord),
        7 => Some(Service::StampByte),
        8 => Some(Service::Sense),
        9 => Some(Service::Emit),
        10 => Some(Service::Open),
        11 => Some(Service::Check),
        12 => Some(Service::Close),
        13 => Some(Service::Timely),
        14 => Some(Service::Checkpoint),
        _ => None,
    }
}

/// Whether the board has a service by now.
fn is_built(service: Service) -> bool
    ensures { result ≡ is_built_by_now service }
{
    !matches!(
        service,
        Service::StampWord
            | Service::StampByte
            | Service::Open
            | Service::Check
            | Service::Close
            | Service::Timely
    )
}

/// The service of a number, if the board has it by now.
pub fn service_at(n: u16) -> Option<Service>
    ensures { result ≡ service_at_number n }
{
    let service = service_of(n)?;
    if is_built(service) {
        Some(service)
    } else {
        None
    }
}

/// What a service that is not refused asks of the outside, by the registers that it finds.
pub fn ask_of(service: Service, regs: &Regs) -> Ask
    ensures { result ≡ own_ask service (view_of regs.now.r) }
{
    match service {
        Service::StampWord
        | Service::StampByte
        | Service::Open
        | Service::Check
        | Service::Close
        | Service::Timely => Ask::Clock,
        Service::Sense => Ask::Sensor {
            channel: regs.r[15],
        },
        _ => Ask::Nothing,
    }
}
