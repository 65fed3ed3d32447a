//! What received bytes say.
ghost use Rattle.std.specs.Prelude.{◌≡◌};
ghost use Rattle.command.specs.Commands.{heard_of};

/// Writes a register: the address and the value follow.
const WRITE: u8 = 0x22;

/// Reads to the end of a page: the address follows, high byte first.
const READ: u8 = 0x33;

/// Reads the sensors.
const READ_SENSORS: u8 = 0x55;

/// Clears the record.
const CLEAR: u8 = 0xA5;

/// A whole command.
#[derive(Clone, Copy, PartialEq, Eq, Debug)]
pub enum Command {
    Write { address: u8, value: u8 },
    Read { address: u16 },
    ReadSensors,
    Clear,
}

/// What bytes say, as far as they came.
#[derive(Clone, Copy, PartialEq, Eq, Debug)]
pub enum Heard {
    /// The beginning of a command, or nothing yet.
    Part,
    /// A command and nothing behind it.
    Whole(Command),
    /// The first byte is no command code, or bytes follow a whole command.
    Unknown,
}

/// What these bytes say.
pub fn decode(bytes: &[u8]) -> Heard
    ensures { result ≡ heard_of bytes.now }
{
    match bytes {
        [] | [WRITE | READ] | [WRITE | READ, _] => Heard::Part,
        [WRITE, address, value] => {
            let address = *address;
            let value = *value;
            Heard::Whole(Command::Write { address, value })
        }
        [READ, high, low] => {
            let address = u16::from_be_bytes([*high, *low]);
            Heard::Whole(Command::Read { address })
        }
        [READ_SENSORS] => Heard::Whole(Command::ReadSensors),
        [CLEAR] => Heard::Whole(Command::Clear),
        _ => Heard::Unknown,
    }
}
