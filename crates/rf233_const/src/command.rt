// The commands that open an SPI access, and the first byte of each of the driver's four transfers.
ghost use Rattle.std.specs.Prelude.{◌≡◌};
ghost use Rattle.rf233_const.specs.Command.{bus_command, register_read, register_write, frame_read, frame_write};
ghost use Rattle.rf233_const.specs.Register.{register_address};

use crate::register::RF233Register;

// The commands issued over SPI: the top bits of an access's first byte.
#[derive(Clone, Copy, PartialEq, Eq)]
pub enum RF233BusCommand {
    REGISTER_READ = 0x80,
    REGISTER_WRITE = 0xC0,
    FRAME_READ = 0x20,
    FRAME_WRITE = 0x60,
    SRAM_READ = 0x00,
    SRAM_WRITE = 0x40,
}

// The command's byte with nothing in its lower bits.
impl From<RF233BusCommand> for u8 {
    ghost from_gives = { λ command n. n ≡ bus_command command };

    fn from(command: RF233BusCommand) -> u8 {
        command as u8
    }
}

// The first byte of a register read. This and the next three are document 01's table, a function a row.
pub fn register_read_command(reg: RF233Register) -> u8
    ensures { result ≡ register_read (register_address reg) }
{
    u8::from(reg) | u8::from(RF233BusCommand::REGISTER_READ)
}

// The first byte of a register write.
pub fn register_write_command(reg: RF233Register) -> u8
    ensures { result ≡ register_write (register_address reg) }
{
    u8::from(reg) | u8::from(RF233BusCommand::REGISTER_WRITE)
}

// The first byte of a frame buffer read.
pub fn frame_read_command() -> u8
    ensures { result ≡ frame_read }
{
    u8::from(RF233BusCommand::FRAME_READ)
}

// The first byte of a frame buffer write.
pub fn frame_write_command() -> u8
    ensures { result ≡ frame_write }
{
    u8::from(RF233BusCommand::FRAME_WRITE)
}
