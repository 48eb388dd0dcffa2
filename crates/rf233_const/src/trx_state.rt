// The register TRX_STATE: the commands that are written to it, and the result of a transmission that is read from it.
ghost use Rattle.std.specs.Prelude.{◌≡◌};
ghost use Rattle.rf233_const.specs.TrxState.{command_value, trac_bits};

use crate::flags::TRX_TRAC_MASK;

// Some of the values written in TRX_STATE to change the radio's state.
#[derive(Clone, Copy, PartialEq, Eq)]
pub enum RF233TrxCmd {
    TX_START = 0x02,
    RX_ON = 0x06,
    OFF = 0x08,
    PLL_ON = 0x09,
    RX_AACK_ON = 0x16,
    TX_ARET_ON = 0x19,
}

// The value of each command.
impl From<RF233TrxCmd> for u8 {
    ghost from_gives = { λ command n. n ≡ command_value command };

    fn from(command: RF233TrxCmd) -> u8 {
        command as u8
    }
}

// The result of a transmission, left where TRX_STATE has it, in the top three bits.
pub fn trac_of(res: u8) -> u8
    ensures { result ≡ trac_bits res }
{
    res & TRX_TRAC_MASK
}
