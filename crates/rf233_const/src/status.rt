// The radio's own state, as TRX_STATUS and the first byte of every SPI access show it.
ghost use Rattle.std.specs.Prelude.{◌≡◌};
ghost use Rattle.rf233_const.specs.Status.{status_value, chip_status};

// The values of the radio's state.
#[derive(Clone, Copy, PartialEq, Eq)]
pub enum ExternalState {
    ON = 0x00,
    BUSY_RX = 0x01,
    BUSY_TX = 0x02,
    RX_ON = 0x06,
    TRX_OFF = 0x08,
    PLL_ON = 0x09,
    SLEEP = 0x0F,
    PREP_DEEP_SLEEP = 0x10,
    BUSY_RX_AACK = 0x11,
    BUSY_TX_ARET = 0x12,
    RX_AACK_ON = 0x16,
    TX_ARET_ON = 0x19,
    STATE_TRANSITION_IN_PROGRESS = 0x1F,
}

// The bits of a status byte that hold the state.
pub const TRX_STATUS_MASK: u8 = 0x1F;

// The value that TRX_STATUS has in the state.
impl From<ExternalState> for u8 {
    ghost from_gives = { λ state n. n ≡ status_value state };

    fn from(state: ExternalState) -> u8 {
        state as u8
    }
}

// The state in the first byte that arrives in a transfer.
pub fn status_of(first: u8) -> u8
    ensures { result ≡ chip_status first }
{
    first & TRX_STATUS_MASK
}
