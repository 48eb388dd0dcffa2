// The driver's internal states.
ghost use Rattle.std.specs.Prelude.{◌≡◌};
ghost use Rattle.rf233.specs.State.{state_no};

// The Rust's states, in its order, which is that of document 01's numbers: START is 0, RX_ENABLING_RECEPTION 68.
#[derive(Clone, Copy, PartialEq, Eq)]
pub enum InternalState {
    START,
    START_PART_READ,
    START_STATUS_READ,
    START_TURNING_OFF,
    START_CTRL1_SET,
    START_CCA_SET,
    START_PWR_SET,
    START_CTRL2_SET,
    START_IRQMASK_SET,
    START_XAH1_SET,
    START_XAH0_SET,
    START_PANID0_SET,
    START_PANID1_SET,
    START_IEEE0_SET,
    START_IEEE1_SET,
    START_IEEE2_SET,
    START_IEEE3_SET,
    START_IEEE4_SET,
    START_IEEE5_SET,
    START_IEEE6_SET,
    START_IEEE7_SET,
    START_SHORT0_SET,
    START_SHORT1_SET,
    START_CSMA_0_SEEDED,
    START_CSMA_1_SEEDED,
    START_RPC_SET,
    ON_STATUS_READ,
    ON_PLL_WAITING,
    ON_PLL_SET,
    READY,
    SLEEP_TRX_OFF,
    SLEEP,
    SLEEP_WAKE,
    TX_STATUS_PRECHECK1,
    TX_WRITING_FRAME,
    TX_WRITING_FRAME_DONE,
    TX_STATUS_PRECHECK2,
    TX_PLL_START,
    TX_PLL_WAIT,
    TX_ARET_ON,
    TX_TRANSMITTING,
    TX_READ_ACK,
    TX_DONE,
    TX_RETURN_TO_RX,
    TX_PENDING,
    CONFIG_SHORT0_SET,
    CONFIG_SHORT1_SET,
    CONFIG_PAN0_SET,
    CONFIG_PAN1_SET,
    CONFIG_IEEE0_SET,
    CONFIG_IEEE1_SET,
    CONFIG_IEEE2_SET,
    CONFIG_IEEE3_SET,
    CONFIG_IEEE4_SET,
    CONFIG_IEEE5_SET,
    CONFIG_IEEE6_SET,
    CONFIG_IEEE7_SET,
    CONFIG_POWER_SET,
    CONFIG_DONE,
    RX,
    RX_TURNING_OFF,
    RX_READY_TO_READ,
    RX_START_READING,
    RX_READING_FRAME_LEN,
    RX_READING_FRAME_LEN_DONE,
    RX_READING_FRAME,
    RX_READING_FRAME_DONE,
    RX_READING_FRAME_FCS_DONE,
    RX_ENABLING_RECEPTION,
}

// The number of each: for the trace, for programs, and for the row of a table.
impl From<InternalState> for u8 {
    ghost from_gives = { λ state n. n ≡ state_no state };

    fn from(state: InternalState) -> u8 {
        state as u8
    }
}
