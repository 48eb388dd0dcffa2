// The driver's states, how the program writes one, and the groups that the graph draws them in.
use record_words::names::state_name;
use rf233::state::InternalState;
use std::fmt;

// All states, in document 01's order, which is the code's: `.ci/states` holds this list to the enum.
pub const STATES: [InternalState; 69] = [
    InternalState::START,
    InternalState::START_PART_READ,
    InternalState::START_STATUS_READ,
    InternalState::START_TURNING_OFF,
    InternalState::START_CTRL1_SET,
    InternalState::START_CCA_SET,
    InternalState::START_PWR_SET,
    InternalState::START_CTRL2_SET,
    InternalState::START_IRQMASK_SET,
    InternalState::START_XAH1_SET,
    InternalState::START_XAH0_SET,
    InternalState::START_PANID0_SET,
    InternalState::START_PANID1_SET,
    InternalState::START_IEEE0_SET,
    InternalState::START_IEEE1_SET,
    InternalState::START_IEEE2_SET,
    InternalState::START_IEEE3_SET,
    InternalState::START_IEEE4_SET,
    InternalState::START_IEEE5_SET,
    InternalState::START_IEEE6_SET,
    InternalState::START_IEEE7_SET,
    InternalState::START_SHORT0_SET,
    InternalState::START_SHORT1_SET,
    InternalState::START_CSMA_0_SEEDED,
    InternalState::START_CSMA_1_SEEDED,
    InternalState::START_RPC_SET,
    InternalState::ON_STATUS_READ,
    InternalState::ON_PLL_WAITING,
    InternalState::ON_PLL_SET,
    InternalState::READY,
    InternalState::SLEEP_TRX_OFF,
    InternalState::SLEEP,
    InternalState::SLEEP_WAKE,
    InternalState::TX_STATUS_PRECHECK1,
    InternalState::TX_WRITING_FRAME,
    InternalState::TX_WRITING_FRAME_DONE,
    InternalState::TX_STATUS_PRECHECK2,
    InternalState::TX_PLL_START,
    InternalState::TX_PLL_WAIT,
    InternalState::TX_ARET_ON,
    InternalState::TX_TRANSMITTING,
    InternalState::TX_READ_ACK,
    InternalState::TX_DONE,
    InternalState::TX_RETURN_TO_RX,
    InternalState::TX_PENDING,
    InternalState::CONFIG_SHORT0_SET,
    InternalState::CONFIG_SHORT1_SET,
    InternalState::CONFIG_PAN0_SET,
    InternalState::CONFIG_PAN1_SET,
    InternalState::CONFIG_IEEE0_SET,
    InternalState::CONFIG_IEEE1_SET,
    InternalState::CONFIG_IEEE2_SET,
    InternalState::CONFIG_IEEE3_SET,
    InternalState::CONFIG_IEEE4_SET,
    InternalState::CONFIG_IEEE5_SET,
    InternalState::CONFIG_IEEE6_SET,
    InternalState::CONFIG_IEEE7_SET,
    InternalState::CONFIG_POWER_SET,
    InternalState::CONFIG_DONE,
    InternalState::RX,
    InternalState::RX_TURNING_OFF,
    InternalState::RX_READY_TO_READ,
    InternalState::RX_START_READING,
    InternalState::RX_READING_FRAME_LEN,
    InternalState::RX_READING_FRAME_LEN_DONE,
    InternalState::RX_READING_FRAME,
    InternalState::RX_READING_FRAME_DONE,
    InternalState::RX_READING_FRAME_FCS_DONE,
    InternalState::RX_ENABLING_RECEPTION,
];

// A state as it is written: its number and its name.
#[derive(Clone, Copy)]
pub struct Numbered(pub InternalState);

impl fmt::Display for Numbered {
    fn fmt<W: fmt::Write>(&self, f: &mut fmt::Formatter<W>) -> fmt::Result {
        let number = u8::from(self.0);
        let name = state_name(number);
        write!(f, "{number} {name}")
    }
}

// The parts of the state machine, by the number of each one's first state.
#[derive(Clone, Copy, PartialEq, Eq)]
pub enum Group {
    Startup = 0,
    Ready = 29,
    Sleep = 30,
    Transmit = 33,
    Commit = 45,
    Receive = 59,
}

// The groups in the order of their states.
pub const GROUPS: [Group; 6] = [
    Group::Startup,
    Group::Ready,
    Group::Sleep,
    Group::Transmit,
    Group::Commit,
    Group::Receive,
];

impl Group {
    // The group that a state is in: the last one that begins there or before.
    pub fn of(state: InternalState) -> Group {
        let begun = GROUPS
            .iter()
            .rfind(|group| **group as u8 <= u8::from(state));
        begun.copied().unwrap_or(Group::Startup)
    }

    // The group's title in the graph.
    pub fn title(self) -> &'static str {
        match self {
            Group::Startup => "startup",
            Group::Ready => "ready",
            Group::Sleep => "sleep",
            Group::Transmit => "transmit",
            Group::Commit => "commit",
            Group::Receive => "receive",
        }
    }
}
