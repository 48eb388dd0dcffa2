// One line of a script, read.

// A line that is none of a script's.
#[derive(Clone, Copy, Debug, PartialEq, Eq)]
pub struct Malformed;

// The bytes of `ReadWriteDone` and `Pool` are in the buffer that the reader was lent, from its start on. As slices of it they would keep it
// lent, and a contract says what a lent buffer holds only once nothing borrows from it.
#[derive(Clone, Copy)]
pub enum Line {
    // The length of spi_buf, and the channel.
    New(u64, u8),
    Start,
    Stop,
    ConfigCommit,
    Fired,
    Declined,
    Resume,
    // The buffer, its length, and the frame's length.
    Transmit(u64, u64, u64),
    // The buffer and its length.
    SetReceiveBuffer(u64, u64),
    // How many bytes arrived.
    ReadWriteDone(usize),
    // Whether the kernel configured the SPI.
    Reset(bool),
    SetAddress(u16),
    SetPan(u16),
    SetAddressLong([u8; 8]),
    SetTxPower(i8),
    SetChannel(u8),
    SetPowerClient(bool),
    SetTransmitClient(bool),
    SetReceiveClient(bool),
    SetConfigClient(bool),
    Initialize,
    IsOn,
    Busy,
    GetAddress,
    GetAddressLong,
    GetPan,
    GetTxPower,
    GetChannel,
    // Where in the area, and how many bytes.
    Pool(usize, usize),
    PoolLength(usize),
    Mark,
    Back,
}
