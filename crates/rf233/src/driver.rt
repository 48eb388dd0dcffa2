// The driver as a value: what the Rust keeps in cells, and where each buffer is.
use crate::line::Line;
use crate::reception::Reception;
use crate::state::InternalState;

// The Rust's cells of a bool, under its names. Its `spi_busy` is here the record of the transfer under way or waiting.
#[derive(Clone, Copy, Default)]
pub struct Flags {
    pub radio_on: bool,
    pub transmitting: bool,
    pub receiving: bool,
    pub crc_valid: bool,
    pub interrupt_handling: bool,
    pub interrupt_pending: bool,
    pub config_pending: bool,
    pub sleep_pending: bool,
    pub wake_pending: bool,
    pub power_client_pending: bool,
}

// Which listeners are there.
#[derive(Clone, Copy, Default)]
pub struct Clients {
    pub tx_client: bool,
    pub rx_client: bool,
    pub cfg_client: bool,
    pub power_client: bool,
}

// A listener.
#[derive(Clone, Copy)]
pub enum Client {
    Transmit,
    Receive,
    Config,
    Power,
}

// What the setters set and a startup or a commit writes to the radio.
#[derive(Clone, Copy)]
pub struct Settings {
    pub addr: u16,
    pub addr_long: [u8; 8],
    pub pan: u16,
    pub tx_power: i8,
    pub channel: u8,
}

// A client's buffer that the driver has, and its length.
#[derive(Clone, Copy)]
pub struct Lent {
    pub buffer: u8,
    pub length: u8,
}

// A transfer that the SPI layer declined, to be offered again. It names no client's buffer: a frame read's is at the front of the line, a
// frame write's in the transmit place.
#[derive(Clone, Copy)]
pub enum Offer {
    Register,
    FrameRead,
    FrameWrite,
}

// The transfer under way, or the one that waits. Under way, a register transfer has buffers 16 and 17, a frame transfer 18 and a client's;
// waiting, its buffers are in their places. As an Option of the other four it would be no plainer: every `match` would name `Some` beside
// the kind.
#[derive(Clone, Copy)]
pub enum Under {
    Idle,
    Register,
    FrameRead(Lent),
    FrameWrite(Lent),
    Waits(Offer),
}

// The two command bytes of the last register transfer, a read or a write, kept from its first offer on: anyone may alter the pool before it
// is offered again.
#[derive(Clone, Copy)]
pub enum Command {
    Read(u8, u8),
    Write(u8, u8),
}

// The driver's record of the buffers: whether each own buffer is in its place, the buffer to transmit, the line of receive buffers, the
// transfer under way or waiting, the command of the last register transfer; the length of spi_buf and the part of it that the last frame
// read left; the frame length given to `transmit`, plus 2.
#[derive(Clone, Copy)]
pub struct Buffers {
    pub spi_tx: bool,
    pub spi_rx: bool,
    pub spi_buf: bool,
    pub spi_buf_whole: u16,
    pub spi_buf_len: u16,
    pub tx_buf: Option<Lent>,
    pub rx_line: Line,
    pub tx_len: u8,
    pub under: Under,
    pub command: Command,
}

// The driver: its state, its flags, its listeners, its settings, its record of the buffers, what it keeps of a reception.
#[derive(Clone, Copy)]
pub struct Driver {
    pub state: InternalState,
    pub flags: Flags,
    pub clients: Clients,
    pub settings: Settings,
    pub buffers: Buffers,
    pub reception: Reception,
}
