// A line as it was read: its name and its numbers, with no more digits than they need.
use script::line::Line;
use script::report::{Fields, Flag};
use std::fmt;

// A line that was read, and the buffer in which the bytes that it names stand first.
#[derive(Clone, Copy)]
pub struct Described<'a> {
    pub line: Line,
    pub bytes: &'a [u8],
}

impl<'a> Described<'a> {
    // So many of the bytes.
    fn first(&self, count: usize) -> Fields<'a> {
        Fields(self.bytes.get(..count).unwrap_or(self.bytes))
    }
}

impl fmt::Display for Described<'_> {
    fn fmt<W: fmt::Write>(&self, f: &mut fmt::Formatter<W>) -> fmt::Result {
        match &self.line {
            Line::New(length, channel) => write!(f, "new {length} {channel}"),
            Line::Start => f.write_str("start"),
            Line::Stop => f.write_str("stop"),
            Line::ConfigCommit => f.write_str("config_commit"),
            Line::Fired => f.write_str("fired"),
            Line::Declined => f.write_str("declined"),
            Line::Resume => f.write_str("resume"),
            Line::Transmit(buffer, length, n) => write!(f, "transmit {buffer} {length} {n}"),
            Line::SetReceiveBuffer(buffer, length) => write!(
                f,
                "set_receive_buffer {buffer} {length}"
            ),
            Line::ReadWriteDone(n) => write!(f, "read_write_done{}", self.first(*n)),
            Line::Reset(ok) => write!(f, "reset {}", Flag(*ok)),
            Line::SetAddress(address) => write!(f, "set_address {address}"),
            Line::SetPan(pan) => write!(f, "set_pan {pan}"),
            Line::SetAddressLong(address) => write!(f, "set_address_long{}", Fields(address)),
            Line::SetTxPower(power) => write!(f, "set_tx_power {power}"),
            Line::SetChannel(channel) => write!(f, "set_channel {channel}"),
            Line::SetPowerClient(there) => write!(f, "set_power_client {}", Flag(*there)),
            Line::SetTransmitClient(there) => write!(f, "set_transmit_client {}", Flag(*there)),
            Line::SetReceiveClient(there) => write!(f, "set_receive_client {}", Flag(*there)),
            Line::SetConfigClient(there) => write!(f, "set_config_client {}", Flag(*there)),
            Line::Initialize => f.write_str("initialize"),
            Line::IsOn => f.write_str("is_on"),
            Line::Busy => f.write_str("busy"),
            Line::GetAddress => f.write_str("get_address"),
            Line::GetAddressLong => f.write_str("get_address_long"),
            Line::GetPan => f.write_str("get_pan"),
            Line::GetTxPower => f.write_str("get_tx_power"),
            Line::GetChannel => f.write_str("get_channel"),
            Line::Pool(at, n) => write!(f, "pool {at}{}", self.first(*n)),
            Line::PoolLength(length) => write!(f, "pool_length {length}"),
            Line::Mark => f.write_str("mark"),
            Line::Back => f.write_str("back"),
        }
    }
}
