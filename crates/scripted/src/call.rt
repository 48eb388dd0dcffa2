// The call that a line asks for, made on the driver through its public functions.
ghost use Rattle.std.specs.Prelude.{◌≡◌};
ghost use Rattle.rf233.specs.Calls.{with_pool};
ghost use Rattle.scripted.specs.Asked.{asked, performed};

use crate::named::first;
use rf233::answer::Outcome;
use rf233::driver::{Client, Driver};
use script::line::Line;

// What the line asks for, with the bytes that it names, done.
#[tactic(auto, unfolding(crate::specs::Asked::asked, crate::specs::Asked::performed, rf233::specs::Calls::made))]
pub fn make(d: Driver, line: Line, bytes: &[u8], pool: &mut [u8]) -> Outcome
    ensures { with_pool result pool.new ≡ performed d (asked line bytes.now) pool.old }
{
    match line {
        Line::New(length, channel) => Driver::new(length as usize, channel),
        Line::Start => d.start(pool),
        Line::Stop => d.stop(pool),
        Line::ConfigCommit => d.config_commit(pool),
        Line::Fired => d.fire(pool),
        Line::Declined => d.declined(pool),
        Line::Resume => d.resume(pool),
        Line::ReadWriteDone(count) => d.read_write_done(first(bytes, count), pool),
        Line::Transmit(b, l, n) => d.transmit(b as usize, l as usize, n as usize, pool),
        Line::SetReceiveBuffer(b, l) => d.set_receive_buffer(b as usize, l as usize),
        Line::Reset(configured) => d.reset(configured),
        Line::SetAddress(address) => Outcome::done(d.set_address(address)),
        Line::SetPan(pan) => Outcome::done(d.set_pan(pan)),
        Line::SetAddressLong(address) => Outcome::done(d.set_address_long(address)),
        Line::SetTxPower(power) => d.set_tx_power(power),
        Line::SetChannel(channel) => d.set_channel(channel),
        Line::SetPowerClient(present) => Outcome::done(d.set_client(Client::Power, present)),
        Line::SetTransmitClient(present) => Outcome::done(d.set_client(Client::Transmit, present)),
        Line::SetReceiveClient(present) => Outcome::done(d.set_client(Client::Receive, present)),
        Line::SetConfigClient(present) => Outcome::done(d.set_client(Client::Config, present)),
        Line::Initialize => Outcome::done(d.initialize()),
        _ => Outcome::done(d),
    }
}
