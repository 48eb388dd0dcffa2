// One event of a scenario: a call on a driver, or the listeners that it gets.
use rf233::answer::Outcome;
use rf233::driver::{Client, Driver};

// An event, with what it brings.
#[derive(Clone, Copy)]
pub enum Event<'a> {
    // A new driver, with 129 bytes of spi_buf and channel 26.
    New,
    Start,
    // A firing of the interrupt pin.
    Fired,
    // A completion, with the bytes that arrived.
    Completion(&'a [u8]),
    Transmit { buffer: u8, length: u8, count: u8 },
    ReceiveBuffer { buffer: u8, length: u8 },
    // All four listeners are there.
    Listeners,
    Stop,
    Commit,
    // No event: it does nothing, and the list goes on behind it, which None would end.
    Unknown,
}

// The driver with all four listeners.
fn with_listeners(d: Driver) -> Driver {
    d.set_client(Client::Power, true)
        .set_client(Client::Transmit, true)
        .set_client(Client::Receive, true)
        .set_client(Client::Config, true)
}

impl<'a> Event<'a> {
    // The driver after the event, and what the event yields; what is no call yields nothing.
    pub fn make(self, d: Driver, pool: &mut [u8]) -> Outcome {
        match self {
            Event::New => Driver::new(129, 26),
            Event::Start => d.start(pool),
            Event::Fired => d.fire(pool),
            Event::Completion(arrived) => d.read_write_done(arrived, pool),
            Event::Transmit {
                buffer,
                length,
                count,
            } => {
                d.transmit(
                    usize::from(buffer),
                    usize::from(length),
                    usize::from(count),
                    pool,
                )
            }
            Event::ReceiveBuffer { buffer, length } => {
                d.set_receive_buffer(usize::from(buffer), usize::from(length))
            }
            Event::Listeners => Outcome::done(with_listeners(d)),
            Event::Stop => d.stop(pool),
            Event::Commit => d.config_commit(pool),
            Event::Unknown => Outcome::done(d),
        }
    }
}
