// A new driver.
ghost use Rattle.std.specs.Prelude.{◌≡◌};
ghost use Rattle.rf233.specs.Create.{new_call, new_driver};

use crate::answer::{Answer, Outcome};
use crate::config::channel_fits;
use crate::driver::{Buffers, Clients, Command, Driver, Flags, Settings, Under};
use crate::line::Line;
use crate::power::setting_to_power;
use crate::reception::Reception;
use crate::state::InternalState;

impl Driver {
    // The driver of a length of spi_buf and a channel.
    fn fresh(length: u16, channel: u8) -> Driver
        ensures { result ≡ new_driver length channel }
    {
        Driver {
            state: InternalState::START,
            flags: Flags::default(),
            clients: Clients::default(),
            settings: Settings {
                addr: 0,
                addr_long: [0; 8],
                pan: 0,
                tx_power: setting_to_power(0),
                channel,
            },
            buffers: Buffers {
                spi_tx: true,
                spi_rx: true,
                spi_buf: true,
                spi_buf_whole: length,
                spi_buf_len: length,
                tx_buf: None,
                rx_line: Line::Empty,
                tx_len: 0,
                under: Under::Idle,
                command: Command::Read(0, 0),
            },
            reception: Reception {
                length: 0,
                spoiled: false,
            },
        }
    }

    // A driver that was never started. A length or a channel that is refused yields that of 129 and channel 26.
    #[tactic(auto, unfolding(crate::specs::Create::new_call, crate::specs::Choice::pick))]
    pub fn new(length: usize, channel: u8) -> Outcome
        ensures { result ≡ new_call length channel }
    {
        if (129..=160).contains(&length) && channel_fits(channel) {
            Outcome::done(Driver::fresh(length as u16, channel))
        } else {
            Outcome::answered(Answer::New, Driver::fresh(129, 26))
        }
    }
}
