// Listeners made present or absent: of `RadioConfig` the power and config listeners, of `RadioData` the other two.
ghost use Rattle.std.specs.Prelude.{◌≡◌};
ghost use Rattle.rf233.specs.Listeners.{set_client};

use crate::driver::{Client, Driver};

impl Driver {
    // This listener is there, or is not.
    pub fn set_client(mut self, client: Client, present: bool) -> Driver
        ensures { result ≡ set_client client self present }
    {
        match client {
            Client::Transmit => self.clients.tx_client = present,
            Client::Receive => self.clients.rx_client = present,
            Client::Config => self.clients.cfg_client = present,
            Client::Power => self.clients.power_client = present,
        }
        self
    }
}
