// The register writes of startup and commit as rows of a table: register, value or where it is taken from, next state.
ghost use Rattle.std.specs.Prelude.{◌≡◌};
ghost use Rattle.rf233.specs.Write.{table_write, value_of};

use crate::answer::Outcome;
use crate::driver::{Driver, Settings};
use crate::power::power_to_setting;
use crate::state::InternalState;
use rf233_const::register::RF233Register;
use rf233_const::trx_state::RF233TrxCmd;

// A value to write: a constant, a command to the radio, or a marker for what is taken from the driver's settings.
#[derive(Clone, Copy)]
pub enum Value {
    Constant(u8),
    Command(RF233TrxCmd),
    Channel,
    Power,
    PanHigh,
    PanLow,
    AddrHigh,
    AddrLow,
    Long(u8),
}

// A row of a table.
#[derive(Clone, Copy)]
pub struct Write {
    pub register: RF233Register,
    pub value: Value,
    pub next: InternalState,
}

impl Value {
    // The byte that a marker stands for; past the end of the long address, 0. Document 01 has the Rust's `as u8` as a remainder.
    pub fn of(self, settings: Settings) -> u8
        ensures { result ≡ value_of self settings }
    {
        match self {
            Value::Constant(v) => v,
            Value::Command(c) => u8::from(c),
            Value::Channel => settings.channel,
            Value::Power => power_to_setting(settings.tx_power),
            Value::PanHigh => (settings.pan / 256) as u8,
            Value::PanLow => (settings.pan % 256) as u8,
            Value::AddrHigh => (settings.addr / 256) as u8,
            Value::AddrLow => (settings.addr % 256) as u8,
            Value::Long(k) => settings.addr_long.get(k as usize).copied().unwrap_or(0),
        }
    }
}

impl Driver {
    // The write of a table's row, and its next state.
    pub(crate) fn table_write(self, row: Write) -> Outcome
        ensures { result ≡ table_write row self }
    {
        self.state_transition_write(row.register, row.value.of(self.settings), row.next)
    }
}
