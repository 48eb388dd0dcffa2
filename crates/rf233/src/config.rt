// The Rust's `RadioConfig`: start, stop, reset, commit, settings and queries.
ghost use Rattle.std.specs.Prelude.{◌≡◌};
ghost use Rattle.rf233.specs.Config.{
  begin_commit,
  begin_start,
  begin_stop,
  channel_fits,
  commit_call,
  is_busy,
  reset_call,
  set_address,
  set_address_long,
  set_channel,
  set_pan,
  set_power,
  start_call,
  stop_call,
};

use crate::action::{Action, Actions};
use crate::answer::{Answer, Outcome};
use crate::driver::Driver;
use crate::power::power_fits;
use crate::state::InternalState;
use rf233_const::register::RF233Register;
use rf233_const::trx_state::RF233TrxCmd;

// A channel of the 2.4 GHz band.
pub(crate) fn channel_fits(channel: u8) -> bool
    ensures { result ≡ channel_fits channel }
{
    (11..=26).contains(&channel)
}

// Start, stop, commit, reset.
impl Driver {
    // From SLEEP the radio is woken; on a new driver PART_NUM is read. A starter that finds a transfer under way does nothing.
    #[tactic(auto, unfolding(crate::specs::Config::begin_start, crate::specs::Choice::pick))]
    fn begin_start(mut self) -> Outcome
        ensures { result ≡ begin_start self }
    {
        match self.state {
            InternalState::SLEEP => {
                self.state_transition_read(RF233Register::TRX_STATUS, InternalState::SLEEP_WAKE)
            }
            _ => {
                self.flags.wake_pending = true;
                self.register_read(RF233Register::PART_NUM).step()
            }
        }
    }

    // Starts the radio, or wakes it.
    #[tactic(auto, unfolding(crate::specs::Config::start_call, crate::specs::Choice::pick))]
    pub fn start(mut self, pool: &mut [u8]) -> Outcome
        ensures outcome { result ≡ (start_call self pool.old).outcome }
        ensures pool { pool.new ≡ (start_call self pool.old).pool }
    {
        if self.pool_fault(pool.len()) {
            return Outcome::answered(Answer::Pool, self);
        }
        self.flags.sleep_pending = false;
        match self.state {
            InternalState::START | InternalState::SLEEP => self.begin_start().written(pool),
            _ => Outcome::answered(Answer::Already, self),
        }
    }

    // In READY and ON_PLL_WAITING the radio is turned off; elsewhere the stop waits for READY.
    #[tactic(auto, unfolding(crate::specs::Config::begin_stop, crate::specs::Choice::pick))]
    fn begin_stop(mut self) -> Outcome
        ensures { result ≡ begin_stop self }
    {
        match self.state {
            InternalState::ON_PLL_WAITING | InternalState::READY => {
                self.flags.radio_on = false;
                self.trx_command(RF233TrxCmd::OFF, InternalState::SLEEP_TRX_OFF)
            }
            _ => {
                self.flags.sleep_pending = true;
                Outcome::done(self)
            }
        }
    }

    // Turns the radio off, at once or once it is READY.
    #[tactic(auto, unfolding(crate::specs::Config::stop_call, crate::specs::Choice::pick))]
    pub fn stop(self, pool: &mut [u8]) -> Outcome
        ensures outcome { result ≡ (stop_call self pool.old).outcome }
        ensures pool { pool.new ≡ (stop_call self pool.old).pool }
    {
        if self.pool_fault(pool.len()) {
            return Outcome::answered(Answer::Pool, self);
        }
        match self.state {
            InternalState::SLEEP_TRX_OFF | InternalState::SLEEP => Outcome::answered(
                Answer::Already,
                self,
            ),
            _ => self.begin_stop().written(pool),
        }
    }

    // A commit starts in READY; elsewhere, and during a transfer, it waits. One that is pending already is left alone.
    #[tactic(auto, unfolding(crate::specs::Config::begin_commit, crate::specs::Choice::pick))]
    fn begin_commit(mut self) -> Outcome
        ensures { result ≡ begin_commit self }
    {
        if self.flags.config_pending {
            return Outcome::done(self);
        }
        self.flags.config_pending = true;
        match self.state {
            InternalState::READY => self.start_commit(),
            _ => Outcome::done(self),
        }
    }

    // Writes the settings to the radio, at once or once it is READY with no transfer under way.
    #[tactic(auto, unfolding(crate::specs::Config::commit_call, crate::specs::Choice::pick))]
    pub fn config_commit(self, pool: &mut [u8]) -> Outcome
        ensures outcome { result ≡ (commit_call self pool.old).outcome }
        ensures pool { pool.new ≡ (commit_call self pool.old).pool }
    {
        if self.pool_fault(pool.len()) {
            return Outcome::answered(Answer::Pool, self);
        }
        self.begin_commit().written(pool)
    }

    // Resets the radio by its pins. The kernel has configured the SPI just before, and says whether that went well.
    #[tactic(auto, unfolding(crate::specs::Config::reset_call, crate::specs::Choice::pick))]
    pub fn reset(mut self, configured: bool) -> Outcome
        ensures { result ≡ reset_call self configured }
    {
        if !configured {
            return Outcome::answered(Answer::Configure, self);
        }
        self.flags.transmitting = false;
        Outcome::done(self).with_actions(Actions::of([
            Action::ResetMakeOutput,
            Action::SleepMakeOutput,
            Action::ResetClear(10000),
            Action::ResetSet,
            Action::SleepClear,
        ]))
    }
}

// Settings and queries: document 01 names each call, also where two do alike.
impl Driver {
    // Nothing is to be done: the driver as it is.
    pub fn initialize(self) -> Driver
        ensures { result ≡ self }
    {
        self
    }

    // Whether the radio is on.
    pub fn is_on(self) -> bool
        ensures { result ≡ self.flags.radio_on }
    {
        self.flags.radio_on
    }

    // Whether the driver is elsewhere than in READY and SLEEP.
    pub fn busy(self) -> bool
        ensures { result ≡ is_busy self }
    {
        !matches!(self.state, InternalState::READY | InternalState::SLEEP)
    }

    // The short address.
    pub fn set_address(mut self, addr: u16) -> Driver
        ensures { result ≡ set_address self addr }
    {
        self.settings.addr = addr;
        self
    }

    // The long address.
    pub fn set_address_long(mut self, addr: [u8; 8]) -> Driver
        ensures { result ≡ set_address_long self addr }
    {
        self.settings.addr_long = addr;
        self
    }

    // The PAN's number.
    pub fn set_pan(mut self, id: u16) -> Driver
        ensures { result ≡ set_pan self id }
    {
        self.settings.pan = id;
        self
    }

    // The transmit power in dBm, from -17 to 4.
    #[tactic(auto, unfolding(crate::specs::Config::set_power, crate::specs::Choice::pick))]
    pub fn set_tx_power(mut self, power: i8) -> Outcome
        ensures { result ≡ set_power self power }
    {
        if !power_fits(power) {
            return Outcome::answered(Answer::Inval, self);
        }
        self.settings.tx_power = power;
        Outcome::done(self)
    }

    // The channel, from 11 to 26.
    #[tactic(auto, unfolding(crate::specs::Config::set_channel, crate::specs::Choice::pick))]
    pub fn set_channel(mut self, channel: u8) -> Outcome
        ensures { result ≡ set_channel self channel }
    {
        if !channel_fits(channel) {
            return Outcome::answered(Answer::Inval, self);
        }
        self.settings.channel = channel;
        Outcome::done(self)
    }

    // The short address that is set.
    pub fn get_address(self) -> u16
        ensures { result ≡ self.settings.addr }
    {
        self.settings.addr
    }

    // The long address that is set.
    pub fn get_address_long(self) -> [u8; 8]
        ensures { result ≡ self.settings.addr_long }
    {
        self.settings.addr_long
    }

    // The PAN's number that is set.
    pub fn get_pan(self) -> u16
        ensures { result ≡ self.settings.pan }
    {
        self.settings.pan
    }

    // The transmit power that is set.
    pub fn get_tx_power(self) -> i8
        ensures { result ≡ self.settings.tx_power }
    {
        self.settings.tx_power
    }

    // The channel that is set.
    pub fn get_channel(self) -> u8
        ensures { result ≡ self.settings.channel }
    {
        self.settings.channel
    }
}
