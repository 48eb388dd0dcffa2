// READY: a waiting stop turns the radio off, a radio that woke is told of.
ghost use Rattle.std.specs.Prelude.{◌≡◌};
ghost use Rattle.rf233.specs.Case.{own_case};
ghost use Rattle.rf233.specs.State.{state_no};

use crate::action::{Action, Actions};
use crate::answer::Outcome;
use crate::arrived::Arrived;
use crate::driver::Driver;
use crate::state::InternalState;
use rf233_const::trx_state::RF233TrxCmd;

impl Driver {
    // The case of READY.
    #[tactic(auto, unfolding(crate::specs::Case::case_of, crate::specs::Case::tree_at, crate::specs::Case::trees, crate::specs::Rows::eval, crate::specs::Case::perform, crate::specs::Choice::pick, crate::specs::Rows::holds))]
    pub(crate) fn ready_case(mut self, a: Arrived) -> Outcome
        requires { state_no self.state ≡ 29 }
        ensures { result ≡ own_case a self }
    {
        if self.flags.sleep_pending {
            self.flags.sleep_pending = false;
            self.flags.radio_on = false;
            return self.trx_command(RF233TrxCmd::OFF, InternalState::SLEEP_TRX_OFF);
        }
        if self.flags.power_client_pending {
            self.flags.power_client_pending = false;
            // the power listener, where there is one, is told whether the radio is on
            if self.clients.power_client {
                let told = Actions::of([Action::Power(self.flags.radio_on)]);
                return Outcome::done(self).with_actions(told);
            }
        }
        Outcome::done(self)
    }
}
