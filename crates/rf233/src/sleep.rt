// Turning off and waking: SLEEP_TRX_OFF and SLEEP_WAKE.
#![tactic(auto, unfolding(crate::specs::Case::case_of, crate::specs::Case::tree_at, crate::specs::Case::trees, crate::specs::Rows::eval, crate::specs::Rows::holds, crate::specs::Case::perform, crate::specs::Choice::pick))]

ghost use Rattle.std.specs.Prelude.{◌≡◌, true, [], ◌∷◌};
ghost use Rattle.rf233.specs.Case.{own_case};
ghost use Rattle.rf233.specs.Choice.{one_of};
ghost use Rattle.rf233.specs.State.{state_no};

use crate::action::{Action, Actions};
use crate::answer::Outcome;
use crate::arrived::Arrived;
use crate::driver::Driver;
use crate::state::InternalState;
use rf233_const::register::RF233Register;
use rf233_const::trx_state::RF233TrxCmd;

impl Driver {
    // The case of each of these states.
    pub(crate) fn sleep_case(self, a: Arrived) -> Outcome
        requires { one_of (30 ∷ 32 ∷ []) (state_no self.state) ≡ true }
        ensures { result ≡ own_case a self }
    {
        match self.state {
            InternalState::SLEEP_TRX_OFF => self.sleep_trx_off(a),
            InternalState::SLEEP_WAKE => self.sleep_wake(a),
            _ => Outcome::done(self),
        }
    }

    // The sleep pin puts the radio to sleep, unless a start waits: then it is woken at once.
    fn sleep_trx_off(mut self, a: Arrived) -> Outcome
        requires { state_no self.state ≡ 30 }
        ensures { result ≡ own_case a self }
    {
        if self.flags.wake_pending {
            return self
                .state_transition_read(RF233Register::TRX_STATUS, InternalState::SLEEP_WAKE)
                .with_actions(Actions::of([Action::SleepSet]));
        }
        self.state = InternalState::SLEEP;
        let asleep = if self.clients.power_client {
            Actions::of([
                Action::SleepSet,
                Action::Power(self.flags.radio_on),
                Action::IrqDisableInterrupts,
            ])
        } else {
            Actions::of([Action::SleepSet, Action::IrqDisableInterrupts])
        };
        Outcome::done(self).with_actions(asleep)
    }

    // The radio is out of sleep, and goes straight on to receive.
    fn sleep_wake(self, a: Arrived) -> Outcome
        requires { state_no self.state ≡ 32 }
        ensures { result ≡ own_case a self }
    {
        self.trx_command(RF233TrxCmd::RX_AACK_ON, InternalState::READY)
            .with_actions(Actions::of([Action::SleepClear, Action::IrqEnableInterrupts]))
    }
}
