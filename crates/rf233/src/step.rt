// The step of a starter, which its answer decides, and the Rust's two state transitions.
ghost use Rattle.std.specs.Prelude.{◌≡◌, []};
ghost use Rattle.rf233_const.specs.TrxState.{command_value};
ghost use Rattle.rf233.specs.Action.{actions};
ghost use Rattle.rf233.specs.Step.{step_of, transition_read, transition_write};

use crate::action::Actions;
use crate::answer::{Answer, Outcome, Reply};
use crate::driver::Driver;
use crate::starter::Started;
use crate::state::InternalState;
use rf233_const::register::RF233Register;
use rf233_const::trx_state::RF233TrxCmd;

impl Started {
    // The step of a starter, which its answer decides.
    pub(crate) fn step(self) -> Outcome
        ensures { result ≡ step_of self (actions []) }
    {
        Outcome {
            driver: self.driver,
            reply: Reply {
                answer: Answer::Done,
                transfer: self.answer.transfer(),
                actions: Actions::none(),
            },
        }
    }
}

impl Driver {
    // A register read, and the next state.
    pub(crate) fn state_transition_read(
        mut self,
        reg: RF233Register,
        state: InternalState,
    ) -> Outcome
        ensures { result ≡ transition_read reg state self }
    {
        self.state = state;
        self.register_read(reg).step()
    }

    // A register write, and the next state.
    pub(crate) fn state_transition_write(
        mut self,
        reg: RF233Register,
        val: u8,
        state: InternalState,
    ) -> Outcome
        ensures { result ≡ transition_write reg val state self }
    {
        self.state = state;
        self.register_write(reg, val).step()
    }

    // A command to the radio, and the next state.
    pub(crate) fn trx_command(self, command: RF233TrxCmd, state: InternalState) -> Outcome
        ensures { result ≡ transition_write RF233Register.TRX_STATE (command_value command) state self }
    {
        self.state_transition_write(RF233Register::TRX_STATE, u8::from(command), state)
    }
}
