// A commit: how it starts, and its states from CONFIG_SHORT0_SET to CONFIG_DONE. The writes of these stand in a table.
ghost use Rattle.std.specs.Prelude.{◌≡◌, ◌≤◌};
ghost use Rattle.rf233.specs.Case.{own_case};
ghost use Rattle.rf233.specs.Commit.{start_commit};
ghost use Rattle.rf233.specs.State.{state_no};

use crate::action::{Action, Actions};
use crate::answer::Outcome;
use crate::arrived::Arrived;
use crate::driver::Driver;
use crate::starter::StarterAnswer;
use crate::state::InternalState;
use crate::write::{Value, Write};
use rf233_const::register::RF233Register;

// What is written in the states CONFIG_SHORT0_SET to CONFIG_POWER_SET, 45 to 57.
const COMMIT: [Write; 13] = [
    Write {
        register: RF233Register::SHORT_ADDR_1,
        value: Value::AddrHigh,
        next: InternalState::CONFIG_SHORT1_SET,
    },
    Write {
        register: RF233Register::PAN_ID_0,
        value: Value::PanLow,
        next: InternalState::CONFIG_PAN0_SET,
    },
    Write {
        register: RF233Register::PAN_ID_1,
        value: Value::PanHigh,
        next: InternalState::CONFIG_PAN1_SET,
    },
    Write {
        register: RF233Register::IEEE_ADDR_0,
        value: Value::Long(0),
        next: InternalState::CONFIG_IEEE0_SET,
    },
    Write {
        register: RF233Register::IEEE_ADDR_1,
        value: Value::Long(1),
        next: InternalState::CONFIG_IEEE1_SET,
    },
    Write {
        register: RF233Register::IEEE_ADDR_2,
        value: Value::Long(2),
        next: InternalState::CONFIG_IEEE2_SET,
    },
    Write {
        register: RF233Register::IEEE_ADDR_3,
        value: Value::Long(3),
        next: InternalState::CONFIG_IEEE3_SET,
    },
    Write {
        register: RF233Register::IEEE_ADDR_4,
        value: Value::Long(4),
        next: InternalState::CONFIG_IEEE4_SET,
    },
    Write {
        register: RF233Register::IEEE_ADDR_5,
        value: Value::Long(5),
        next: InternalState::CONFIG_IEEE5_SET,
    },
    Write {
        register: RF233Register::IEEE_ADDR_6,
        value: Value::Long(6),
        next: InternalState::CONFIG_IEEE6_SET,
    },
    Write {
        register: RF233Register::IEEE_ADDR_7,
        value: Value::Long(7),
        next: InternalState::CONFIG_IEEE7_SET,
    },
    Write {
        register: RF233Register::PHY_TX_PWR,
        value: Value::Power,
        next: InternalState::CONFIG_POWER_SET,
    },
    Write {
        register: RF233Register::PHY_CC_CCA,
        value: Value::Channel,
        next: InternalState::CONFIG_DONE,
    },
];

impl Driver {
    // A commit starts with its first write; where that finds a transfer under way, the commit only waits, and the state stays.
    #[tactic(auto, unfolding(crate::specs::Commit::start_commit, crate::specs::Step::by_answer))]
    pub(crate) fn start_commit(self) -> Outcome
        ensures { result ≡ start_commit self }
    {
        let entered = Driver {
            state: InternalState::CONFIG_SHORT0_SET,
            ..self
        };
        let first = entered.register_write(
            RF233Register::SHORT_ADDR_0,
            Value::AddrLow.of(self.settings),
        );
        match first.answer {
            StarterAnswer::Began(_) => first.step(),
            StarterAnswer::UnderWay | StarterAnswer::Waiting => Outcome::done(self),
        }
    }

    // CONFIG_SHORT0_SET to CONFIG_POWER_SET: each has a row of its own.
    pub(crate) fn commit_case(self, a: Arrived) -> Outcome
        requires first { 45 ≤ state_no self.state }
        requires last { state_no self.state ≤ 57 }
        ensures { result ≡ own_case a self }
    {
        self.table_write(COMMIT[u8::from(self.state) as usize - 45])
    }

    // The end of a commit: its listener is told.
    #[tactic(auto, unfolding(crate::specs::Case::case_of, crate::specs::Case::tree_at, crate::specs::Case::trees, crate::specs::Rows::eval, crate::specs::Case::perform, crate::specs::Choice::pick))]
    pub(crate) fn config_done(mut self, a: Arrived) -> Outcome
        requires { state_no self.state ≡ 58 }
        ensures { result ≡ own_case a self }
    {
        self.flags.config_pending = false;
        let read = self.state_transition_read(RF233Register::TRX_STATUS, InternalState::READY);
        if self.clients.cfg_client {
            read.with_actions(Actions::of([Action::ConfigDone]))
        } else {
            read
        }
    }
}
