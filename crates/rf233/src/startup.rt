// Startup: the states from START to ON_PLL_SET. Its writes stand in a table.
#![tactic(auto, unfolding(crate::specs::Case::case_of, crate::specs::Case::tree_at, crate::specs::Case::trees, crate::specs::Rows::eval, crate::specs::Rows::holds, crate::specs::Case::perform, crate::specs::Choice::pick))]

ghost use Rattle.std.specs.Prelude.{◌≡◌, ◌<◌, ◌≤◌, true, [], ◌∷◌};
ghost use Rattle.rf233.specs.Case.{own_case};
ghost use Rattle.rf233.specs.Choice.{one_of};
ghost use Rattle.rf233.specs.Startup.{startup_row};
ghost use Rattle.rf233.specs.State.{state_no};
ghost use Rattle.rf233.specs.Write.{table_write};

use crate::action::{Action, Actions};
use crate::answer::Outcome;
use crate::arrived::Arrived;
use crate::driver::Driver;
use crate::state::InternalState;
use crate::write::{Value, Write};
use rf233_const::register::RF233Register;
use rf233_const::settings::{
    CSMA_SEED_0, CSMA_SEED_1, IRQ_MASK, TRX_CTRL_1, TRX_CTRL_2, TRX_RPC, XAH_CTRL_0, XAH_CTRL_1,
};
use rf233_const::status::ExternalState;
use rf233_const::trx_state::RF233TrxCmd;

// Every write of a startup, in order. Rows 0 and 1 are START_STATUS_READ's, row 1 START_TURNING_OFF's too; rows 2 to 22 are those of
// START_CTRL1_SET to START_CSMA_1_SEEDED, row 23 ON_STATUS_READ's, row 24 ON_PLL_SET's.
const STARTUP: [Write; 25] = [
    Write {
        register: RF233Register::TRX_STATE,
        value: Value::Command(RF233TrxCmd::OFF),
        next: InternalState::START_TURNING_OFF,
    },
    Write {
        register: RF233Register::TRX_CTRL_1,
        value: Value::Constant(TRX_CTRL_1),
        next: InternalState::START_CTRL1_SET,
    },
    Write {
        register: RF233Register::PHY_CC_CCA,
        value: Value::Channel,
        next: InternalState::START_CCA_SET,
    },
    Write {
        register: RF233Register::PHY_TX_PWR,
        value: Value::Power,
        next: InternalState::START_PWR_SET,
    },
    Write {
        register: RF233Register::TRX_CTRL_2,
        value: Value::Constant(TRX_CTRL_2),
        next: InternalState::START_CTRL2_SET,
    },
    Write {
        register: RF233Register::IRQ_MASK,
        value: Value::Constant(IRQ_MASK),
        next: InternalState::START_IRQMASK_SET,
    },
    Write {
        register: RF233Register::XAH_CTRL_1,
        value: Value::Constant(XAH_CTRL_1),
        next: InternalState::START_XAH1_SET,
    },
    Write {
        register: RF233Register::XAH_CTRL_0,
        value: Value::Constant(XAH_CTRL_0),
        next: InternalState::START_XAH0_SET,
    },
    Write {
        register: RF233Register::PAN_ID_0,
        value: Value::PanLow,
        next: InternalState::START_PANID0_SET,
    },
    Write {
        register: RF233Register::PAN_ID_1,
        value: Value::PanHigh,
        next: InternalState::START_PANID1_SET,
    },
    Write {
        register: RF233Register::IEEE_ADDR_0,
        value: Value::Long(0),
        next: InternalState::START_IEEE0_SET,
    },
    Write {
        register: RF233Register::IEEE_ADDR_1,
        value: Value::Long(1),
        next: InternalState::START_IEEE1_SET,
    },
    Write {
        register: RF233Register::IEEE_ADDR_2,
        value: Value::Long(2),
        next: InternalState::START_IEEE2_SET,
    },
    Write {
        register: RF233Register::IEEE_ADDR_3,
        value: Value::Long(3),
        next: InternalState::START_IEEE3_SET,
    },
    Write {
        register: RF233Register::IEEE_ADDR_4,
        value: Value::Long(4),
        next: InternalState::START_IEEE4_SET,
    },
    Write {
        register: RF233Register::IEEE_ADDR_5,
        value: Value::Long(5),
        next: InternalState::START_IEEE5_SET,
    },
    Write {
        register: RF233Register::IEEE_ADDR_6,
        value: Value::Long(6),
        next: InternalState::START_IEEE6_SET,
    },
    Write {
        register: RF233Register::IEEE_ADDR_7,
        value: Value::Long(7),
        next: InternalState::START_IEEE7_SET,
    },
    Write {
        register: RF233Register::SHORT_ADDR_0,
        value: Value::AddrLow,
        next: InternalState::START_SHORT0_SET,
    },
    Write {
        register: RF233Register::SHORT_ADDR_1,
        value: Value::AddrHigh,
        next: InternalState::START_SHORT1_SET,
    },
    Write {
        register: RF233Register::CSMA_SEED_0,
        value: Value::Constant(CSMA_SEED_0),
        next: InternalState::START_CSMA_0_SEEDED,
    },
    Write {
        register: RF233Register::CSMA_SEED_1,
        value: Value::Constant(CSMA_SEED_1),
        next: InternalState::START_CSMA_1_SEEDED,
    },
    Write {
        register: RF233Register::TRX_RPC,
        value: Value::Constant(TRX_RPC),
        next: InternalState::START_RPC_SET,
    },
    Write {
        register: RF233Register::TRX_STATE,
        value: Value::Command(RF233TrxCmd::PLL_ON),
        next: InternalState::ON_PLL_WAITING,
    },
    Write {
        register: RF233Register::TRX_STATE,
        value: Value::Command(RF233TrxCmd::RX_AACK_ON),
        next: InternalState::READY,
    },
];

impl Driver {
    // The write of row k, and its next state. No other function reads the table: one that names it carries all of it into its proof.
    fn startup_write(self, k: usize) -> Outcome
        requires { k < 25 }
        ensures { result ≡ table_write (startup_row k) self }
    {
        self.table_write(STARTUP[k])
    }

    // START_CTRL1_SET to START_CSMA_1_SEEDED: each has a row of its own.
    pub(crate) fn startup_case(self, a: Arrived) -> Outcome
        requires first { 4 ≤ state_no self.state }
        requires last { state_no self.state ≤ 24 }
        ensures { result ≡ own_case a self }
    {
        self.startup_write(u8::from(self.state) as usize - 2)
    }

    // The other states of a startup.
    pub(crate) fn start_case(self, a: Arrived) -> Outcome
        requires { one_of (0 ∷ 1 ∷ 2 ∷ 3 ∷ 25 ∷ 26 ∷ 28 ∷ []) (state_no self.state) ≡ true }
        ensures { result ≡ own_case a self }
    {
        match self.state {
            InternalState::START => {
                self.state_transition_read(
                    RF233Register::IRQ_STATUS,
                    InternalState::START_PART_READ,
                )
            }
            InternalState::START_PART_READ => {
                self.state_transition_read(
                    RF233Register::TRX_STATUS,
                    InternalState::START_STATUS_READ,
                )
            }
            InternalState::START_STATUS_READ => self.start_status_read(a),
            InternalState::START_TURNING_OFF => self.start_turning_off(a),
            InternalState::START_RPC_SET => {
                self.state_transition_read(RF233Register::TRX_STATUS, InternalState::ON_STATUS_READ)
            }
            InternalState::ON_STATUS_READ => self.startup_write(23),
            InternalState::ON_PLL_SET => self.startup_write(24),
            _ => Outcome::done(self),
        }
    }

    // A radio that is on is turned off first.
    fn start_status_read(self, a: Arrived) -> Outcome
        requires { state_no self.state ≡ 2 }
        ensures { result ≡ own_case a self }
    {
        self.startup_write(if a.status == u8::from(ExternalState::ON) {
            0
        } else {
            1
        })
    }

    // The interrupt pin is made ready before the first write.
    fn start_turning_off(self, a: Arrived) -> Outcome
        requires { state_no self.state ≡ 3 }
        ensures { result ≡ own_case a self }
    {
        self.startup_write(1).with_actions(Actions::of([
            Action::IrqMakeInput,
            Action::IrqClear,
            Action::IrqSetFloatingState,
            Action::IrqEnableInterrupts,
        ]))
    }
}
