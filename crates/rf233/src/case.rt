// Each state's own case: what a completion does once buffers, interrupt and commit have been looked at. A case that does something requires
// that the driver is in its state, each by the state's own number: a type for each state would need a value of each, and is no plainer. A
// file of cases chooses among its states by a `match` of its own, whose last arm none of them reaches.
ghost use Rattle.std.specs.Prelude.{◌≡◌};
ghost use Rattle.rf233.specs.Case.{own_case};

use crate::answer::Outcome;
use crate::arrived::Arrived;
use crate::driver::Driver;
use crate::state::InternalState;

impl Driver {
    // The case of the driver's state.
    #[tactic(auto, unfolding(crate::specs::Case::case_of, crate::specs::Case::tree_at, crate::specs::Case::trees, crate::specs::Rows::eval, crate::specs::Case::perform))]
    pub(crate) fn own_case(self, a: Arrived) -> Outcome
        ensures { result ≡ own_case a self }
    {
        match self.state {
            // Nothing to do: an interrupt or a call leads on.
            InternalState::ON_PLL_WAITING
            | InternalState::SLEEP
            | InternalState::TX_WRITING_FRAME
            | InternalState::TX_TRANSMITTING
            | InternalState::TX_PENDING
            | InternalState::RX
            | InternalState::RX_READY_TO_READ
            | InternalState::RX_READING_FRAME_LEN
            | InternalState::RX_READING_FRAME => Outcome::done(self),
            InternalState::READY => self.ready_case(a),
            InternalState::START
            | InternalState::START_PART_READ
            | InternalState::START_STATUS_READ
            | InternalState::START_TURNING_OFF
            | InternalState::START_RPC_SET
            | InternalState::ON_STATUS_READ
            | InternalState::ON_PLL_SET => self.start_case(a),
            InternalState::SLEEP_TRX_OFF | InternalState::SLEEP_WAKE => self.sleep_case(a),
            InternalState::TX_STATUS_PRECHECK1
            | InternalState::TX_WRITING_FRAME_DONE
            | InternalState::TX_STATUS_PRECHECK2
            | InternalState::TX_PLL_START
            | InternalState::TX_PLL_WAIT
            | InternalState::TX_ARET_ON
            | InternalState::TX_READ_ACK
            | InternalState::TX_DONE
            | InternalState::TX_RETURN_TO_RX => self.transmit_case(a),
            InternalState::RX_TURNING_OFF
            | InternalState::RX_START_READING
            | InternalState::RX_READING_FRAME_LEN_DONE
            | InternalState::RX_READING_FRAME_DONE
            | InternalState::RX_READING_FRAME_FCS_DONE
            | InternalState::RX_ENABLING_RECEPTION => self.receive_case(a),
            InternalState::CONFIG_SHORT0_SET
            | InternalState::CONFIG_SHORT1_SET
            | InternalState::CONFIG_PAN0_SET
            | InternalState::CONFIG_PAN1_SET
            | InternalState::CONFIG_IEEE0_SET
            | InternalState::CONFIG_IEEE1_SET
            | InternalState::CONFIG_IEEE2_SET
            | InternalState::CONFIG_IEEE3_SET
            | InternalState::CONFIG_IEEE4_SET
            | InternalState::CONFIG_IEEE5_SET
            | InternalState::CONFIG_IEEE6_SET
            | InternalState::CONFIG_IEEE7_SET
            | InternalState::CONFIG_POWER_SET => self.commit_case(a),
            InternalState::CONFIG_DONE => self.config_done(a),
            _ => self.startup_case(a),
        }
    }
}
