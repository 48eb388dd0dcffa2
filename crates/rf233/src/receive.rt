// Reception: the states from RX_TURNING_OFF to RX_ENABLING_RECEPTION.
#![tactic(auto, unfolding(crate::specs::Case::case_of, crate::specs::Case::tree_at, crate::specs::Case::trees, crate::specs::Rows::eval, crate::specs::Rows::holds, crate::specs::Case::perform, crate::specs::Choice::pick, crate::specs::Receive::onward_read))]

ghost use Rattle.std.specs.Prelude.{◌≡◌, true, [], ◌∷◌};
ghost use Rattle.rf233.specs.Case.{own_case};
ghost use Rattle.rf233.specs.Choice.{one_of};
ghost use Rattle.rf233.specs.Receive.{onward_read, received};
ghost use Rattle.rf233.specs.State.{state_no};

use crate::action::{Action, Actions};
use crate::answer::Outcome;
use crate::arrived::Arrived;
use crate::driver::Driver;
use crate::record::buffer_in;
use crate::state::InternalState;
use rf233_const::flags::crc_valid;
use rf233_const::register::RF233Register;
use rf233_const::trx_state::RF233TrxCmd;

impl Driver {
    // The case of each of these states that does something.
    pub(crate) fn receive_case(self, a: Arrived) -> Outcome
        requires { one_of (60 ∷ 62 ∷ 64 ∷ 66 ∷ 67 ∷ 68 ∷ []) (state_no self.state) ≡ true }
        ensures { result ≡ own_case a self }
    {
        match self.state {
            InternalState::RX_TURNING_OFF => self.rx_turning_off(a),
            InternalState::RX_START_READING => self.rx_start_reading(a),
            InternalState::RX_READING_FRAME_LEN_DONE => self.rx_reading_frame_len_done(a),
            InternalState::RX_READING_FRAME_DONE => {
                self.state_transition_read(
                    RF233Register::PHY_RSSI,
                    InternalState::RX_READING_FRAME_FCS_DONE,
                )
            }
            InternalState::RX_READING_FRAME_FCS_DONE => self.rx_reading_frame_fcs_done(a),
            InternalState::RX_ENABLING_RECEPTION => self.rx_enabling_reception(a),
            _ => Outcome::done(self),
        }
    }

    // Reception is off: the interrupt that told of the frame's end is read.
    fn rx_turning_off(mut self, a: Arrived) -> Outcome
        requires { state_no self.state ≡ 60 }
        ensures { result ≡ own_case a self }
    {
        self.flags.interrupt_handling = true;
        self.state_transition_read(RF233Register::IRQ_STATUS, InternalState::RX_READY_TO_READ)
    }

    // The frame's length is read first: a frame read of no bytes brings the status and the length.
    fn rx_start_reading(mut self, a: Arrived) -> Outcome
        requires { state_no self.state ≡ 62 }
        ensures { result ≡ own_case a self }
    {
        self.state = InternalState::RX_READING_FRAME_LEN;
        self.frame_read(0).step()
    }

    // A held length from MIN_FRAME_SIZE to MAX_FRAME_SIZE is read out; any other is left.
    fn rx_reading_frame_len_done(mut self, a: Arrived) -> Outcome
        requires { state_no self.state ≡ 64 }
        ensures { result ≡ own_case a self }
    {
        match self.reception.length {
            n @ 11..=127 => {
                self.state = InternalState::RX_READING_FRAME;
                self.frame_read(n).step()
            }
            _ => self.onward_read(),
        }
    }

    // Whether the frame's check was valid is kept, and the radio is turned back on.
    fn rx_reading_frame_fcs_done(mut self, a: Arrived) -> Outcome
        requires { state_no self.state ≡ 67 }
        ensures { result ≡ own_case a self }
    {
        self.flags.crc_valid = crc_valid(a.result);
        self.trx_command(
            RF233TrxCmd::RX_AACK_ON,
            InternalState::RX_ENABLING_RECEPTION,
        )
    }

    // A spoiled frame is told to nobody, and its buffer stays in front. Any other is handed to the listener; with none its buffer goes to
    // the end of the line. A waiting stop is withdrawn.
    fn rx_enabling_reception(mut self, a: Arrived) -> Outcome
        requires { state_no self.state ≡ 68 }
        ensures { result ≡ own_case a self }
    {
        self.flags.receiving = false;
        self.flags.sleep_pending = false;
        if self.reception.spoiled {
            return self.onward_read();
        }
        if !self.clients.rx_client {
            self.buffers.rx_line = self.buffers.rx_line.rotate();
            return self.onward_read();
        }
        let notice = self.received();
        self.buffers.rx_line = self.buffers.rx_line.behind();
        self.onward_read().with_actions(Actions::of([notice]))
    }

    // TRX_STATUS is read, and the next state is the beginning of a send where one waits.
    fn onward_read(self) -> Outcome
        ensures { result ≡ onward_read self }
    {
        let next = if self.flags.transmitting {
            InternalState::TX_STATUS_PRECHECK1
        } else {
            InternalState::READY
        };
        self.state_transition_read(RF233Register::TRX_STATUS, next)
    }

    // The notice of a received frame, in the buffer at the front of the line. The held length is 11 at least (refusal 12).
    fn received(self) -> Action
        ensures { result ≡ received self }
    {
        Action::Received(
            buffer_in(self.buffers.rx_line.front()),
            self.reception.length.saturating_sub(2),
            self.flags.crc_valid,
        )
    }
}
