// Transmission: the states from TX_STATUS_PRECHECK1 to TX_RETURN_TO_RX.
#![tactic(auto, unfolding(crate::specs::Case::case_of, crate::specs::Case::tree_at, crate::specs::Case::trees, crate::specs::Rows::eval, crate::specs::Rows::holds, crate::specs::Case::perform, crate::specs::Choice::pick))]

ghost use Rattle.std.specs.Prelude.{◌≡◌, true, [], ◌∷◌};
ghost use Rattle.rf233.specs.Case.{own_case};
ghost use Rattle.rf233.specs.Choice.{one_of};
ghost use Rattle.rf233.specs.State.{state_no};
ghost use Rattle.rf233.specs.Transmit.{send_done};

use crate::action::{Action, Actions};
use crate::answer::Outcome;
use crate::arrived::Arrived;
use crate::driver::{Driver, Lent};
use crate::record::buffer_in;
use crate::state::InternalState;
use rf233_const::flags::TRX_TRAC_CHANNEL_ACCESS_FAILURE;
use rf233_const::register::RF233Register;
use rf233_const::status::ExternalState;
use rf233_const::trx_state::{RF233TrxCmd, trac_of};

// A busy receiver: BUSY_RX_AACK, BUSY_TX_ARET or BUSY_RX.
fn is_busy(status: u8) -> bool
    ensures { result ≡ one_of (0x11 ∷ 0x12 ∷ 0x01 ∷ []) status }
{
    status == u8::from(ExternalState::BUSY_RX_AACK)
        || status == u8::from(ExternalState::BUSY_TX_ARET)
        || status == u8::from(ExternalState::BUSY_RX)
}

// The notice of a sent frame.
fn send_done(slot: Option<Lent>, res: u8) -> Action
    ensures { result ≡ send_done slot res }
{
    let trac = trac_of(res);
    Action::Sent(
        buffer_in(slot),
        trac == 0,
        trac == TRX_TRAC_CHANNEL_ACCESS_FAILURE,
    )
}

impl Driver {
    // The case of each of these states that does something.
    pub(crate) fn transmit_case(self, a: Arrived) -> Outcome
        requires { one_of (33 ∷ 35 ∷ 36 ∷ 37 ∷ 38 ∷ 39 ∷ 41 ∷ 42 ∷ 43 ∷ []) (state_no self.state) ≡ true }
        ensures { result ≡ own_case a self }
    {
        match self.state {
            InternalState::TX_STATUS_PRECHECK1 => self.tx_status_precheck1(a),
            InternalState::TX_WRITING_FRAME_DONE => {
                self.state_transition_read(
                    RF233Register::TRX_STATUS,
                    InternalState::TX_STATUS_PRECHECK2,
                )
            }
            InternalState::TX_STATUS_PRECHECK2 => self.tx_status_precheck2(a),
            InternalState::TX_PLL_START => {
                self.state_transition_read(RF233Register::TRX_STATUS, InternalState::TX_PLL_WAIT)
            }
            InternalState::TX_PLL_WAIT => self.tx_pll_wait(a),
            InternalState::TX_ARET_ON => {
                self.trx_command(RF233TrxCmd::TX_START, InternalState::TX_TRANSMITTING)
            }
            InternalState::TX_READ_ACK => {
                self.state_transition_read(RF233Register::TRX_STATE, InternalState::TX_RETURN_TO_RX)
            }
            InternalState::TX_DONE => {
                self.trx_command(RF233TrxCmd::RX_AACK_ON, InternalState::TX_READ_ACK)
            }
            InternalState::TX_RETURN_TO_RX => self.tx_return_to_rx(a),
            _ => Outcome::done(self),
        }
    }

    // Before the frame is written: with a busy receiver the driver waits for its interrupt.
    fn tx_status_precheck1(mut self, a: Arrived) -> Outcome
        requires { state_no self.state ≡ 33 }
        ensures { result ≡ own_case a self }
    {
        if is_busy(a.status) {
            self.state = InternalState::TX_PENDING;
            return Outcome::done(self);
        }
        self.state = InternalState::TX_WRITING_FRAME;
        self.frame_write().step()
    }

    // After the frame is written: with a busy receiver the reception comes first.
    fn tx_status_precheck2(mut self, a: Arrived) -> Outcome
        requires { state_no self.state ≡ 36 }
        ensures { result ≡ own_case a self }
    {
        if is_busy(a.status) {
            self.flags.receiving = true;
            self.state = InternalState::RX;
            return Outcome::done(self);
        }
        self.trx_command(RF233TrxCmd::PLL_ON, InternalState::TX_PLL_START)
    }

    // The radio is on its way to PLL_ON: asked again while it moves, told again where it went elsewhere.
    fn tx_pll_wait(mut self, a: Arrived) -> Outcome
        requires { state_no self.state ≡ 38 }
        ensures { result ≡ own_case a self }
    {
        self.flags.transmitting = true;
        if a.status == u8::from(ExternalState::STATE_TRANSITION_IN_PROGRESS) {
            self.state_transition_read(RF233Register::TRX_STATUS, InternalState::TX_PLL_WAIT)
        } else if a.status == u8::from(ExternalState::PLL_ON) {
            self.trx_command(RF233TrxCmd::TX_ARET_ON, InternalState::TX_ARET_ON)
        } else {
            self.trx_command(RF233TrxCmd::PLL_ON, InternalState::TX_PLL_WAIT)
        }
    }

    // The frame was sent: its buffer goes back, to the listener or, with none, dropped.
    fn tx_return_to_rx(mut self, a: Arrived) -> Outcome
        requires { state_no self.state ≡ 43 }
        ensures { result ≡ own_case a self }
    {
        if a.status != u8::from(ExternalState::RX_AACK_ON) {
            return self.state_transition_read(
                RF233Register::TRX_STATUS,
                InternalState::TX_RETURN_TO_RX,
            );
        }
        let sent = self.buffers.tx_buf;
        let notice = if self.clients.tx_client {
            send_done(sent, a.result)
        } else {
            Action::Dropped(buffer_in(sent))
        };
        self.flags.transmitting = false;
        self.buffers.tx_buf = None;
        self.state_transition_read(RF233Register::TRX_STATUS, InternalState::READY)
            .with_actions(Actions::of([notice]))
    }
}
