// A completion, phase by phase: a length byte is held or compared and the buffers go back to their places, then come interrupt result,
// READY bookkeeping, pending interrupt, waiting commit and the state's own case. A phase that leads on in two ways returns early and ends
// with a call: as arms of one expression a step takes 3 in 100 instructions more (measured).
ghost use Rattle.std.specs.Prelude.{◌≡◌};
ghost use Rattle.rf233.specs.Choice.{pick};
ghost use Rattle.rf233.specs.Completion.{
  buffers_back,
  completed,
  frame_done,
  frame_end,
  interrupt_result,
  now_on,
  pending_interrupt,
  puts_off,
  ready_bookkeeping,
  transfer_over,
  waiting_commit,
};
ghost use Rattle.rf233.specs.Driver.{in_no};
ghost use Rattle.rf233.specs.State.{state_no};

use crate::answer::Outcome;
use crate::arrived::Arrived;
use crate::driver::{Buffers, Driver, Under};
use crate::state::InternalState;
use rf233_const::interrupt::{InteruptFlags, interrupt_included};
use rf233_const::register::RF233Register;

impl Buffers {
    // The record with the buffers of the transfer under way back in their places, and what is under way or waits then.
    pub(crate) fn back(mut self, then: Under) -> Buffers
        ensures { result ≡ buffers_back then self }
    {
        match self.under {
            Under::Idle | Under::Waits(_) => (),
            Under::Register => {
                self.spi_tx = true;
                self.spi_rx = true;
            }
            Under::FrameRead(x) => {
                self.spi_buf = true;
                self.rx_line = self.rx_line.before(x);
            }
            Under::FrameWrite(x) => {
                self.spi_buf = true;
                self.tx_buf = Some(x);
            }
        }
        self.under = then;
        self
    }
}

impl InternalState {
    // The state once a frame transfer is over; while an interrupt is handled, the transfer was a register's.
    #[tactic(auto, unfolding(crate::specs::Completion::frame_done, crate::specs::Choice::pick))]
    fn frame_done(self, handling: bool) -> InternalState
        ensures { result ≡ frame_done handling self }
    {
        match self {
            _ if handling => self,
            InternalState::TX_WRITING_FRAME => InternalState::TX_WRITING_FRAME_DONE,
            InternalState::RX_READING_FRAME_LEN => InternalState::RX_READING_FRAME_LEN_DONE,
            InternalState::RX_READING_FRAME => InternalState::RX_READING_FRAME_DONE,
            _ => self,
        }
    }

    // A pending interrupt is put off: a frame is about to be read out.
    fn puts_off(self) -> bool
        ensures { result ≡ puts_off (state_no self) }
    {
        matches!(
            self,
            InternalState::RX_TURNING_OFF
                | InternalState::RX_START_READING
                | InternalState::RX_READING_FRAME_DONE
                | InternalState::RX_READING_FRAME_FCS_DONE
        )
    }
}

impl Driver {
    // The driver with its buffers back.
    fn transfer_over(mut self) -> Driver
        ensures { result ≡ transfer_over self }
    {
        self.state = self.state.frame_done(self.flags.interrupt_handling);
        self.buffers = self.buffers.back(Under::Idle);
        self.flags.interrupt_handling = false;
        self
    }

    // A waiting commit starts in READY, and the step ends there.
    #[tactic(auto, unfolding(crate::specs::Completion::waiting_commit, crate::specs::Choice::pick))]
    fn waiting_commit(self, a: Arrived) -> Outcome
        ensures { result ≡ waiting_commit a self }
    {
        if self.flags.config_pending && matches!(self.state, InternalState::READY) {
            return self.start_commit();
        }
        self.own_case(a)
    }

    // An interrupt that fired during the transfer is handled now, and the step ends there.
    #[tactic(auto, unfolding(crate::specs::Completion::pending_interrupt, crate::specs::Choice::pick))]
    fn pending_interrupt(mut self, a: Arrived) -> Outcome
        ensures { result ≡ pending_interrupt a self }
    {
        if self.flags.interrupt_pending && !self.state.puts_off() {
            self.flags.interrupt_pending = false;
            return self.handle_interrupt();
        }
        self.waiting_commit(a)
    }

    // READY means that the radio is on; if it was off, the power listener is to be told.
    #[tactic(auto, unfolding(crate::specs::Choice::pick))]
    fn ready_marked(mut self) -> Driver
        ensures { result ≡ pick (in_no 29 self) (now_on self) self }
    {
        if matches!(self.state, InternalState::READY) {
            self.flags.wake_pending = false;
            self.flags.power_client_pending = !self.flags.radio_on
                || self.flags.power_client_pending;
            self.flags.radio_on = true;
        }
        self
    }

    // READY bookkeeping, and what follows it.
    fn ready_bookkeeping(self, a: Arrived) -> Outcome
        ensures { result ≡ ready_bookkeeping a self }
    {
        self.ready_marked().pending_interrupt(a)
    }

    // The whole frame is in the radio's buffer: it is read out, or what waits is sent, or the driver goes back to waiting.
    #[tactic(auto, unfolding(crate::specs::Completion::frame_end, crate::specs::Choice::pick))]
    fn frame_end(mut self, a: Arrived) -> Outcome
        ensures { result ≡ frame_end a self }
    {
        if interrupt_included(a.result, InteruptFlags::IRQ_3_TRX_END) && self.flags.receiving {
            self.flags.receiving = false;
            if !self.buffers.rx_line.is_empty() {
                self.state = InternalState::RX_START_READING;
                return self.ready_bookkeeping(a);
            }
            if self.flags.transmitting {
                return self.state_transition_read(
                    RF233Register::MIN,
                    InternalState::TX_STATUS_PRECHECK1,
                );
            }
            return self.state_transition_read(RF233Register::TRX_STATUS, InternalState::READY);
        }
        self.ready_bookkeeping(a)
    }

    // What the read of IRQ_STATUS showed; on the way to sleep it is passed over.
    #[tactic(auto, unfolding(crate::specs::Completion::interrupt_result, crate::specs::Choice::pick))]
    fn interrupt_result(mut self, a: Arrived) -> Outcome
        ensures { result ≡ interrupt_result a self }
    {
        match self.state {
            InternalState::SLEEP_TRX_OFF | InternalState::SLEEP => self.ready_bookkeeping(a),
            _ => {
                let started = interrupt_included(a.result, InteruptFlags::IRQ_2_RX_START);
                self.flags.receiving = started || self.flags.receiving;
                self.state = self.state.after_interrupt(a);
                self.frame_end(a)
            }
        }
    }

    // The step of a completion, once its bytes have been copied.
    #[tactic(auto, unfolding(crate::specs::Completion::completed, crate::specs::Choice::pick))]
    pub(crate) fn complete(mut self, a: Arrived) -> Outcome
        ensures { result ≡ completed a self }
    {
        self.reception = self.reception.frame_read_over(self.state, a.result);
        let over = self.transfer_over();
        if self.flags.interrupt_handling {
            return over.interrupt_result(a);
        }
        over.ready_bookkeeping(a)
    }
}
