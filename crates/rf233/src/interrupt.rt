// Interrupts: a firing, and the state that the read of IRQ_STATUS leads to.
ghost use Rattle.std.specs.Prelude.{◌≡◌};
ghost use Rattle.rf233.specs.Interrupt.{handle_interrupt, interrupt_state};

use crate::answer::Outcome;
use crate::arrived::Arrived;
use crate::driver::Driver;
use crate::state::InternalState;
use rf233_const::interrupt::{InteruptFlags, interrupt_included};
use rf233_const::register::RF233Register;
use rf233_const::trx_state::RF233TrxCmd;

impl Driver {
    // The firing itself: IRQ_STATUS is read, unless none may begin now. In RX reception is turned off first, so that the frame is not
    // overwritten before it is read out. Inlined: called, a step of a run with many firings takes 11 instructions more (measured).
    #[inline(always)]
    #[tactic(auto, unfolding(crate::specs::Interrupt::handle_interrupt, crate::specs::Choice::pick))]
    pub(crate) fn handle_interrupt(mut self) -> Outcome
        ensures { result ≡ handle_interrupt self }
    {
        if !self.buffers.free_to_start() {
            self.flags.interrupt_pending = true;
            return Outcome::done(self);
        }
        match self.state {
            InternalState::RX => self.trx_command(
                RF233TrxCmd::PLL_ON,
                InternalState::RX_TURNING_OFF,
            ),
            _ => {
                self.flags.interrupt_handling = true;
                self.register_read(RF233Register::IRQ_STATUS).step()
            }
        }
    }
}

impl InternalState {
    // The state that the interrupt leads to.
    #[tactic(auto, unfolding(crate::specs::Interrupt::interrupt_state, crate::specs::Choice::pick))]
    pub(crate) fn after_interrupt(self, a: Arrived) -> InternalState
        ensures { result ≡ interrupt_state a self }
    {
        if interrupt_included(a.result, InteruptFlags::IRQ_2_RX_START) {
            return InternalState::RX;
        }
        match self {
            InternalState::ON_PLL_WAITING
                if interrupt_included(a.result, InteruptFlags::IRQ_0_PLL_LOCK) => {
                InternalState::ON_PLL_SET
            }
            InternalState::TX_TRANSMITTING
                if interrupt_included(a.result, InteruptFlags::IRQ_3_TRX_END) => {
                InternalState::TX_DONE
            }
            _ => self,
        }
    }
}
