// The Rust's `RadioData`: a frame to send, and a buffer to receive into. A client names its buffer by its place in the pool; numbers
// are cut to a byte only once they are known to fit one.
ghost use Rattle.std.specs.Prelude.{◌≡◌, ◌≤◌};
ghost use Rattle.rf233.specs.Data.{begin_transmit, handle_bad, receive_buffer_call, rx_full, transmit_call, tx_busy};

use crate::answer::{Answer, Outcome};
use crate::driver::{Driver, Lent, Under};
use crate::line::LINE_ROOM;
use crate::pool::put_length;
use crate::state::InternalState;
use rf233_const::register::RF233Register;

// Refusal 7: a buffer that is no client's, or longer than a buffer of the pool.
fn handle_bad(buffer: usize, length: usize) -> bool
    ensures { result ≡ handle_bad buffer length }
{
    15 < buffer || 160 < length
}

impl Driver {
    // Refusal 2: a transmit buffer is held or under way, or the driver is transmitting.
    fn tx_busy(self) -> bool
        ensures { result ≡ tx_busy self }
    {
        self.buffers.tx_buf.is_some()
            || matches!(self.buffers.under, Under::FrameWrite(_))
            || self.flags.transmitting
    }

    // Refusal 10: the driver has four receive buffers, in the line or under way.
    fn rx_full(self) -> bool
        ensures { result ≡ rx_full self }
    {
        LINE_ROOM <= self.buffers.receive_count()
    }

    // The buffer is held and the driver is transmitting; in READY, while nothing is being received, the send begins at once.
    #[tactic(auto, unfolding(crate::specs::Data::begin_transmit, crate::specs::Choice::pick))]
    fn begin_transmit(mut self, buffer: u8, length: u8, frame_len: u8) -> Outcome
        requires { frame_len ≤ 125 }
        ensures { result ≡ begin_transmit self buffer length frame_len }
    {
        self.buffers.tx_buf = Some(Lent { buffer, length });
        self.buffers.tx_len = frame_len + 2;
        self.flags.transmitting = true;
        match self.state {
            InternalState::READY if !self.flags.receiving => {
                self.state_transition_read(
                    RF233Register::TRX_STATUS,
                    InternalState::TX_STATUS_PRECHECK1,
                )
            }
            _ => Outcome::done(self),
        }
    }

    // A frame of `frame_len` bytes in a buffer of `length` is to be sent.
    #[tactic(auto, unfolding(crate::specs::Data::transmit_call, crate::specs::Choice::pick))]
    pub fn transmit(
        self,
        buffer: usize,
        length: usize,
        frame_len: usize,
        pool: &mut [u8],
    ) -> Outcome
        ensures outcome { result ≡ (transmit_call self buffer length frame_len pool.old).outcome }
        ensures pool { pool.new ≡ (transmit_call self buffer length frame_len pool.old).pool }
    {
        if self.pool_fault(pool.len()) {
            return Outcome::answered(Answer::Pool, self);
        }
        if handle_bad(buffer, length) {
            return Outcome::answered(Answer::Handle, self);
        }
        if !self.flags.radio_on {
            return Outcome::answered(Answer::Off, self);
        }
        if self.tx_busy() {
            return Outcome::answered(Answer::Busy, self);
        }
        // the sum is held at the largest number, which no buffer's length passes
        if length <= frame_len.saturating_add(4) {
            return Outcome::answered(Answer::Size, self);
        }
        if 125 < frame_len {
            return Outcome::answered(Answer::Long, self);
        }
        let (buffer, length, frame_len) = (buffer as u8, length as u8, frame_len as u8);
        if self.buffers.has(buffer) {
            return Outcome::answered(Answer::Held, self);
        }
        put_length(pool, buffer, frame_len + 2);
        self.begin_transmit(buffer, length, frame_len).written(pool)
    }

    // A buffer of `length` to receive into; it goes to the end of the line.
    #[tactic(auto, unfolding(crate::specs::Data::receive_buffer_call, crate::specs::Choice::pick))]
    pub fn set_receive_buffer(mut self, buffer: usize, length: usize) -> Outcome
        ensures { result ≡ receive_buffer_call self buffer length }
    {
        if handle_bad(buffer, length) {
            return Outcome::answered(Answer::Handle, self);
        }
        if length < 129 {
            return Outcome::answered(Answer::Short, self);
        }
        if self.rx_full() {
            return Outcome::answered(Answer::Full, self);
        }
        let (buffer, length) = (buffer as u8, length as u8);
        if self.buffers.has(buffer) {
            return Outcome::answered(Answer::Held, self);
        }
        self.buffers.rx_line = self.buffers.rx_line.append(Lent { buffer, length });
        Outcome::done(self)
    }
}
