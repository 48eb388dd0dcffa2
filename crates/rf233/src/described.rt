// Whether refusal 12 describes a driver value, asked place by place.
ghost use Rattle.std.specs.Prelude.{◌≡◌, ◌||◌, not, eqb};
ghost use Rattle.rf233.specs.Described.{
  buffer_missing,
  by_place,
  described,
  frame_bad,
  frame_no,
  held_length_bad,
  line_bad,
  own_wrong,
  receive_bad,
  slot_above,
  tx_length_bad,
  unplaced,
};
ghost use Rattle.rf233.specs.Line.{line, listed};
ghost use Rattle.rf233.specs.State.{state_frame, state_no};
ghost use Rattle.rf233.specs.declared.driver.Under.TheVariants.{Waits};

use crate::driver::{Buffers, Driver, Lent, Offer, Under};
use crate::line::{LINE_ROOM, Line};
use crate::record::slot_has;
use crate::state::InternalState;

// A transmit buffer, held or under way, that is no client's, or with a length or an n out of bounds. It and the next are two functions,
// since their bounds are two rules of document 01.
fn tx_bad(slot: Option<Lent>, n: u8) -> bool
    ensures { result ≡ (slot_above slot || tx_length_bad slot n) }
{
    slot.is_some_and(|x| 15 < x.buffer
        || !((2..=127).contains(&n) && (n + 3..=160).contains(&x.length)))
}

impl Lent {
    // As a receive buffer, in the line or under way, it is no client's, or has a length out of bounds.
    pub(crate) fn is_receive_bad(self) -> bool
        ensures { result ≡ receive_bad self }
    {
        15 < self.buffer || !(129..=160).contains(&self.length)
    }
}

impl Line {
    // What is wrong with a line of several; apart, as in `line`.
    #[cold]
    #[inline(never)]
    fn several_bad(self, slot: Option<Lent>) -> bool
        ensures { result ≡ line_bad (listed self) slot }
    {
        self.is_bad() || self.repeats() || slot.is_some_and(|x| self.has(x.buffer))
    }
}

impl Offer {
    // A frame read is to be offered again. It and the next two are apart, as few steps meet a waiting transfer: with one pattern for both a
    // completion takes 10 instructions more (measured).
    #[cold]
    #[inline(never)]
    fn is_frame_read(self) -> bool
        ensures { result ≡ eqb (frame_no (Waits self)) 1 }
    {
        matches!(self, Offer::FrameRead)
    }

    // A frame write is.
    #[cold]
    #[inline(never)]
    fn is_frame_write(self) -> bool
        ensures { result ≡ eqb (frame_no (Waits self)) 2 }
    {
        matches!(self, Offer::FrameWrite)
    }

    // Either is.
    #[cold]
    #[inline(never)]
    fn is_frame(self) -> bool
        ensures { result ≡ not (eqb (frame_no (Waits self)) 0) }
    {
        !matches!(self, Offer::Register)
    }
}

impl Under {
    // A frame read is under way or waits.
    fn is_frame_read(self) -> bool
        ensures { result ≡ eqb (frame_no self) 1 }
    {
        match self {
            Under::FrameRead(_) => true,
            Under::Waits(offer) => offer.is_frame_read(),
            _ => false,
        }
    }

    // A frame write is.
    fn is_frame_write(self) -> bool
        ensures { result ≡ eqb (frame_no self) 2 }
    {
        match self {
            Under::FrameWrite(_) => true,
            Under::Waits(offer) => offer.is_frame_write(),
            _ => false,
        }
    }

    // Either is.
    fn is_frame(self) -> bool
        ensures { result ≡ not (eqb (frame_no self) 0) }
    {
        match self {
            Under::FrameRead(_) | Under::FrameWrite(_) => true,
            Under::Waits(offer) => offer.is_frame(),
            _ => false,
        }
    }
}

impl Buffers {
    // What is wrong with the line: a buffer in it that is no client's, or with a length out of bounds, or twice in it, or to transmit too.
    fn line_bad(self) -> bool
        ensures { result ≡ line_bad (line self) self.tx_buf }
    {
        match self.rx_line {
            Line::Empty => false,
            Line::One(a) => a.is_receive_bad() || slot_has(self.tx_buf, a.buffer),
            l => l.several_bad(self.tx_buf),
        }
    }

    // What is wrong with the transfer under way or waiting: an own buffer is in its own place exactly while the transfer does not have it;
    // a frame transfer's client's buffer is asked like a held one, and in its place while the transfer waits.
    fn going_bad(self, handling: bool) -> bool
        ensures { result
            ≡ ((own_wrong self.under self || frame_bad self.under self.tx_buf (line self) self.tx_len handling)
            || unplaced self.under self) }
    {
        match self.under {
            Under::Idle | Under::Waits(Offer::Register) => !self.spi_tx
                || !self.spi_rx
                || !self.spi_buf,
            Under::Register => self.spi_tx || self.spi_rx || !self.spi_buf,
            Under::FrameRead(x) => {
                (self.spi_buf || !self.spi_tx || !self.spi_rx)
                    || (handling
                        || LINE_ROOM <= self.rx_line.count()
                        || x.is_receive_bad()
                        || slot_has(self.tx_buf, x.buffer)
                        || self.rx_line.has(x.buffer))
            }
            Under::FrameWrite(x) => {
                (self.spi_buf || !self.spi_tx || !self.spi_rx)
                    || (handling
                        || self.tx_buf.is_some()
                        || tx_bad(Some(x), self.tx_len)
                        || self.rx_line.has(x.buffer))
            }
            Under::Waits(Offer::FrameRead) => {
                (!self.spi_tx || !self.spi_rx || !self.spi_buf)
                    || (handling || self.rx_line.is_empty())
            }
            Under::Waits(Offer::FrameWrite) => {
                (!self.spi_tx || !self.spi_rx || !self.spi_buf)
                    || (handling || self.tx_buf.is_none())
            }
        }
    }
}

impl Driver {
    // Whether refusal 12 describes the driver value. No place is counted: where no client's place names an own buffer, a buffer is recorded
    // twice or nowhere exactly if two client's places name the same one or an own one is not where the transfer under way wants it.
    #[tactic(auto, using(crate::proofs::Regrouped::regrouped))]
    pub(crate) fn is_described(self) -> bool
        ensures { result ≡ described self }
    {
        self.bad_by_place()
    }

    // The two lengths of spi_buf, each place, the transfer under way, the state.
    fn bad_by_place(self) -> bool
        ensures { result ≡ by_place self }
    {
        let b = self.buffers;
        !(129..=160).contains(&b.spi_buf_whole)
            || !(2..=b.spi_buf_whole).contains(&b.spi_buf_len)
            || tx_bad(b.tx_buf, b.tx_len)
            || b.line_bad()
            || b.going_bad(self.flags.interrupt_handling)
            || self.state_bad()
    }

    // A frame transfer that the state does not name; a state without its transfer, or without the buffer that it takes; while a frame is
    // read out and announced, a held length that is no frame's. By one look at the state: with the length asked apart, a completion takes 6
    // instructions more (measured).
    fn state_bad(self) -> bool
        ensures { result
            ≡ (not (eqb (frame_no self.buffers.under) (state_frame (state_no self.state)))
            || (buffer_missing self.buffers (state_no self.state) || held_length_bad self.reception (state_no self.state))) }
    {
        let b = self.buffers;
        match self.state {
            InternalState::TX_STATUS_PRECHECK1 | InternalState::TX_RETURN_TO_RX => b
                .under
                .is_frame()
                || b.tx_buf.is_none(),
            InternalState::TX_WRITING_FRAME => !b.under.is_frame_write(),
            InternalState::RX_START_READING | InternalState::RX_READING_FRAME_LEN_DONE => b
                .under
                .is_frame()
                || b.rx_line.is_empty(),
            InternalState::RX_READING_FRAME_LEN => !b.under.is_frame_read(),
            InternalState::RX_READING_FRAME => !b.under.is_frame_read()
                || !self.reception.is_in_range(),
            InternalState::RX_READING_FRAME_DONE | InternalState::RX_READING_FRAME_FCS_DONE => b
                .under
                .is_frame()
                || !self.reception.is_in_range(),
            InternalState::RX_ENABLING_RECEPTION => b.under.is_frame()
                || b.rx_line.is_empty()
                || !self.reception.is_in_range(),
            _ => b.under.is_frame(),
        }
    }
}
