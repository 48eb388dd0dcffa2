// What the driver keeps of a reception over its reads (request 2026-13): the length that is held, and whether the frame is spoiled.
ghost use Rattle.std.specs.Prelude.{◌≡◌};
ghost use Rattle.rf233.specs.Reception.{frame_read_over, in_range};
ghost use Rattle.rf233.specs.State.{state_no};

use crate::state::InternalState;

// The length byte that the length read brought; and whether the frame read then brought another one, which spoils the frame.
#[derive(Clone, Copy)]
pub struct Reception {
    pub length: u8,
    pub spoiled: bool,
}

impl Reception {
    // The held length is a frame's, from MIN_FRAME_SIZE to MAX_FRAME_SIZE.
    pub(crate) fn is_in_range(self) -> bool
        ensures { result ≡ in_range self }
    {
        matches!(self.length, 11..=127)
    }

    // What is kept once the transfer of this state is over and brought this byte 1: a length read's is held, a frame read's is compared.
    #[tactic(auto, unfolding(crate::specs::Choice::pick))]
    pub(crate) fn frame_read_over(mut self, state: InternalState, byte: u8) -> Reception
        ensures { result ≡ frame_read_over (state_no state) byte self }
    {
        match state {
            InternalState::RX_READING_FRAME_LEN => self.length = byte,
            InternalState::RX_READING_FRAME => self.spoiled = byte != self.length,
            _ => (),
        }
        self
    }
}
