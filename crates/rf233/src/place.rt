// Where the driver's record has a buffer.
ghost use Rattle.std.specs.Prelude.{◌≡◌};
ghost use Rattle.rf233.specs.Place.{place_no, place_of};

use crate::driver::Buffers;
use crate::record::slot_has;

// The places of a buffer, with the numbers that document 01's book has for them: with the client, an own buffer's own place, the transmit
// place, the receive place, which is the line, the transfer under way.
#[derive(Clone, Copy, PartialEq, Eq)]
pub enum Place {
    Client = 0,
    Own = 1,
    Transmit = 2,
    Receive = 3,
    Transfer = 4,
}

// The number of each.
impl From<Place> for u8 {
    ghost from_gives = { λ place n. n ≡ place_no place };

    fn from(place: Place) -> u8 {
        place as u8
    }
}

impl Buffers {
    // The place at which the record has the buffer; at none of its own, the client has it.
    #[tactic(auto, unfolding(crate::specs::Place::place_of), using(crate::proofs::LineLaws::first_copied))]
    pub fn place_of(self, buffer: u8) -> Place
        ensures { place_no result ≡ place_of self buffer }
    {
        if self.own_has(buffer) {
            Place::Own
        } else if slot_has(self.tx_buf, buffer) {
            Place::Transmit
        } else if self.rx_line.has(buffer) {
            Place::Receive
        } else if self.under.has(buffer) {
            Place::Transfer
        } else {
            Place::Client
        }
    }
}
