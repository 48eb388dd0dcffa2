// What the book has of a transfer: its kind, which may be one that there is not, and its two buffers.
ghost use Rattle.std.specs.Prelude.{◌≡◌};
ghost use Rattle.custody.specs.Taken.{number_or_none};

use rf233::transfer::TransferKind;

// The kind of a transfer: one of the four, or one that there is not, by how far its number is above 5. So each number from 1 up is that of
// one kind alone.
#[derive(Clone, Copy)]
pub enum Kind {
    Known(TransferKind),
    Unknown(u8),
}

// A transfer, as far as the book looks at it.
#[derive(Clone, Copy)]
pub struct Taken {
    pub kind: Kind,
    pub write: u8,
    pub read: u8,
}

impl Kind {
    // The kind of this number; 0 is none.
    pub(crate) fn of_number(number: u8) -> Option<Kind>
        ensures { number_or_none result ≡ number }
    {
        match number {
            0 => None,
            1 => Some(Kind::Known(TransferKind::RegisterRead)),
            2 => Some(Kind::Known(TransferKind::RegisterWrite)),
            3 => Some(Kind::Known(TransferKind::FrameRead)),
            4 => Some(Kind::Known(TransferKind::FrameWrite)),
            _ => Some(Kind::Unknown(number - 5)),
        }
    }
}
