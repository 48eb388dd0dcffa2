// A reply whose transfer is told by its numbers, for a caller that makes replies of its own: a number can name a kind that there is not,
// which no `TransferKind` can.
ghost use Rattle.std.specs.Prelude.{◌≡◌};
ghost use Rattle.custody.specs.Numbered.{numbered, numbered_transfer};

use rf233::action::Actions;
use rf233::answer::{Answer, Reply};
use rf233::transfer::Transfer;

// A transfer by its numbers: its kind, of any number, 0 where there is none; the rest as `Transfer` has it.
#[derive(Clone, Copy)]
pub struct NumberedTransfer {
    pub kind: u8,
    pub write: u8,
    pub read: u8,
    pub first: u8,
    pub second: u8,
    pub write_len: u16,
    pub read_len: u16,
}

// What a call yields, with its transfer so.
#[derive(Clone, Copy)]
pub struct NumberedReply {
    pub answer: Answer,
    pub transfer: NumberedTransfer,
    pub actions: Actions,
}

// The numbers of a transfer; zeros where there is none.
impl From<Option<Transfer>> for NumberedTransfer {
    ghost from_gives = { λ transfer numbers. numbers ≡ numbered_transfer transfer };

    fn from(transfer: Option<Transfer>) -> NumberedTransfer {
        match transfer {
            None => NumberedTransfer {
                kind: 0,
                write: 0,
                read: 0,
                first: 0,
                second: 0,
                write_len: 0,
                read_len: 0,
            },
            Some(t) => NumberedTransfer {
                kind: u8::from(t.kind),
                write: t.write,
                read: t.read,
                first: t.first,
                second: t.second,
                write_len: t.write_len,
                read_len: t.read_len,
            },
        }
    }
}

// A reply of the driver by its numbers.
impl From<Reply> for NumberedReply {
    ghost from_gives = { λ reply numbers. numbers ≡ numbered reply };

    fn from(reply: Reply) -> NumberedReply {
        NumberedReply {
            answer: reply.answer,
            transfer: NumberedTransfer::from(reply.transfer),
            actions: reply.actions,
        }
    }
}
