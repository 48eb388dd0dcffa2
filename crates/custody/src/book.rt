// The book of custody: where each buffer is, by what calls bring, answer, do and start. It never looks at the driver.
ghost use Rattle.std.specs.Prelude.{◌≡◌, ◌≤◌, slice_set};
ghost use Rattle.custody.specs.Book.{
  new_page,
  missing,
  filled,
  room,
  full,
  brought,
  end_places,
  ended,
  called,
  given,
  noted,
  noted_all,
  write_from,
  read_from,
  names_own,
  taken,
  begun,
  is_act,
  acts,
  turned_down_by,
  entered_by,
  entered,
};
ghost use Rattle.custody.specs.Book.Fed.{completes, declines, resumes};
ghost use Rattle.custody.specs.BookCode.{wrapped, numbers, page_of, fed_of};
ghost use Rattle.custody.specs.Taken.{kind_number, taken_kind};
ghost use Rattle.rf233.specs.Place.{place_no};

use crate::numbered::{NumberedReply, NumberedTransfer};
use crate::taken::{Kind, Taken};
use rf233::action::{Action, Actions};
use rf233::answer::{Answer, Reply};
use rf233::line::LINE_ROOM;
use rf233::place::Place;
use rf233::transfer::TransferKind;

// The 19 buffers' places; the transfer under way; the one that waits, of which the kind counts; the counts; whether a fault was found.
// A contract reads it as a page by `page_of`. No `impl Model`: a page forgets the buffers of the one that waits, programs copy the book,
// and the view of a `Copy` struct may forget nothing.
#[derive(Clone, Copy)]
pub struct Book {
    pub places: [Place; 19],
    pub under_way: Option<Taken>,
    pub waiting: Option<Taken>,
    pub accepted: u64,
    pub handed: u64,
    pub dropped: u64,
    pub fault: bool,
}

// A call, as far as the book looks at its arguments.
#[derive(Clone, Copy)]
pub enum Fed {
    LendsTransmit(u8),
    LendsReceive(u8),
    Completes,
    Declines,
    Resumes,
    Other,
}

// The places with the buffer at this one; a buffer that there is not changes none. A test and an index: of what `get_mut` lends a contract
// knows nothing afterwards.
fn put_at(mut places: [Place; 19], buffer: u8, place: Place) -> [Place; 19]
    ensures { numbers result ≡ slice_set (numbers places) buffer (place_no place) }
{
    let at = buffer as usize;
    if at < places.len() {
        places[at] = place;
    }
    places
}

// The place that a transfer of a kind takes the buffer from that it sends: transmit for a frame write, else the driver's own. It and the
// next are two functions, as document 01 has two rules: one for both would take the frame's kind and its place as parameters beside the
// kind.
fn write_from(kind: Kind) -> Place
    ensures { place_no result ≡ write_from (kind_number kind) }
{
    match kind {
        Kind::Known(TransferKind::FrameWrite) => Place::Transmit,
        _ => Place::Own,
    }
}

// The place of the buffer that it reads into: receive for a frame read, else the driver's own.
fn read_from(kind: Kind) -> Place
    ensures { place_no result ≡ read_from (kind_number kind) }
{
    match kind {
        Kind::Known(TransferKind::FrameRead) => Place::Receive,
        _ => Place::Own,
    }
}

// How many buffers a place takes from the client: the transmit place one, the receive place four.
fn room_of(place: Place) -> usize
    ensures { result ≡ room (place_no place) }
{
    match place {
        Place::Transmit => 1,
        Place::Receive => LINE_ROOM,
        _ => 0,
    }
}

// It names the right own buffers: 16 and 17 for a register, 18 for a frame.
fn names_own(t: Taken) -> bool
    ensures { result ≡ names_own (kind_number t.kind) t.write t.read }
{
    match t.kind {
        Kind::Known(TransferKind::FrameRead) => t.write == 18,
        Kind::Known(TransferKind::FrameWrite) => t.read == 18,
        _ => t.write == 16 && t.read == 17,
    }
}

// An action that is not `Nothing` is among the six.
fn any_act(actions: Actions) -> bool
    ensures { result ≡ acts actions.items }
{
    actions
        .items
        .iter()
        .any(|action| !matches!(action, Action::Nothing))
}

impl Book {
    // The book before any call: 16 buffers with the client, three that are the driver's own, and nothing counted.
    #[tactic(auto, unfolding(crate::specs::BookCode::wrapped))]
    pub fn new() -> Book
        ensures { page_of result ≡ new_page }
    {
        let mut places = [Place::Client; 19];
        places[16] = Place::Own;
        places[17] = Place::Own;
        places[18] = Place::Own;
        Book {
            places,
            under_way: None,
            waiting: None,
            accepted: 0,
            handed: 0,
            dropped: 0,
            fault: false,
        }
    }

    // The buffer is not at the place; one that there is not is at none.
    fn is_missing(self, buffer: u8, place: Place) -> bool
        ensures { result ≡ missing buffer (place_no place) (numbers self.places) }
    {
        self.places
            .get(buffer as usize)
            .is_none_or(|here| *here != place)
    }

    // How many of the 19 buffers are at the place.
    fn count_at(self, place: Place) -> usize
        ensures { result ≡ filled (place_no place) (numbers self.places) 19 }
    {
        self.places.iter().filter(|here| **here == place).count()
    }

    // The client's place takes no more, the buffer counted that the transfer under way took from there.
    #[tactic(auto, using(crate::proofs::BookLaws::filled_most), unfolding(crate::specs::BookCode::wrapped))]
    fn is_full(self, place: Place) -> bool
        ensures { result ≡ full (place_no place) (page_of self) }
    {
        let taken = self.under_way.is_some_and(|t| write_from(t.kind) == place
            || read_from(t.kind) == place);
        room_of(place) <= self.count_at(place) + usize::from(taken)
    }

    // The client brings a buffer to a place, where there is room for it.
    #[tactic(auto, unfolding(crate::specs::BookCode::wrapped))]
    fn bring(mut self, buffer: u8, place: Place) -> Book
        ensures { page_of result ≡ wrapped (brought buffer (place_no place) (page_of self)) }
    {
        self.fault |= self.is_missing(buffer, Place::Client) || self.is_full(place);
        self.places = put_at(self.places, buffer, place);
        self.accepted = self.accepted.wrapping_add(1);
        self
    }

    // The transfer under way ends: its two buffers go back to the places that a transfer of its kind takes them from; and then this one
    // waits. With none under way it cannot.
    #[tactic(auto, unfolding(crate::specs::BookCode::wrapped))]
    fn end_transfer(self, waiting: Option<Taken>) -> Book
        ensures { page_of result ≡ wrapped (ended (taken_kind waiting) (page_of self)) }
    {
        match self.under_way {
            None => Book {
                fault: true,
                ..self
            },
            Some(t) => {
                let sent = put_at(self.places, t.write, write_from(t.kind));
                Book {
                    places: put_at(sent, t.read, read_from(t.kind)),
                    under_way: None,
                    waiting,
                    ..self
                }
            }
        }
    }

    // A completion ends the transfer under way.
    #[tactic(auto, unfolding(crate::specs::BookCode::wrapped))]
    fn complete(self) -> Book
        ensures { page_of result ≡ wrapped (called completes (page_of self)) }
    {
        self.end_transfer(self.waiting)
    }

    // Declined, it waits.
    #[tactic(auto, unfolding(crate::specs::BookCode::wrapped))]
    fn decline(self) -> Book
        ensures { page_of result ≡ wrapped (called declines (page_of self)) }
    {
        self.end_transfer(self.under_way)
    }

    // A resume ends the waiting; what it offers begins as any other transfer.
    #[tactic(auto, unfolding(crate::specs::BookCode::wrapped))]
    fn resume(mut self) -> Book
        ensures { page_of result ≡ wrapped (called resumes (page_of self)) }
    {
        self.waiting = None;
        self
    }

    // What the call itself moves.
    #[tactic(auto, using(crate::proofs::BookCounts::twice))]
    fn enter_call(self, call: Fed) -> Book
        ensures { page_of result ≡ wrapped (called (fed_of call) (page_of self)) }
    {
        match call {
            Fed::LendsTransmit(b) => self.bring(b, Place::Transmit),
            Fed::LendsReceive(b) => self.bring(b, Place::Receive),
            Fed::Completes => self.complete(),
            Fed::Declines => self.decline(),
            Fed::Resumes => self.resume(),
            Fed::Other => self,
        }
    }

    // A buffer goes from a place back to the client, handed back or dropped.
    #[tactic(auto, unfolding(crate::specs::BookCode::wrapped))]
    fn give(mut self, buffer: u8, place: Place, handed: u64, dropped: u64) -> Book
        ensures { page_of result ≡ wrapped (given buffer (place_no place) handed dropped (page_of self)) }
    {
        self.fault |= self.is_missing(buffer, place);
        self.places = put_at(self.places, buffer, Place::Client);
        self.handed = self.handed.wrapping_add(handed);
        self.dropped = self.dropped.wrapping_add(dropped);
        self
    }

    // What an action moves: `Sent`, `Received` and `Dropped` give their buffer back to the client, the others move nothing.
    #[tactic(auto, using(crate::proofs::BookCounts::twice))]
    fn enter_action(self, action: Action) -> Book
        ensures { page_of result ≡ wrapped (noted action (page_of self)) }
    {
        match action {
            Action::Sent(b, _, _) => self.give(b, Place::Transmit, 1, 0),
            Action::Received(b, _, _) => self.give(b, Place::Receive, 1, 0),
            Action::Dropped(b) => self.give(b, Place::Transmit, 0, 1),
            Action::Nothing
            | Action::Power(_)
            | Action::ConfigDone
            | Action::IrqMakeInput
            | Action::IrqClear
            | Action::IrqSetFloatingState
            | Action::IrqEnableInterrupts
            | Action::IrqDisableInterrupts
            | Action::SleepMakeOutput
            | Action::SleepSet
            | Action::SleepClear
            | Action::ResetMakeOutput
            | Action::ResetClear(_)
            | Action::ResetSet => self,
        }
    }

    // What the actions move, in order; the elements past their count hold `Nothing`.
    #[tactic(auto, using(crate::proofs::BookCounts::twice, crate::proofs::BookLists::noted_more, crate::proofs::BookCounts::noted_wrapped))]
    fn enter_actions(mut self, actions: Actions) -> Book
        ensures { page_of result ≡ wrapped (noted_all actions.items (page_of self)) }
    {
        for action in &actions.items {
            self = self.enter_action(*action);
        }
        self
    }

    // The transfer takes its two buffers from where they are to be.
    #[tactic(auto, unfolding(crate::specs::BookCode::wrapped))]
    fn take_buffers(mut self, t: Taken) -> Book
        ensures { page_of result ≡ wrapped (taken (kind_number t.kind) t.write t.read (page_of self)) }
    {
        self.fault |= self.under_way.is_some() || self.waiting.is_some() || !names_own(t);
        self.fault |= matches!(t.kind, Kind::Unknown(_));
        self.fault |= self.is_missing(t.write, write_from(t.kind));
        self.fault |= self.is_missing(t.read, read_from(t.kind));
        let sent = put_at(self.places, t.write, Place::Transfer);
        self.places = put_at(sent, t.read, Place::Transfer);
        self.under_way = Some(t);
        self
    }

    // The transfer that the call starts takes its buffers; none takes nothing.
    #[tactic(auto, using(crate::proofs::BookCounts::twice))]
    fn enter_transfer(self, transfer: NumberedTransfer) -> Book
        ensures { page_of result ≡ wrapped (begun transfer.kind transfer.write transfer.read (page_of self)) }
    {
        match Kind::of_number(transfer.kind) {
            None => self,
            Some(kind) => self.take_buffers(Taken {
                kind,
                write: transfer.write,
                read: transfer.read,
            }),
        }
    }

    // A refused call changes nothing, and comes with nothing.
    #[tactic(auto, unfolding(crate::specs::BookCode::wrapped))]
    fn turn_down(mut self, reply: NumberedReply) -> Book
        ensures { page_of result ≡ wrapped (turned_down_by reply.actions.items reply.transfer.kind (page_of self)) }
    {
        let acted = any_act(reply.actions);
        let started = reply.transfer.kind != 0;
        self.fault |= acted || started;
        self
    }

    // A call and what it yielded: the call itself, its actions, its transfer.
    #[tactic(auto, using(crate::proofs::NumberedLaws::same_numbers), unfolding(crate::specs::Book::entered))]
    pub fn enter(self, call: Fed, reply: Reply) -> Book
        ensures { page_of result ≡ wrapped (entered (fed_of call) reply (page_of self)) }
    {
        self.enter_numbered(call, NumberedReply::from(reply))
    }

    // The same with the transfer by its numbers: one of a kind that there is not is a fault, and is under way all the same.
    #[tactic(auto, using(crate::proofs::BookCounts::after_a_call))]
    pub fn enter_numbered(self, call: Fed, reply: NumberedReply) -> Book
        ensures { page_of result ≡ wrapped (entered_by (fed_of call) reply.answer reply.actions.items
            reply.transfer.kind reply.transfer.write reply.transfer.read (page_of self)) }
    {
        if reply.answer == Answer::Done {
            self.enter_call(call)
                .enter_actions(reply.actions)
                .enter_transfer(reply.transfer)
        } else {
            self.turn_down(reply)
        }
    }
}
