// The events of a list of bytes: 0 new, 1 start, 2 firing, 3 a completion with a count and so many bytes, 4 transmit with buffer, length
// and n, 5 receive buffer with buffer and length, 6 the listeners are there, 7 stop, 8 commit. Any other byte is no event.
// C and the oracle write these bytes, so that they stay numbers.
ghost use Rattle.std.specs.Prelude.{length};
ghost use Rattle.std.specs.Iterator.{at_most};

use crate::event::Event;

// The bytes of the events that are still to come.
#[derive(Drop)]
pub struct Events<'a>(pub &'a [u8]);

// The events in order. A completion that is cut short ends the list; of another event a byte that is missing counts as 0.
impl<'a> Iterator for Events<'a> {
    type Item = Event<'a>;

    ghost remaining = { λ s. at_most (length s.0.now) };

    fn next(&mut self) -> Option<Event<'a>> {
        let (code, rest) = self.0.split_first()?;
        let byte = |i: usize| rest.get(i).copied().unwrap_or(0);
        let (event, width) = match code {
            0 => (Event::New, 0),
            1 => (Event::Start, 0),
            2 => (Event::Fired, 0),
            3 => {
                let end = usize::from(byte(0)) + 1;
                (Event::Completion(rest.get(1..end)?), end)
            }
            4 => (
                Event::Transmit {
                    buffer: byte(0),
                    length: byte(1),
                    count: byte(2),
                },
                3,
            ),
            5 => (
                Event::ReceiveBuffer {
                    buffer: byte(0),
                    length: byte(1),
                },
                2,
            ),
            6 => (Event::Listeners, 0),
            7 => (Event::Stop, 0),
            8 => (Event::Commit, 0),
            _ => (Event::Unknown, 0),
        };
        self.0 = &rest[width.min(rest.len())..];
        Some(event)
    }
}
