// The line of receive buffers, oldest first. What concerns a longer line stands in functions of its own that are not inlined: a step with
// one buffer or none takes 5 in 100 instructions more where they are (measured).
ghost use Rattle.std.specs.Prelude.{◌≡◌, ◌∷◌, length, ltb, not};
ghost use Rattle.rf233.specs.Described.{receive_bad, repeats};
ghost use Rattle.rf233.specs.Line.{any_of, append, behind, names, front, line_of, listed, rotate, some};
ghost use Rattle.rf233.specs.Record.{times};

use crate::driver::Lent;

// How many receive buffers the driver may have.
pub const LINE_ROOM: usize = 4;

// Up to four receive buffers in the order of lending: a variant for each count, so that no value has a bad one.
#[derive(Clone, Copy)]
pub enum Line {
    Empty,
    One(Lent),
    Two(Lent, Lent),
    Three(Lent, Lent, Lent),
    Four(Lent, Lent, Lent, Lent),
}

impl Line {
    // No buffer is in the line.
    pub(crate) fn is_empty(self) -> bool
        ensures { result ≡ not (some (listed self)) }
    {
        matches!(self, Line::Empty)
    }

    // How many there are.
    pub(crate) fn count(self) -> usize
        ensures { result ≡ length (listed self) }
    {
        match self {
            Line::Empty => 0,
            Line::One(_) => 1,
            Line::Two(_, _) => 2,
            Line::Three(_, _, _) => 3,
            Line::Four(_, _, _, _) => 4,
        }
    }

    // The oldest.
    pub(crate) fn front(self) -> Option<Lent>
        ensures { result ≡ front (listed self) }
    {
        match self {
            Line::Empty => None,
            Line::One(a) | Line::Two(a, _) | Line::Three(a, _, _) | Line::Four(a, _, _, _) => Some(
                a,
            ),
        }
    }

    // The line without the oldest.
    pub(crate) fn behind(self) -> Line
        ensures { result ≡ line_of (behind (listed self)) }
    {
        match self {
            Line::Empty | Line::One(_) => Line::Empty,
            l => l.longer_behind(),
        }
    }

    // The same of a longer line.
    #[cold]
    #[inline(never)]
    fn longer_behind(self) -> Line
        ensures { result ≡ line_of (behind (listed self)) }
    {
        match self {
            Line::Two(_, b) => Line::One(b),
            Line::Three(_, b, c) => Line::Two(b, c),
            Line::Four(_, b, c, d) => Line::Three(b, c, d),
            _ => Line::Empty,
        }
    }

    // The line with a buffer before all others, where there is room for it.
    pub(crate) fn before(self, x: Lent) -> Line
        ensures { result ≡ line_of (x ∷ listed self) }
    {
        match self {
            Line::Empty => Line::One(x),
            l => l.longer_before(x),
        }
    }

    // The same of a line that has one.
    #[cold]
    #[inline(never)]
    fn longer_before(self, x: Lent) -> Line
        ensures { result ≡ line_of (x ∷ listed self) }
    {
        match self {
            Line::Empty => Line::One(x),
            Line::One(a) => Line::Two(x, a),
            Line::Two(a, b) => Line::Three(x, a, b),
            Line::Three(a, b, c) | Line::Four(a, b, c, _) => Line::Four(x, a, b, c),
        }
    }

    // The line with one more buffer at the end, where there is room for it.
    #[inline(never)]
    pub(crate) fn append(self, x: Lent) -> Line
        ensures { result ≡ line_of (append (listed self) x) }
    {
        match self {
            Line::Empty => Line::One(x),
            Line::One(a) => Line::Two(a, x),
            Line::Two(a, b) => Line::Three(a, b, x),
            Line::Three(a, b, c) => Line::Four(a, b, c, x),
            Line::Four(_, _, _, _) => self,
        }
    }

    // The oldest goes to the end.
    pub(crate) fn rotate(self) -> Line
        ensures { result ≡ line_of (rotate (listed self)) }
    {
        match self {
            Line::Empty | Line::One(_) => self,
            Line::Two(a, b) => Line::Two(b, a),
            Line::Three(a, b, c) => Line::Three(b, c, a),
            Line::Four(a, b, c, d) => Line::Four(b, c, d, a),
        }
    }

    // The buffer is in the line.
    pub(crate) fn has(self, buffer: u8) -> bool
        ensures { result ≡ ltb 0 (times buffer (names (listed self))) }
    {
        match self {
            Line::Empty => false,
            Line::One(a) => a.buffer == buffer,
            Line::Two(a, b) => a.buffer == buffer || b.buffer == buffer,
            Line::Three(a, b, c) => a.buffer == buffer || b.buffer == buffer || c.buffer == buffer,
            Line::Four(a, b, c, d) => {
                a.buffer == buffer || b.buffer == buffer || c.buffer == buffer || d.buffer == buffer
            }
        }
    }

    // A buffer is in the line twice.
    pub(crate) fn repeats(self) -> bool
        ensures { result ≡ repeats (names (listed self)) }
    {
        match self {
            Line::Empty | Line::One(_) => false,
            Line::Two(a, b) => b.buffer == a.buffer,
            Line::Three(a, b, c) => Line::Two(b, c).has(a.buffer) || c.buffer == b.buffer,
            Line::Four(a, b, c, d) => {
                Line::Three(b, c, d).has(a.buffer)
                    || Line::Two(c, d).has(b.buffer)
                    || d.buffer == c.buffer
            }
        }
    }

    // A buffer of the line that is no client's, or with a length out of bounds.
    pub(crate) fn is_bad(self) -> bool
        ensures { result ≡ any_of receive_bad (listed self) }
    {
        match self {
            Line::Empty => false,
            Line::One(a) => a.is_receive_bad(),
            Line::Two(a, b) => a.is_receive_bad() || b.is_receive_bad(),
            Line::Three(a, b, c) => a.is_receive_bad() || b.is_receive_bad() || c.is_receive_bad(),
            Line::Four(a, b, c, d) => {
                a.is_receive_bad() || b.is_receive_bad() || c.is_receive_bad() || d.is_receive_bad()
            }
        }
    }
}
