// The three lines at the end of the input: the book's counts, where the book has each buffer, and where the driver's record has it.
use crate::session::Session;
use rf233::driver::Buffers;
use rf233::place::Place;
use script::report::Fields;
use std::io::Write;
use std::{array, io};

// How many buffers the clients have; the driver's own three come after them.
const CLIENTS: usize = 16;

// Where the driver's record has each buffer.
fn record(b: Buffers) -> [Place; 19] {
    array::from_fn(|i| b.place_of(i as u8))
}

// Writes the three lines.
pub fn ending<W: Write>(session: &Session, to: &mut W) -> io::Result<()> {
    let book = session.book;
    let record = record(session.driver.buffers);
    let clients = record.iter().take(CLIENTS);
    let with = clients.filter(|place| **place != Place::Client).count();
    writeln!(
        to,
        "book {} {} {} {with}",
        book.accepted, book.handed, book.dropped
    )?;
    writeln!(to, "places{}", Fields(&book.places.map(u8::from)))?;
    writeln!(to, "record{}", Fields(&record.map(u8::from)))
}
