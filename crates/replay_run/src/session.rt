// What the calls of a script change, and `mark` keeps: the driver, the book, and the area of which the calls are lent the first bytes.
use custody::book::Book;
use rf233::answer::Outcome;
use rf233::driver::Driver;
use script::line::Line;
use scripted::call::make;
use scripted::feeding::fed;

// The bytes that there are for the pool.
const AREA: usize = 4096;

// How many of them the calls are lent at first.
const POOL_LENGTH: usize = 3040;

// The calls are lent the first `length` bytes of the area, or all where there are fewer. The length stands beside the area, since the bytes
// past it are kept for a later `pool_length`.
#[derive(Clone, Copy)]
pub struct Session {
    pub driver: Driver,
    pub book: Book,
    area: [u8; AREA],
    pub length: usize,
}

impl Session {
    // A new driver, with 129 bytes of spi_buf and channel 26, a new book, and an area of zeros.
    pub fn new() -> Session {
        Session {
            driver: Driver::new(129, 26).driver,
            book: Book::new(),
            area: [0; AREA],
            length: POOL_LENGTH,
        }
    }

    // What the calls are lent.
    pub fn pool(&self) -> &[u8] {
        &self.area[..self.length.min(AREA)]
    }

    // Writes the first `count` of the bytes into the area from byte `at` on, as far as it goes. The count is the line's (`Line` says why).
    pub fn store(&mut self, at: usize, bytes: &[u8], count: usize) {
        for (place, byte) in self.area.iter_mut().skip(at).zip(bytes.iter().take(count)) {
            *place = *byte;
        }
    }

    // One call: made, and entered in the book. `new` begins another book.
    pub fn make(&mut self, line: Line, bytes: &[u8]) -> Outcome {
        let length = self.length.min(AREA);
        let done = make(self.driver, line, bytes, &mut self.area[..length]);
        self.driver = done.driver;
        self.book = match line {
            Line::New(_, _) => Book::new(),
            _ => {
                let page = Book {
                    fault: false,
                    ..self.book
                };
                page.enter(fed(line), done.reply)
            }
        };
        done
    }
}
