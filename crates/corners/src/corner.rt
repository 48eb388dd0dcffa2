// One corner: its events on a new driver, and what they yield beside what is expected, on one line.
use crate::yielded::Yielded;
use arrayvec::ArrayString;
use rf233::driver::Driver;
use scenario::events::Events;
use std::fmt::Write as _;
use std::io::Write;
use std::{fmt, io};

// More than the events of a corner yield.
type Text = ArrayString<1024>;

// A corner: its name, the events that lead to it, those that are shown, and what these are expected to yield.
#[derive(Clone, Copy)]
pub struct Corner {
    pub name: &'static str,
    pub setup: &'static [u8],
    pub events: &'static [u8],
    pub expected: &'static str,
}

impl Corner {
    // What the events yield, behind those of the setup, each behind a space.
    fn yielded(self) -> Result<Text, fmt::Error> {
        let mut pool = [0u8; 3040];
        let mut driver = Driver::new(129, 26).driver;
        for event in Events(self.setup) {
            driver = event.make(driver, &mut pool).driver;
        }
        let mut text = Text::new();
        for event in Events(self.events) {
            let out = event.make(driver, &mut pool);
            driver = out.driver;
            write!(text, " {}", Yielded(out))?;
        }
        Ok(text)
    }

    // Writes the line of the corner: its name, what is expected, what was got, and whether they are the same.
    pub fn write_line(self, to: &mut impl Write) -> io::Result<()> {
        let Corner { name, expected, .. } = self;
        let got = self.yielded()?;
        let said = if got.strip_prefix(' ') == Some(expected) {
            "same"
        } else {
            "DIFFERENT"
        };
        writeln!(to, "{name} | expected {expected} | got{got} | {said}")
    }
}
