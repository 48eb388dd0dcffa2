// The lines of the list: the powers from -128 on, each with its setting.
ghost use Rattle.std.specs.Prelude.{◌≡◌, ℕ, ◌++◌, Some, codes, decimal};
ghost use Rattle.std.specs.Fmt.{signed_decimal};
ghost use Rattle.rf233.specs.Power.{power_at};
ghost use Rattle.settings.specs.List.{entry_at};

use rf233::power::power_to_setting;
use std::io::Write;
use std::{fmt, io};

// A power, and the setting for it.
#[derive(Clone, Copy)]
struct Entry {
    power: i8,
    setting: u8,
}

impl Entry {
    // The entry of a power: on the line that this power is for, it is what the line has.
    fn new(power: i8) -> Self
        ensures { (k : ℕ) → power ≡ power_at k → result ≡ entry_at k }
    {
        let setting = power_to_setting(power);
        Entry { power, setting }
    }

    // What line k has, counted from 0.
    fn at(k: u8) -> Self
        ensures { result ≡ entry_at k }
    {
        Entry::new((i16::from(k) - 128) as i8)
    }
}

impl fmt::Display for Entry {
    ghost output = { λ e. Some (signed_decimal e.power ++ (codes " " ++ decimal e.setting)) };

    fn fmt<W: fmt::Write>(&self, f: &mut fmt::Formatter<W>) -> fmt::Result {
        let power = self.power;
        let setting = self.setting;
        write!(f, "{power} {setting}")
    }
}

// All 256 lines.
pub fn write_lines(to: &mut impl Write) -> io::Result<()> {
    for k in 0..=u8::MAX {
        writeln!(to, "{}", Entry::at(k))?;
    }
    Ok(())
}
