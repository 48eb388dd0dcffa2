// A text that lies in the value itself: a column, or the names of a case. Each fits: all conditions by name are fewer than 500 bytes, all
// flags 160, and six actions fewer than 240.
use arrayvec::ArrayString;
use std::fmt;
use std::fmt::Write;

// The type of these texts.
pub type Text = ArrayString<512>;

// The text of what is shown.
pub fn text(shown: &impl fmt::Display) -> Result<Text, fmt::Error> {
    let mut text = Text::new();
    write!(text, "{shown}")?;
    Ok(text)
}
