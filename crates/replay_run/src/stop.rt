// Why a run stops before the end of its input.
use script::line::Malformed;
use std::io;

// A line that is none of a script's, or an output that cannot be written.
#[derive(Drop)]
pub enum Stop {
    Malformed,
    Unwritten(io::Error),
}

impl From<Malformed> for Stop {
    fn from(_e: Malformed) -> Stop {
        Stop::Malformed
    }
}

impl From<io::Error> for Stop {
    fn from(e: io::Error) -> Stop {
        Stop::Unwritten(e)
    }
}
