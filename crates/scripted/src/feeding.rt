// What the book of custody looks at of the call that a line asks for.
ghost use Rattle.std.specs.Prelude.{List, ◌≡◌, ℕ};
ghost use Rattle.custody.specs.BookCode.{fed_of};
ghost use Rattle.scripted.specs.Asked.{asked};
ghost use Rattle.scripted.specs.Feeding.{fed_by, in_byte};

use custody::book::Fed;
use script::line::Line;

// A buffer's number as the book has it: 255 for one past a byte.
fn in_byte(buffer: u64) -> u8
    ensures { result ≡ in_byte buffer }
{
    u8::try_from(buffer).unwrap_or(255)
}

// What the book is fed, whatever bytes the line names.
#[tactic(auto, unfolding(crate::specs::Asked::asked, crate::specs::Feeding::fed_by))]
pub fn fed(line: Line) -> Fed
    ensures { (xs : List ℕ) → fed_of result ≡ fed_by (asked line xs) }
{
    match line {
        Line::Transmit(buffer, _, _) => Fed::LendsTransmit(in_byte(buffer)),
        Line::SetReceiveBuffer(buffer, _) => Fed::LendsReceive(in_byte(buffer)),
        Line::ReadWriteDone(_) => Fed::Completes,
        Line::Declined => Fed::Declines,
        Line::Resume => Fed::Resumes,
        _ => Fed::Other,
    }
}
