// The bytes that a line names: they stand first in the buffer that its reader was lent.
ghost use Rattle.std.specs.Prelude.{◌≡◌, take};

// The first `count` of the bytes, or all where there are fewer. The count stands beside the buffer, since a line holds no slice of it
// (`Line` says why).
pub(crate) fn first(bytes: &[u8], count: usize) -> &[u8]
    ensures { result.now ≡ take count bytes.now }
{
    bytes.get(..count).unwrap_or(bytes)
}
