// Bits leave the register many at a time. The generator squared is x^32 + x^24 + x^10 + 1, and so on by doubling, so a multiple of it
// takes 16, 32 or 64 bits away with a few shifts: `q` says where it is taken, and its three lower terms are what stays.
ghost use Rattle.std.specs.Prelude.{◌≡◌};
ghost use Rattle.fcs.specs.Word.{reduced};

// One word for two: 64 bits leave, and 64 stay.
pub(crate) fn fold(y: u64) -> u64
    ensures { reduced 64 result ≡ reduced 128 y }
{
    let a = y ^ (y << 16);
    let q = a ^ (a << 32) ^ (y << 44);
    q ^ (q >> 20) ^ (q >> 48)
}

// 32 bits leave, and 32 stay.
fn to_32(y: u64) -> u32
    ensures { reduced 32 result ≡ reduced 64 y }
{
    let l = (y & 0xffff_ffff) as u32;
    let a = l ^ (l << 8);
    let q = a ^ (a << 16) ^ (l << 22);
    (y >> 32) as u32 ^ q ^ (q >> 10) ^ (q >> 24)
}

// 16 bits leave, and 16 stay.
fn to_16(y: u32) -> u16
    ensures { reduced 16 result ≡ reduced 32 y }
{
    let l = (y & 0xffff) as u16;
    (y >> 16) as u16 ^ last(l)
}

// The last 16 bits leave.
fn last(l: u16) -> u16
    ensures { result ≡ reduced 16 l }
{
    let a = l ^ (l << 4);
    let q = a ^ (a << 8) ^ (l << 11);
    q ^ (q >> 5) ^ (q >> 12)
}

// The register that a word stands for.
pub(crate) fn register(y: u64) -> u16
    ensures { result ≡ reduced 64 y }
{
    last(to_16(to_32(y)))
}
