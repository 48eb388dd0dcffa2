// The frame check sequence for C: `uint16_t fcs_of(const uint8_t *first, size_t count)`.
#![tactic(auto)]

ghost use Rattle.std.specs.Prelude.{◌≡◌};
ghost use Rattle.fcs.specs.Fcs.{fcs_of};

// The check of the bytes, under a name that C can link to.
#[unsafe(no_mangle)]
pub extern "C" fn fcs_of(bytes: &[u8]) -> u16
    ensures { result ≡ fcs_of bytes.now }
{
    fcs::fcs::fcs(bytes)
}
