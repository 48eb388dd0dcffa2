// The interrupts that IRQ_STATUS shows, and whether a byte read from it holds one.
ghost use Rattle.std.specs.Prelude.{◌≡◌};
ghost use Rattle.rf233_const.specs.Bits.{bit_set, field_at};
ghost use Rattle.rf233_const.specs.Interrupt.{interrupt_bit};

// Interrupt flags. The spelling is the Rust's.
#[derive(Clone, Copy, PartialEq, Eq)]
pub enum InteruptFlags {
    IRQ_7_BAT_LOW = 0x80,
    IRQ_6_TRX_UR = 0x40,
    IRQ_5_AMI = 0x20,
    IRQ_4_CCA_ED_DONE = 0x10,
    IRQ_3_TRX_END = 0x08,
    IRQ_2_RX_START = 0x04,
    IRQ_1_PLL_UNLOCK = 0x02,
    IRQ_0_PLL_LOCK = 0x01,
}

// The flag as a byte in which its bit alone is set.
impl From<InteruptFlags> for u8 {
    ghost from_gives = { λ interrupt n. n ≡ field_at (interrupt_bit interrupt) 1 };

    fn from(interrupt: InteruptFlags) -> u8 {
        interrupt as u8
    }
}

// Whether the byte read from IRQ_STATUS holds the interrupt.
#[tactic(auto, using(crate::proofs::Masks::bit_tested))]
pub fn interrupt_included(mask: u8, interrupt: InteruptFlags) -> bool
    ensures { result ≡ bit_set (interrupt_bit interrupt) mask }
{
    let bit = u8::from(interrupt);
    (mask & bit) == bit
}
