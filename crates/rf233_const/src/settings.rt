// Combinations of flags that are written to the radio at startup, and the default addresses.
ghost use Rattle.std.specs.Prelude.{◌≡◌};
ghost use Rattle.rf233_const.specs.Settings.{startup_values, default_addresses};

use crate::flags::{
    AACK_FVN_MODE, IRQ_PLL_LOCK, IRQ_RX_START, IRQ_TRX_DONE, IRQ_TRXBUF_ACCESS_VIOLATION,
    PHY_CC_CCA_MODE_CS_OR_ED, PHY_TX_PWR_4, TRX_CTRL_1_AUTO_CRC, TRX_CTRL_1_DIG34_RXTX_INDICATOR,
    TRX_CTRL_1_SPI_CMD_TRX_STATUS, TRX_CTRL_2_DATA_RATE_250, TRX_CTRL_2_RX_SAFE_MODE,
    XAH_CTRL_1_AACK_FLTR_RES_FT, XAH_CTRL_1_AACK_PROM_MODE, XAH_CTRL_1_AACK_UPLD_RES_FT,
};

// Flag combinations that are used in initialization.
pub const TRX_CTRL_1: u8 = TRX_CTRL_1_DIG34_RXTX_INDICATOR
    | TRX_CTRL_1_SPI_CMD_TRX_STATUS
    | TRX_CTRL_1_AUTO_CRC;

// A received frame is protected until it has been read; the data rate is 250 kb/s.
pub const TRX_CTRL_2: u8 = TRX_CTRL_2_RX_SAFE_MODE | TRX_CTRL_2_DATA_RATE_250;

// The default channel, busy where there is a carrier or energy above the threshold; the driver does not use it.
pub const PHY_CC_CCA: u8 = DEFAULT_PHY_CHANNEL | PHY_CC_CCA_MODE_CS_OR_ED;

// The default transmit power of 4 dBm.
pub const PHY_TX_PWR: u8 = PHY_TX_PWR_4;

// The default channel, the last of 11 to 26.
pub const DEFAULT_PHY_CHANNEL: u8 = 26;

// Lets through frame buffer violations, the end of a frame, the lock of the PLL and the start of a reception.
pub const IRQ_MASK: u8 = IRQ_TRXBUF_ACCESS_VIOLATION | IRQ_TRX_DONE | IRQ_PLL_LOCK | IRQ_RX_START;

// Reserved frame types are reported and filtered as data frames are, and promiscuous mode is on.
pub const XAH_CTRL_1: u8 = XAH_CTRL_1_AACK_UPLD_RES_FT
    | XAH_CTRL_1_AACK_FLTR_RES_FT
    | XAH_CTRL_1_AACK_PROM_MODE;

// No retries of a frame, no retries of CSMA-CA, and unslotted operation.
pub const XAH_CTRL_0: u8 = 0;

// The Rust adds the two at the place where it writes them: they are the default address, not the present one.
pub const CSMA_SEED_0: u8 = SHORT_ADDR_0 + SHORT_ADDR_1;

// Frames of every version are acknowledged; the high bits of the seed are 0.
pub const CSMA_SEED_1: u8 = AACK_FVN_MODE;

// Every mode of reduced power consumption is on.
pub const TRX_RPC: u8 = 0xFF;

// Default address settings. A constant a byte, under the names of the Rust; `default_addresses` has each address as an array.
pub const PAN_ID_0: u8 = 0x22;

// The high byte of the default PAN.
pub const PAN_ID_1: u8 = 0x22;

// Byte 0 of the default long address, the lowest.
pub const IEEE_ADDR_0: u8 = 0x11;

// Byte 1 of the default long address.
pub const IEEE_ADDR_1: u8 = 0x22;

// Byte 2 of the default long address.
pub const IEEE_ADDR_2: u8 = 0x33;

// Byte 3 of the default long address.
pub const IEEE_ADDR_3: u8 = 0x44;

// Byte 4 of the default long address.
pub const IEEE_ADDR_4: u8 = 0x55;

// Byte 5 of the default long address.
pub const IEEE_ADDR_5: u8 = 0x66;

// Byte 6 of the default long address.
pub const IEEE_ADDR_6: u8 = 0x77;

// Byte 7 of the default long address, the highest.
pub const IEEE_ADDR_7: u8 = 0x88;

// The low byte of the default short address.
pub const SHORT_ADDR_0: u8 = 0x11;

// The high byte of the default short address.
pub const SHORT_ADDR_1: u8 = 0x22;

// The value of each register that is set to a constant at startup, or has a default: as `RegisterFlags`, for a promise that names each.
#[derive(Clone, Copy)]
pub struct StartupValues {
    pub trx_ctrl_1: u8,
    pub trx_ctrl_2: u8,
    pub phy_cc_cca: u8,
    pub phy_tx_pwr: u8,
    pub default_phy_channel: u8,
    pub irq_mask: u8,
    pub xah_ctrl_1: u8,
    pub xah_ctrl_0: u8,
    pub csma_seed_0: u8,
    pub csma_seed_1: u8,
    pub trx_rpc: u8,
}

// The default addresses, each byte in the order of its registers.
#[derive(Clone, Copy)]
pub struct DefaultAddresses {
    pub pan_id: [u8; 2],
    pub ieee_addr: [u8; 8],
    pub short_addr: [u8; 2],
}

// The settings above, each in the field of its name.
pub fn startup_values() -> StartupValues
    ensures { result ≡ startup_values }
{
    StartupValues {
        trx_ctrl_1: TRX_CTRL_1,
        trx_ctrl_2: TRX_CTRL_2,
        phy_cc_cca: PHY_CC_CCA,
        phy_tx_pwr: PHY_TX_PWR,
        default_phy_channel: DEFAULT_PHY_CHANNEL,
        irq_mask: IRQ_MASK,
        xah_ctrl_1: XAH_CTRL_1,
        xah_ctrl_0: XAH_CTRL_0,
        csma_seed_0: CSMA_SEED_0,
        csma_seed_1: CSMA_SEED_1,
        trx_rpc: TRX_RPC,
    }
}

// The bytes of the default addresses above, each address from its low byte on.
pub fn default_addresses() -> DefaultAddresses
    ensures { result ≡ default_addresses }
{
    DefaultAddresses {
        pan_id: [PAN_ID_0, PAN_ID_1],
        ieee_addr: [
            IEEE_ADDR_0,
            IEEE_ADDR_1,
            IEEE_ADDR_2,
            IEEE_ADDR_3,
            IEEE_ADDR_4,
            IEEE_ADDR_5,
            IEEE_ADDR_6,
            IEEE_ADDR_7,
        ],
        short_addr: [SHORT_ADDR_0, SHORT_ADDR_1],
    }
}
