// Flags of single registers: one bit of a register, or a value of one of its fields, at its place.
ghost use Rattle.std.specs.Prelude.{◌≡◌};
ghost use Rattle.rf233_const.specs.Bits.{bit_set};
ghost use Rattle.rf233_const.specs.Flags.{register_flags, rx_crc_valid_bit};

// The pins DIG3 and DIG4 show whether the radio transmits, to control an external front end (PA_EXT_EN).
pub const TRX_CTRL_1_DIG34_RXTX_INDICATOR: u8 = 1 << 7;

// The first byte that arrives in every SPI access shows TRX_STATUS (SPI_CMD_MODE 1).
pub const TRX_CTRL_1_SPI_CMD_TRX_STATUS: u8 = 1 << 2;

// The radio computes and appends the frame check.
pub const TRX_CTRL_1_AUTO_CRC: u8 = 1 << 5;

// The transmit power is 4 dBm, the highest that there is.
pub const PHY_TX_PWR_4: u8 = 0;

// The channel is busy where there is a carrier or energy above the threshold.
pub const PHY_CC_CCA_MODE_CS_OR_ED: u8 = 0 << 5;

// The channel is busy where there is energy above the threshold.
pub const PHY_CC_CCA_MODE_ED: u8 = 1 << 5;

// The channel is busy where there is a carrier, whatever its energy.
pub const PHY_CC_CCA_MODE_CS: u8 = 2 << 5;

// The channel is busy where there is a carrier with energy above the threshold.
pub const PHY_CC_CCA_MODE_CS_AND_ED: u8 = 3 << 5;

// The check of the last frame received was valid.
pub const PHY_RSSI_RX_CRC_VALID: u8 = 1 << 7;

// A received frame is protected from being overwritten by the next until it has been read.
pub const TRX_CTRL_2_RX_SAFE_MODE: u8 = 1 << 7;

// The data rate is 250 kb/s, that of IEEE 802.15.4.
pub const TRX_CTRL_2_DATA_RATE_250: u8 = 0;

// The interrupt of an access violation of the frame buffer (TRX_UR).
pub const IRQ_TRXBUF_ACCESS_VIOLATION: u8 = 1 << 6;

// The interrupt at the end of a reception or of a transmission (TRX_END).
pub const IRQ_TRX_DONE: u8 = 1 << 3;

// The interrupt at the start of the reception of a frame.
pub const IRQ_RX_START: u8 = 1 << 2;

// The interrupt that says that the PLL has locked.
pub const IRQ_PLL_LOCK: u8 = 1 << 0;

// Promiscuous mode: every frame received is reported, whatever its address and its check.
pub const XAH_CTRL_1_AACK_PROM_MODE: u8 = 1 << 1;

// Received frames of a reserved type are reported too, where their check is valid.
pub const XAH_CTRL_1_AACK_UPLD_RES_FT: u8 = 1 << 4;

// Received frames of a reserved type go through the address filter as data frames do.
pub const XAH_CTRL_1_AACK_FLTR_RES_FT: u8 = 1 << 5;

// Frames are acknowledged whatever their frame version is.
pub const AACK_FVN_MODE: u8 = 3 << 6;

// The bits of TRX_STATE that hold the result of a transmission (TRAC_STATUS).
pub const TRX_TRAC_MASK: u8 = 0xE0;

// The frame was acknowledged, and the acknowledgment says that data is pending.
pub const TRX_TRAC_SUCCESS_DATA_PENDING: u8 = 1 << 5;

// The frame was not sent, because the channel was busy at every attempt.
pub const TRX_TRAC_CHANNEL_ACCESS_FAILURE: u8 = 3 << 5;

// Every flag above, so that one promise speaks of them all. A constant has no clause of its own, and a `const _: () = prove!(..)` compares
// it with code alone: only a clause reaches the datasheet's definitions in specs/.
#[derive(Clone, Copy)]
pub struct RegisterFlags {
    pub trx_ctrl_1_dig34_rxtx_indicator: u8,
    pub trx_ctrl_1_spi_cmd_trx_status: u8,
    pub trx_ctrl_1_auto_crc: u8,
    pub phy_tx_pwr_4: u8,
    pub phy_cc_cca_mode_cs_or_ed: u8,
    pub phy_cc_cca_mode_ed: u8,
    pub phy_cc_cca_mode_cs: u8,
    pub phy_cc_cca_mode_cs_and_ed: u8,
    pub phy_rssi_rx_crc_valid: u8,
    pub trx_ctrl_2_rx_safe_mode: u8,
    pub trx_ctrl_2_data_rate_250: u8,
    pub irq_trxbuf_access_violation: u8,
    pub irq_trx_done: u8,
    pub irq_rx_start: u8,
    pub irq_pll_lock: u8,
    pub xah_ctrl_1_aack_prom_mode: u8,
    pub xah_ctrl_1_aack_upld_res_ft: u8,
    pub xah_ctrl_1_aack_fltr_res_ft: u8,
    pub aack_fvn_mode: u8,
    pub trx_trac_mask: u8,
    pub trx_trac_success_data_pending: u8,
    pub trx_trac_channel_access_failure: u8,
}

// The constants above, each in the field of its name.
pub fn register_flags() -> RegisterFlags
    ensures { result ≡ register_flags }
{
    RegisterFlags {
        trx_ctrl_1_dig34_rxtx_indicator: TRX_CTRL_1_DIG34_RXTX_INDICATOR,
        trx_ctrl_1_spi_cmd_trx_status: TRX_CTRL_1_SPI_CMD_TRX_STATUS,
        trx_ctrl_1_auto_crc: TRX_CTRL_1_AUTO_CRC,
        phy_tx_pwr_4: PHY_TX_PWR_4,
        phy_cc_cca_mode_cs_or_ed: PHY_CC_CCA_MODE_CS_OR_ED,
        phy_cc_cca_mode_ed: PHY_CC_CCA_MODE_ED,
        phy_cc_cca_mode_cs: PHY_CC_CCA_MODE_CS,
        phy_cc_cca_mode_cs_and_ed: PHY_CC_CCA_MODE_CS_AND_ED,
        phy_rssi_rx_crc_valid: PHY_RSSI_RX_CRC_VALID,
        trx_ctrl_2_rx_safe_mode: TRX_CTRL_2_RX_SAFE_MODE,
        trx_ctrl_2_data_rate_250: TRX_CTRL_2_DATA_RATE_250,
        irq_trxbuf_access_violation: IRQ_TRXBUF_ACCESS_VIOLATION,
        irq_trx_done: IRQ_TRX_DONE,
        irq_rx_start: IRQ_RX_START,
        irq_pll_lock: IRQ_PLL_LOCK,
        xah_ctrl_1_aack_prom_mode: XAH_CTRL_1_AACK_PROM_MODE,
        xah_ctrl_1_aack_upld_res_ft: XAH_CTRL_1_AACK_UPLD_RES_FT,
        xah_ctrl_1_aack_fltr_res_ft: XAH_CTRL_1_AACK_FLTR_RES_FT,
        aack_fvn_mode: AACK_FVN_MODE,
        trx_trac_mask: TRX_TRAC_MASK,
        trx_trac_success_data_pending: TRX_TRAC_SUCCESS_DATA_PENDING,
        trx_trac_channel_access_failure: TRX_TRAC_CHANNEL_ACCESS_FAILURE,
    }
}

// Whether a byte read from PHY_RSSI says that the frame's check was valid.
pub fn crc_valid(rssi: u8) -> bool
    ensures { result ≡ bit_set rx_crc_valid_bit rssi }
{
    (rssi & PHY_RSSI_RX_CRC_VALID) == PHY_RSSI_RX_CRC_VALID
}
