// Transmit power: what each setting of PHY_TX_PWR radiates, in dBm, and the setting for a wish.
ghost use Rattle.std.specs.Prelude.{◌≡◌};
ghost use Rattle.rf233.specs.Power.{power_at, power_fits, power_to_setting, setting_to_power};

// What a setting radiates.
pub fn setting_to_power(setting: u8) -> i8
    ensures { result ≡ setting_to_power setting }
{
    match setting {
        0x00..=0x01 => 4,
        0x02..=0x03 => 3,
        0x04..=0x05 => 2,
        0x06 => 1,
        0x07 => 0,
        0x08 => -1,
        0x09 => -2,
        0x0A => -3,
        0x0B => -4,
        0x0C => -6,
        0x0D => -8,
        0x0E => -12,
        0x0F => -17,
        _ => -127,
    }
}

// The settings for the 256 powers of a signed byte, in their order: entry k is for power k - 128. Document 01 names this form.
const POWER_SETTINGS: [u8; 256] = [
    0x0F, // -128
    0x0F, // -127
    0x0F, // -126
    0x0F, // -125
    0x0F, // -124
    0x0F, // -123
    0x0F, // -122
    0x0F, // -121
    0x0F, // -120
    0x0F, // -119
    0x0F, // -118
    0x0F, // -117
    0x0F, // -116
    0x0F, // -115
    0x0F, // -114
    0x0F, // -113
    0x0F, // -112
    0x0F, // -111
    0x0F, // -110
    0x0F, // -109
    0x0F, // -108
    0x0F, // -107
    0x0F, // -106
    0x0F, // -105
    0x0F, // -104
    0x0F, // -103
    0x0F, // -102
    0x0F, // -101
    0x0F, // -100
    0x0F, // -99
    0x0F, // -98
    0x0F, // -97
    0x0F, // -96
    0x0F, // -95
    0x0F, // -94
    0x0F, // -93
    0x0F, // -92
    0x0F, // -91
    0x0F, // -90
    0x0F, // -89
    0x0F, // -88
    0x0F, // -87
    0x0F, // -86
    0x0F, // -85
    0x0F, // -84
    0x0F, // -83
    0x0F, // -82
    0x0F, // -81
    0x0F, // -80
    0x0F, // -79
    0x0F, // -78
    0x0F, // -77
    0x0F, // -76
    0x0F, // -75
    0x0F, // -74
    0x0F, // -73
    0x0F, // -72
    0x0F, // -71
    0x0F, // -70
    0x0F, // -69
    0x0F, // -68
    0x0F, // -67
    0x0F, // -66
    0x0F, // -65
    0x0F, // -64
    0x0F, // -63
    0x0F, // -62
    0x0F, // -61
    0x0F, // -60
    0x0F, // -59
    0x0F, // -58
    0x0F, // -57
    0x0F, // -56
    0x0F, // -55
    0x0F, // -54
    0x0F, // -53
    0x0F, // -52
    0x0F, // -51
    0x0F, // -50
    0x0F, // -49
    0x0F, // -48
    0x0F, // -47
    0x0F, // -46
    0x0F, // -45
    0x0F, // -44
    0x0F, // -43
    0x0F, // -42
    0x0F, // -41
    0x0F, // -40
    0x0F, // -39
    0x0F, // -38
    0x0F, // -37
    0x0F, // -36
    0x0F, // -35
    0x0F, // -34
    0x0F, // -33
    0x0F, // -32
    0x0F, // -31
    0x0F, // -30
    0x0F, // -29
    0x0F, // -28
    0x0F, // -27
    0x0F, // -26
    0x0F, // -25
    0x0F, // -24
    0x0F, // -23
    0x0F, // -22
    0x0F, // -21
    0x0F, // -20
    0x0F, // -19
    0x0F, // -18
    0x0F, // -17
    0x0F, // -16
    0x0F, // -15
    0x0F, // -14
    0x0F, // -13
    0x0E, // -12
    0x0E, // -11
    0x0E, // -10
    0x0E, // -9
    0x0D, // -8
    0x0D, // -7
    0x0C, // -6
    0x0C, // -5
    0x0B, // -4
    0x0A, // -3
    0x09, // -2
    0x08, // -1
    0x07, // 0
    0x06, // 1
    0x05, // 2
    0x03, // 3
    0x00, // 4
    0x00, // 5
    0x00, // 6
    0x00, // 7
    0x00, // 8
    0x00, // 9
    0x00, // 10
    0x00, // 11
    0x00, // 12
    0x00, // 13
    0x00, // 14
    0x00, // 15
    0x00, // 16
    0x00, // 17
    0x00, // 18
    0x00, // 19
    0x00, // 20
    0x00, // 21
    0x00, // 22
    0x00, // 23
    0x00, // 24
    0x00, // 25
    0x00, // 26
    0x00, // 27
    0x00, // 28
    0x00, // 29
    0x00, // 30
    0x00, // 31
    0x00, // 32
    0x00, // 33
    0x00, // 34
    0x00, // 35
    0x00, // 36
    0x00, // 37
    0x00, // 38
    0x00, // 39
    0x00, // 40
    0x00, // 41
    0x00, // 42
    0x00, // 43
    0x00, // 44
    0x00, // 45
    0x00, // 46
    0x00, // 47
    0x00, // 48
    0x00, // 49
    0x00, // 50
    0x00, // 51
    0x00, // 52
    0x00, // 53
    0x00, // 54
    0x00, // 55
    0x00, // 56
    0x00, // 57
    0x00, // 58
    0x00, // 59
    0x00, // 60
    0x00, // 61
    0x00, // 62
    0x00, // 63
    0x00, // 64
    0x00, // 65
    0x00, // 66
    0x00, // 67
    0x00, // 68
    0x00, // 69
    0x00, // 70
    0x00, // 71
    0x00, // 72
    0x00, // 73
    0x00, // 74
    0x00, // 75
    0x00, // 76
    0x00, // 77
    0x00, // 78
    0x00, // 79
    0x00, // 80
    0x00, // 81
    0x00, // 82
    0x00, // 83
    0x00, // 84
    0x00, // 85
    0x00, // 86
    0x00, // 87
    0x00, // 88
    0x00, // 89
    0x00, // 90
    0x00, // 91
    0x00, // 92
    0x00, // 93
    0x00, // 94
    0x00, // 95
    0x00, // 96
    0x00, // 97
    0x00, // 98
    0x00, // 99
    0x00, // 100
    0x00, // 101
    0x00, // 102
    0x00, // 103
    0x00, // 104
    0x00, // 105
    0x00, // 106
    0x00, // 107
    0x00, // 108
    0x00, // 109
    0x00, // 110
    0x00, // 111
    0x00, // 112
    0x00, // 113
    0x00, // 114
    0x00, // 115
    0x00, // 116
    0x00, // 117
    0x00, // 118
    0x00, // 119
    0x00, // 120
    0x00, // 121
    0x00, // 122
    0x00, // 123
    0x00, // 124
    0x00, // 125
    0x00, // 126
    0x00, // 127
];

// Entry k of the table. No other function reads it: one that names it carries all of it into its proof.
fn setting_at(k: u8) -> u8
    ensures { result ≡ power_to_setting (power_at k) }
{
    POWER_SETTINGS[k as usize]
}

// The setting for a wish.
pub fn power_to_setting(power: i8) -> u8
    ensures { result ≡ power_to_setting power }
{
    setting_at((power as i16 + 128) as u8)
}

// Whether a wish is one that document 01 takes: from -17 to 4.
pub fn power_fits(power: i8) -> bool
    ensures { result ≡ power_fits power }
{
    (-17..=4).contains(&power)
}
