// The frame check sequence (FCS) of IEEE 802.15.4.
#![tactic(auto)]

mod block;
pub mod fcs;
mod reduce;
