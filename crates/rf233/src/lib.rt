// The AT86RF233 driver. The public modules hold what a client calls, the types that it passes and gets, and their numbers. Behind them
// stand the states' cases, a completion's phases, the transfer starters, refusal 12 and the pool.
#![tactic(auto)]

pub mod action;
pub mod answer;
mod arrived;
mod case;
mod commit;
mod completion;
pub mod config;
pub mod create;
pub mod data;
mod decline;
mod described;
pub mod driver;
mod guard;
mod interrupt;
pub mod kernel;
pub mod line;
pub mod listeners;
pub mod place;
mod pool;
pub mod power;
mod ready;
mod receive;
pub mod reception;
mod record;
mod sleep;
mod starter;
mod startup;
pub mod state;
mod step;
pub mod transfer;
mod transmit;
mod write;
