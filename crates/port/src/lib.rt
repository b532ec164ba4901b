//! The rules of an Avalon memory-mapped port with bursts: commands, answers, refusals, the port
//! machine as the contract of the trait `Port`, and the run over a list of calls.
#![tactic(auto)]

pub mod addresses;
pub mod calls;
pub mod numbers;
pub mod ports;
pub mod record;
pub mod run;
pub mod width;
