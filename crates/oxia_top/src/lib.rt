//! The whole program as one call over a source and a sink.
#![tactic(auto)]

mod happen;
mod input;
mod knife;
mod letter;
mod node;
mod output;
mod report;
mod telling;
mod top;
mod wire;
mod world;

pub use top::oxia;
