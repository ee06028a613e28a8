//! Tests of values and messages: bytes from outside, and each call that takes memory once.
#![tactic(auto)]

#[cfg(test)]
mod cases;
#[cfg(test)]
mod message_cases;
#[cfg(test)]
mod run;
#[cfg(test)]
mod spell;
#[cfg(test)]
mod tests;
