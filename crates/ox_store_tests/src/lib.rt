//! Tests of the store: bytes from outside, and histories of machines with what they answer.
#![tactic(auto)]

#[cfg(test)]
mod cases;
#[cfg(test)]
mod histories;
#[cfg(test)]
mod run;
#[cfg(test)]
mod spell;
#[cfg(test)]
mod tests;
