//! Tests of a replica on disks in memory.
#![tactic(auto)]

#[cfg(test)]
mod tests;
