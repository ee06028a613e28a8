//! Tests of disks in memory, of the journal and of the write-ahead log over them.
#![tactic(auto)]

#[cfg(test)]
mod journal_tests;
#[cfg(test)]
mod memory_tests;
#[cfg(test)]
mod wal_tests;
