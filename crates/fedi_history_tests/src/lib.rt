//! Tests of histories over keepers in memory: what an opening answers for good and for damaged
//! records, who a delivery is forwarded to, and that both shelves answer everyone the same.
//!
//! A shelf is made in a function that lends it to the test and never drops it: the proof that each
//! of its parts can be dropped would take longer than the proofs of all these tests.
#![tactic(auto)]

#[cfg(test)]
mod forwards;
#[cfg(test)]
mod opening;
#[cfg(test)]
mod seeds;
#[cfg(test)]
mod shelves;
#[cfg(test)]
mod town;
