//! Tests of words and requests: moments, addresses, keys and codes, entries, and requests as clients
//! write them, by external test vectors and worked examples.
#![tactic(auto)]

#[cfg(test)]
mod address;
#[cfg(test)]
mod entries;
#[cfg(test)]
mod mac;
#[cfg(test)]
mod moments;
#[cfg(test)]
mod requests;
