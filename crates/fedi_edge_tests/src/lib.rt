//! Tests of what lies outside: doubles in memory, real streams, real files as disks and as journals,
//! and journals in memory: files written by hand, and disks that stop or fail at each call.
#![tactic(auto)]

#[cfg(test)]
mod devices;
#[cfg(test)]
mod doubles;
#[cfg(test)]
mod formats;
#[cfg(test)]
mod images;
#[cfg(test)]
mod journals;
#[cfg(test)]
mod outside;
#[cfg(test)]
mod real_files;
#[cfg(test)]
mod stops;
