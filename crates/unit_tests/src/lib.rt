//! Tests of what neither a run of the program nor a table shows: the real store and sink, prefixes, what stands behind
//! a fault, proofs that are built of parts, and what nests deep. They stand here, and not in the crates that they test,
//! so that none of those is proved once more for its tests.
#![tactic(auto)]

#[cfg(test)]
mod builders;
#[cfg(test)]
mod depth;
#[cfg(test)]
mod files;
#[cfg(test)]
mod logs;
#[cfg(test)]
mod names;
#[cfg(test)]
mod said;
#[cfg(test)]
mod theories;
#[cfg(test)]
mod writers;
