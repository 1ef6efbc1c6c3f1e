#![tactic(auto)]
//! Tests of the crates that stand below a cache: the order of known uses, the manager, clients and the cache itself.
//! They stand here so that none of those crates is proved a second time beside its tests.

#[cfg(test)]
mod clients;
#[cfg(test)]
mod granters;
#[cfg(test)]
mod managers;
#[cfg(test)]
mod reductions;
#[cfg(test)]
mod states;
#[cfg(test)]
mod tiles;
