#![tactic(auto)]
//! Tests of the runs of a script: the plain one, the real one, and both beside each other.

#[cfg(test)]
mod plain_runs;
#[cfg(test)]
mod real_runs;
#[cfg(test)]
mod replays;
