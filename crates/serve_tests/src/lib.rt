#![tactic(auto)]
//! Tests of served runs and of the top call.

#[cfg(test)]
mod served_runs;
#[cfg(test)]
mod top_calls;
