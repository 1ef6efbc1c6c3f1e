#![tactic(auto)]
//! Places in lists by class: one list for each length of run up to 255 pages, and one for all longer
//! runs. A list gives its latest place and what stands before a place, and any place leaves its
//! list, each with no search.
//!
//! Promises: 256 lists of places with the latest place at the tail. A list tells its tail and what
//! stands directly before a place, and any place leaves its list.
//!
//! All lists are rings over one vector of nodes. Node c - 1 ends the list of class c, and node p + 256
//! is place p, so linking and unlinking have no branch and touch at most three nodes. A node in no list
//! is a ring of its own. No ghost list is kept: what is seen walks along the links, and the invariant
//! (`IsSoundLists`) speaks of each link (`prev (next x) ≡ x` and back, the class goes along).

mod lists;
mod node;

pub use lists::{LAST_CLASS, Lists};

#[cfg(test)]
mod tests;
