ghost use Rattle.std.specs.Prelude.{◌≡◌, ◌+◌, ◌^◌, ◌<◌, ◌≤◌, IfOk, OnOk, OnErr, None};
ghost use Rattle.std.specs.List.{last_or};
ghost use Rattle.free_lists.specs.Lists.{list_of, IsListed, AreNew, Extends, Appends, Removes, IsBefore};
ghost use Rattle.free_lists.specs.Links.{place_of};

use crate::node::{Node, ends, extend, link, unlink};
use std::alloc::Global;
use std::marker::Model;
use units::NoMemory;

/// The class of all runs of this length and more. Each shorter length is a class of its own.
pub const LAST_CLASS: u32 = 256;

/// How many lists there are, and nodes that end one.
const ENDS: usize = LAST_CLASS as usize;

/// Places in lists by class. Places are numbered from 0, and classes are from 1 to 256.
///
/// All lists are rings over one vector, which each pass through an end of their own, so that no
/// call but `new` and `extend` goes along more than two neighbours.
#[derive(Drop)]
pub struct Lists {
    nodes: Vec<Node>,
}

impl Model for Lists {
    ghost use Rattle.free_lists.specs.Lists.{Classes};
    ghost use Rattle.free_lists.specs.Links.{classes, IsSoundLists};

    ghost Value = { Classes };

    ghost view = { λ l. classes l.nodes.items };

    ghost invariant = { λ l. IsSoundLists l.nodes.items };
}

impl Lists {
    /// Empty lists, and no place. The one error is being out of memory.
    pub fn new(alloc: Global) -> Result<Lists, NoMemory>
        ensures { IfOk result AreNew }
    {
        let nodes = ends(alloc, ENDS)?;
        Ok(Lists { nodes })
    }

    /// Adds `places` places, numbered on from the places so far. They stand in no list. `NoMemory`
    /// leaves the lists as before.
    ///
    /// Condition: fewer than 2^32 places in all.
    pub fn extend(&mut self, _alloc: Global, places: u32) -> Result<(), NoMemory>
        requires small { self.old.places + places < 2 ^ 32 }
        ensures more { OnOk result (Extends self.old self.new places) }
        ensures same { OnErr result (self.new ≡ self.old) }
    {
        extend(&mut self.nodes, places as usize)?;
        Ok(())
    }

    /// Appends a place to the list of its class, which is `pages` where that is below 256, and else
    /// 256.
    ///
    /// Conditions: the place exists and stands in no list, and `pages` is at least 1.
    pub fn append(&mut self, place: u32, pages: u32)
        requires place { place < self.old.places }
        requires free { IsListed self.old place → ⊥ }
        requires sized { 1 ≤ pages }
        ensures { Appends self.old self.new place pages }
    {
        link(
            &mut self.nodes,
            place as usize + ENDS,
            pages.min(LAST_CLASS),
        );
    }

    /// Takes a place out of its list.
    ///
    /// Condition: the place stands in a list.
    pub fn remove(&mut self, place: u32)
        requires { IsListed self.old place }
        ensures { Removes self.old self.new place }
    {
        unlink(&mut self.nodes, place as usize + ENDS);
    }

    /// The latest place in the list of this class. `None` comes exactly where the list is empty.
    ///
    /// Condition: the class is from 1 to 256.
    pub fn tail(&self, class: u32) -> Option<u32>
        requires { (1 ≤ class) × (class ≤ 256) }
        ensures { result ≡ last_or None (list_of self.now class) }
    {
        place_of(self.nodes[class as usize - 1].prev)
    }

    /// The place directly before this one in its list. `None` comes exactly at the list's first
    /// place.
    ///
    /// Condition: the place stands in a list.
    pub fn before(&self, place: u32) -> Option<u32>
        requires { IsListed self.now place }
        ensures { IsBefore self.now place result }
    {
        place_of(self.nodes[place as usize + ENDS].prev)
    }
}

/// The place of a node, or `None` at an end.
fn place_of(node: usize) -> Option<u32>
    requires { node < 2 ^ 32 + 256 }
    ensures { result ≡ place_of node }
{
    if node < ENDS {
        return None;
    }
    Some((node - ENDS) as u32)
}
