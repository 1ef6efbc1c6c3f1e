ghost use Rattle.std.specs.Prelude.{◌≡◌, ◌+◌, ◌-◌, ◌^◌, ◌<◌, ◌≤◌, length, IfOk, OnOk, OnErr};
ghost use Rattle.free_lists.specs.Links.{alone, linked, unlinked, extended, ends, prev_of, next_of};

use std::alloc::Global;
use units::NoMemory;

/// A ring of nodes is a list's end and the places in that list. Node c - 1 is the end of the list
/// of class c, and node p + 256 is the place p.
#[derive(Clone, Copy)]
pub(crate) struct Node {
    pub(crate) prev: usize,
    pub(crate) next: usize,
    /// The class of the list, or 0 where the place stands in none.
    pub(crate) class: u32,
}

impl Node {
    /// A node in no list.
    fn alone(node: usize) -> Node
        ensures { result ≡ alone node }
    {
        Node {
            prev: node,
            next: node,
            class: 0,
        }
    }
}

/// The ends of `count` lists, each of which is empty.
pub(crate) fn ends(alloc: Global, count: usize) -> Result<Vec<Node>, NoMemory>
    requires { count ≤ 256 }
    ensures { IfOk result (λ nodes. nodes.items ≡ ends count) }
{
    let nodes = (0..count)
        .map(|end| Node {
            prev: end,
            next: end,
            class: end as u32 + 1,
        })
        .collect(alloc)?;
    Ok(nodes)
}

/// Appends `count` nodes, each in no list.
pub(crate) fn extend(nodes: &mut Vec<Node>, count: usize) -> Result<(), NoMemory>
    requires small { length nodes.old.items + count < 2 ^ 33 }
    ensures ok { OnOk result (nodes.new.items ≡ extended nodes.old.items count) }
    ensures err { OnErr result (nodes.new.items ≡ nodes.old.items) }
{
    nodes.reserve(count)?;
    for _ in 0..count {
        let node = Node::alone(nodes.len());
        nodes.push_reserved(node);
    }
    Ok(())
}

/// Puts a node between a ring's end and the node before it.
pub(crate) fn link(nodes: &mut Vec<Node>, node: usize, class: u32)
    requires class { (1 ≤ class) × (class ≤ length nodes.old.items) }
    requires node { node < length nodes.old.items }
    requires last { prev_of nodes.old.items (class - 1) < length nodes.old.items }
    ensures { nodes.new.items ≡ linked nodes.old.items node class }
{
    let end = class as usize - 1;
    let last = nodes[end].prev;
    nodes[last].next = node;
    nodes[end].prev = node;
    nodes[node] = Node {
        prev: last,
        next: end,
        class,
    };
}

/// Takes a node out of its ring.
pub(crate) fn unlink(nodes: &mut Vec<Node>, node: usize)
    requires node { node < length nodes.old.items }
    requires prev { (prev_of nodes.old.items node < length nodes.old.items)
        × (next_of nodes.old.items node < length nodes.old.items) }
    ensures { nodes.new.items ≡ unlinked nodes.old.items node }
{
    let Node { prev, next, .. } = nodes[node];
    nodes[prev].next = next;
    nodes[next].prev = prev;
    nodes[node] = Node::alone(node);
}
