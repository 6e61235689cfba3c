// Single nodes: the one after a node, and what is written at it.
#![tactic(auto)]

ghost use Rattle.std.specs.Prelude.{◌<◌};
ghost use Rattle.rules.specs.Sizes.{nodes_most};
ghost use Rattle.entries.specs.Entries.{Puts, NextOf, Links};

use kinds::{NODES, NODES_MOST, Node};

// What edges a node has.
#[derive(Clone, Copy, PartialEq, Eq)]
pub enum Kind {
    // The final node: none.
    Last,
    // Two empty edges, or one where both go to the same node.
    Empty,
    // To the next node, each of these: a head edge, a tail edge, an edge on the bytes of an atom.
    Head,
    Tail,
    Bytes,
}

// What stands at a node: its kind, where its empty edges go, and the place of its atom in the program.
#[derive(Clone, Copy)]
pub struct Entry {
    pub kind: Kind,
    pub to1: Node,
    pub to2: Node,
    pub atom: u16,
}

// What stands at each node before any is written.
pub const BLANK: Entry = Entry {
    kind: Kind::Last,
    to1: Node(0),
    to2: Node(0),
    atom: 0,
};

// The node after n, unless n is the last that there is room for.
pub fn next(n: Node) -> Option<Node>
    ensures { NextOf n.0 result }
{
    if NODES_MOST - 1 <= n.0 {
        return None;
    }
    Some(Node(n.0 + 1))
}

pub fn put(nodes: &mut [Entry; NODES], at: Node, entry: Entry)
    requires { at.0 < nodes_most }
    ensures { Puts nodes.old nodes.new at.0 entry }
{
    nodes[at.0 as usize] = entry;
}

// A node of this kind whose only edge goes to the next node, which is answered.
pub fn link(nodes: &mut [Entry; NODES], at: Node, kind: Kind, place: u16) -> Option<Node>
    requires { at.0 < nodes_most }
    ensures { Links nodes.old nodes.new at.0 kind place result }
{
    let n = next(at)?;
    let entry = Entry {
        kind,
        to1: n,
        to2: n,
        atom: place,
    };
    put(nodes, at, entry);
    Some(n)
}
