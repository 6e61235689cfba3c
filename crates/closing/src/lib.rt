// Closing a set of nodes under the edges that are crossed.
#![tactic(auto)]

ghost use Rattle.std.specs.Prelude.{◌≡◌, ◌⊎◌, ℕ, ◌^◌, ◌*◌, ◌<◌, T, length};
ghost use Rattle.rules.specs.Tools.{has};
ghost use Rattle.nodesets.specs.NodeSets.{mask_of};
ghost use Rattle.rules.specs.SetRows.{crosses};
ghost use Rattle.closing.specs.Closing.{ways_of, NodesIn, SetsFor, closing_of, targets_at, Added, FullBut, Onward, Advanced};

use entries::{Entry, Kind};
use kinds::Node;
use nodesets::{is_in, put_in, take_out};

pub mod marks;

// The edges that are crossed: the nodes' empty edges, and where so said their head edges and tail edges.
#[derive(Clone, Copy)]
pub struct Crossed<'n> {
    pub nodes: &'n [Entry],
    pub head: bool,
    pub tail: bool,
}

// Puts the node in; if it is new, it is pending too. The word to go on at.
fn add(set: &mut [u64], pending: &mut [u64], v: Node, i: usize) -> usize
    requires { (length pending.old ≡ length set.old) × (v.0 < 64 * length set.old) }
    ensures { (length set.new ≡ length set.old) × ((length pending.new ≡ length set.old) × Added (mask_of set.old) (mask_of pending.old) i v.0 (mask_of set.new) (mask_of pending.new) result) }
{
    if is_in(set, v) {
        return i;
    }
    put_in(set, v);
    put_in(pending, v);
    i.min(v.0 as usize / 64)
}

impl<'n> Crossed<'n> {
    // The targets of the node's edges that are crossed.
    fn leads_to(&self, u: Node) -> Option<(Node, Node)>
        requires { NodesIn self.now.nodes.now × (u.0 < length self.now.nodes.now) }
        ensures { result ≡ targets_at self.now.head self.now.tail self.now.nodes.now u.0 }
    {
        // Read in place: a copy of the entry is one word, out of which its parts are cut again. Most edges that are followed are empty
        // ones, so these are asked for first, and by tests, since a table of jumps takes longer.
        let entry = &self.nodes[u.0 as usize];
        if let Kind::Empty = entry.kind {
            return Some((entry.to1, entry.to2));
        }
        let next = Node(u.0 + 1);
        if let Kind::Head = entry.kind {
            return if self.head { Some((next, next)) } else { None };
        }
        if let Kind::Tail = entry.kind {
            return if self.tail { Some((next, next)) } else { None };
        }
        None
    }

    // Goes from node to first target, as long as that is new. Second targets that are new are pending. The word to go on at.
    fn follow(&self, set: &mut [u64], pending: &mut [u64], from: Node, at: usize) -> usize
        requires { SetsFor self.now.nodes.now set.old pending.old × (from.0 < length self.now.nodes.now) }
        ensures { (length set.new ≡ length set.old) × ((length pending.new ≡ length set.old)
            × Onward (crosses self.now.head self.now.tail) (ways_of self.now.nodes.now) (length self.now.nodes.now)
            (λ v. T (has (mask_of pending.old) v) ⊎ (v ≡ from.0)) (mask_of set.old) (mask_of pending.old) at
            (λ v. T (has (mask_of pending.new) v)) (mask_of set.new) (mask_of pending.new) result) }
    {
        let mut u = from;
        let mut i = at;
        while let Some((a, b)) = self.leads_to(u) {
            if is_in(set, a) {
                return add(set, pending, b, i);
            }
            put_in(set, a);
            i = add(set, pending, b, i);
            u = a;
        }
        i
    }

    // Takes up a node of word i that is pending, if there is one. The word to go on at.
    fn advance(&self, set: &mut [u64], pending: &mut [u64], i: usize) -> usize
        requires { SetsFor self.now.nodes.now set.old pending.old × ((i < length set.old) × (mask_of pending.old < 2 ^ length self.now.nodes.now)) }
        ensures { (length set.new ≡ length set.old) × ((length pending.new ≡ length set.old)
            × Advanced (crosses self.now.head self.now.tail) (ways_of self.now.nodes.now) (length self.now.nodes.now) (length set.old)
            (mask_of set.old) (mask_of pending.old) i (mask_of set.new) (mask_of pending.new) result) }
    {
        if pending[i] == 0 {
            return i + 1;
        }
        let u = take_out(pending, i);
        self.follow(set, pending, u, i)
    }

    // Closes the set under these edges. What is crossed from nodes that are not pending leads into the set already.
    pub fn close(&self, set: &mut [u64], pending: &mut [u64])
        requires sets { SetsFor self.now.nodes.now set.old pending.old × (mask_of pending.old < 2 ^ length self.now.nodes.now) }
        requires pending { ((v : ℕ) → T (has (mask_of pending.old) v) → T (has (mask_of set.old) v))
            × FullBut (λ v. T (has (mask_of pending.old) v)) (crosses self.now.head self.now.tail) (ways_of self.now.nodes.now) (mask_of set.old) }
        ensures { (length set.new ≡ length set.old) × ((length pending.new ≡ length set.old)
            × (mask_of set.new ≡ closing_of self.now.head self.now.tail self.now.nodes.now (mask_of set.old))) }
    {
        // a copy, so that what it holds stays in registers
        let crossed = *self;
        // A while: a step may go on, stay or go back.
        let mut i: usize = 0;
        while i < set.len() {
            i = crossed.advance(set, pending, i);
        }
    }
}
