// From the reader's program to numbered nodes, unless there are too many.
#![tactic(auto)]

ghost use Rattle.std.specs.Prelude.{◌≤◌, length};
ghost use Rattle.nodes.specs.Fragments.{Ready};
ghost use Rattle.nodes.specs.Built.{BuildsTree};

mod fragment;

use entries::{Entry, Kind};
use kinds::{NODES, Node};

// The number of nodes of the tree whose program is the first `len` words; none where there are too many. Each node's entry stands at its
// number, and names the place of its atom in the program. `spine` is lent for the way down the left parts.
pub fn build(
    program: &[u64],
    len: usize,
    spine: &mut [u16],
    nodes: &mut [Entry; NODES],
) -> Option<u16>
    requires { (len ≤ length spine.old) × Ready program.now len 0 }
    ensures { BuildsTree program.now len nodes.new result }
{
    let last = fragment::build_part(program, len, spine, nodes, Node(0))?;
    let entry = Entry {
        kind: Kind::Last,
        to1: last,
        to2: last,
        atom: 0,
    };
    entries::put(nodes, last, entry);
    Some(last.0 + 1)
}
