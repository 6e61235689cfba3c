// Marks of rows.
ghost use Rattle.std.specs.Prelude.{◌≡◌, false, ◌^◌, ◌<◌, length};
ghost use Rattle.nodesets.specs.NodeSets.{mask_of};
ghost use Rattle.rules.specs.SetRows.{crosses};
ghost use Rattle.closing.specs.Closing.{ways_of, Wide, SetsFor, Full, mark_by, Tails};
ghost use Rattle.entries.specs.Entries.{kinds_of, firsts_of, seconds_of};

use crate::Crossed;
use entries::{Entry, Kind};
use kinds::Node;
use nodesets::{is_in, meet, put_in};

// Puts the nodes in that a tail edge leaves.
pub fn put_tails(set: &mut [u64], nodes: &[Entry])
    requires { Wide (length nodes.now) set.old }
    ensures { (length set.new ≡ length set.old) × Tails (kinds_of nodes.now) set.new }
{
    for (u, entry) in nodes.iter().enumerate() {
        if entry.kind == Kind::Tail {
            put_in(set, Node(u as u16));
        }
    }
}

// The mark of the row with these nodes, as a number, since marks are lent as numbers. They are closed further.
pub fn mark_of(
    set: &mut [u64],
    pending: &mut [u64],
    tails: &[u64],
    nodes: &[Entry],
    last: Node,
    head: bool,
) -> u8
    requires sets { SetsFor nodes.now set.old pending.old × ((length tails.now ≡ length set.old) × (last.0 < length nodes.now)) }
    requires tails { Tails (kinds_of nodes.now) tails.now × Full (crosses head false) (ways_of nodes.now) (mask_of set.old) }
    ensures { result ≡ mark_by head (kinds_of nodes.now) (firsts_of nodes.now) (seconds_of nodes.now) (mask_of set.old) last.0 }
{
    if is_in(set, last) {
        return 3;
    }
    meet(pending, set, tails);
    let crossed = Crossed {
        nodes,
        head,
        tail: true,
    };
    crossed.close(set, pending);
    if is_in(set, last) {
        return 2;
    }
    0
}
