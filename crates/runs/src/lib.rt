// Runs of bytes that no atom parts, and for each run the nodes whose edge is crossed on its bytes.
#![tactic(auto)]

ghost use Rattle.std.specs.Prelude.{◌≡◌, ◌*◌, ◌≤◌, ◌<◌, length, get_or, replicate};
ghost use Rattle.rules.specs.Sizes.{nodes_most, words_a_row};
ghost use Rattle.bytesets.specs.ByteSets.{bytes_of};
ghost use Rattle.entries.specs.Entries.{kinds_of, atoms_of};
ghost use Rattle.runs.specs.Runs.{AtomsIn, Starts, PartedInto, Runs, Changes, PartedBy, PartedTo, Whole, NodePut};

use bytesets::ByteSet;
use entries::{Entry, Kind};
use kinds::{Node, WORDS_A_ROW};
use nodesets::put_in;
use program::atom_set;
use sets::TOP_BIT;

// The bits of a word that differ from the bit below; `below` is the bit below the lowest.
fn changes(word: u64, below: u64) -> u64
    requires { below < 2 }
    ensures { Changes word below result }
{
    word ^ (word % TOP_BIT * 2 + below)
}

// Marks each byte that the set parts from the byte before it.
fn part_by(parted: &mut [u64], set: ByteSet)
    requires { length parted.old ≡ 4 }
    ensures { PartedBy parted.old parted.new (bytes_of set) }
{
    parted[0] |= changes(set.0, 0);
    parted[1] |= changes(set.1, set.0 / TOP_BIT);
    parted[2] |= changes(set.2, set.1 / TOP_BIT);
    parted[3] |= changes(set.3, set.2 / TOP_BIT);
}

// Marks each byte that some node's atom parts from the byte before it.
fn part_bytes(parted: &mut [u64], program: &[u64], nodes: &[Entry])
    requires { (length parted.old ≡ 4) × AtomsIn program.now nodes.now }
    ensures { (length parted.new ≡ 4) × PartedTo (length nodes.now) program.now (kinds_of nodes.now) (atoms_of nodes.now) parted.new }
{
    for entry in nodes {
        if entry.kind == Kind::Bytes {
            part_by(parted, atom_set(program, entry.atom as usize));
        }
    }
}

// Lists the first byte of each run, and 256 after the last; the number of runs.
fn list_runs(starts: &mut [u16], parted: &[u64]) -> usize
    requires { (length starts.old ≡ 257) × ((get_or starts.old 0 0 ≡ 0) × (length parted.now ≡ 4)) }
    ensures { Starts starts.new result × Whole parted.now starts.new result }
{
    let mut k: usize = 1;
    for b in 1..256 {
        if sets::test(parted, b) {
            starts[k] = b as u16;
            k += 1;
        }
    }
    starts[k] = 256;
    k
}

// Puts node u into the mask of each run whose bytes its atom has.
fn put_node(masks: &mut [u64], set: ByteSet, u: Node, starts: &[u16], runs: usize)
    requires { (words_a_row * runs ≤ length masks.old) × ((u.0 < nodes_most) × Starts starts.now runs) }
    ensures { NodePut masks.old masks.new (bytes_of set) u.0 starts.now runs }
{
    for k in 0..runs {
        if set.has(starts[k] as u8) {
            let at = WORDS_A_ROW * k;
            put_in(&mut masks[at..at + WORDS_A_ROW], u);
        }
    }
}

// The masks of the runs; they are all 0 before.
pub fn put_nodes(masks: &mut [u64], program: &[u64], nodes: &[Entry], starts: &[u16], runs: usize)
    requires { (masks.old ≡ replicate (length masks.old) 0)
        × ((words_a_row * runs ≤ length masks.old) × (AtomsIn program.now nodes.now × PartedInto program.now (kinds_of nodes.now) (atoms_of nodes.now) starts.now runs)) }
    ensures { Runs program.now (kinds_of nodes.now) (atoms_of nodes.now) starts.now masks.new runs }
{
    for (u, entry) in nodes.iter().enumerate() {
        if entry.kind == Kind::Bytes {
            let set = atom_set(program, entry.atom as usize);
            put_node(masks, set, Node(u as u16), starts, runs);
        }
    }
}

// The number of runs; `starts` is all 0 before.
pub fn make_runs(starts: &mut [u16], program: &[u64], nodes: &[Entry]) -> usize
    requires { (starts.old ≡ replicate 257 0) × AtomsIn program.now nodes.now }
    ensures { PartedInto program.now (kinds_of nodes.now) (atoms_of nodes.now) starts.new result }
{
    let mut parted = [0u64; 4];
    part_bytes(&mut parted, program, nodes);
    list_runs(starts, &parted)
}
