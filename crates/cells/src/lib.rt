// A row's nodes, and its cells.
#![tactic(auto)]

ghost use Rattle.std.specs.Prelude.{◌≡◌, ◌+◌, ◌*◌, ◌^◌, ◌≤◌, ◌<◌, length, get_or, replicate};
ghost use Rattle.rules.specs.Sizes.{words_a_row};
ghost use Rattle.nodesets.specs.NodeSets.{mask_of, row_words, meets, Within};
ghost use Rattle.closing.specs.Closing.{NodesIn, Wide};
ghost use Rattle.entries.specs.Entries.{kinds_of, firsts_of, seconds_of};
ghost use Rattle.known.specs.Known.{Knows, Took};
ghost use Rattle.runs.specs.Runs.{Starts};
ghost use Rattle.cells.specs.Cells.{taken_at, seeds_of, nodes_of, TakenBefore, put_run, FilledAs};

use closing::Crossed;
use entries::Entry;
use kinds::{Node, Row, WORDS_A_ROW};
use known::{Known, Used};
use mixing::BUCKETS;
use nodesets::{first_used, meet_again, nodes_after, put_in, used_end};

// The runs of bytes: the first byte of each and 256, and for each a row of words with the nodes whose edge is crossed on its bytes.
#[derive(Clone, Copy)]
pub struct Runs<'r> {
    pub count: usize,
    pub starts: &'r [u16],
    pub masks: &'r [u64],
}

// What row q is closed from: the start node, or the nodes after those from which an edge was taken.
fn begin(set: &mut [u64], sets: &[u64], q: usize)
    requires { (0 < length set.old) × ((length set.old ≤ words_a_row)
        × ((2 ≤ q → words_a_row * q + words_a_row ≤ length sets.now) × (2 ≤ q → taken_at (length set.old) sets.now q * 2 < 2 ^ (64 * length set.old)))) }
    ensures { (length set.new ≡ length set.old) × (mask_of set.new ≡ seeds_of (taken_at (length set.old) sets.now) q) }
{
    if q < 2 {
        set.fill(0);
        put_in(set, Node(0));
        return;
    }
    let at = WORDS_A_ROW * q;
    nodes_after(set, &sets[at..at + set.len()]);
}

// The nodes of row q.
pub fn take_up(set: &mut [u64], pending: &mut [u64], sets: &[u64], q: usize, nodes: &[Entry])
    requires { NodesIn nodes.now × (Wide (length nodes.now) set.old × ((length pending.old ≡ length set.old) × ((0 < length nodes.now)
        × ((2 ≤ q → words_a_row * q + words_a_row ≤ length sets.now) × (2 ≤ q → taken_at (length set.old) sets.now q * 2 < 2 ^ length nodes.now))))) }
    ensures { (length set.new ≡ length set.old) × ((length pending.new ≡ length set.old)
        × (mask_of set.new ≡ nodes_of (kinds_of nodes.now) (firsts_of nodes.now) (seconds_of nodes.now) (taken_at (length set.old) sets.now) q)) }
{
    begin(set, sets, q);
    pending.copy_from_slice(set);
    let crossed = Crossed {
        nodes,
        head: q == 1,
        tail: false,
    };
    crossed.close(set, pending);
}

// The row to which the nodes of the set go on the bytes of run k. `taken` has what was taken before, and row `before` has that; as in
// the buckets it is 0 where that row is not known.
fn take_run(
    taken: &mut [u64],
    set: &[u64],
    used: Used,
    runs: &Runs,
    k: usize,
    before: u16,
    sets: &mut [u64],
    known: &mut Known,
) -> Option<Row>
    requires room { (length set.now ≤ words_a_row) × ((words_a_row * k + words_a_row ≤ length runs.now.masks.now) × Knows (length set.now) sets.old known.old) }
    requires within { Within used.from used.to set.now × TakenBefore used.from used.to (length set.now) sets.old known.old.rows taken.old before }
    ensures { (taken.new ≡ meets set.now (row_words (length set.now) runs.now.masks.now k))
        × Took (length set.now) sets.old known.old taken.new sets.new known.new result }
{
    let at = WORDS_A_ROW * k;
    let mask = &runs.masks[at..at + set.len()];
    if meet_again(taken, set, mask, used.from, used.to) && before != 0 {
        return Some(Row(before));
    }
    known.take_in(sets, taken, used)
}

// The cells of run k become row r.
fn spread_run(row: &mut [u16], runs: &Runs, k: usize, r: Row)
    requires { (length row.old ≡ 256) × (Starts runs.now.starts.now runs.now.count × (k < runs.now.count)) }
    ensures { row.new ≡ put_run row.old (get_or runs.now.starts.now k 0) (get_or runs.now.starts.now (k + 1) 0) r.0 }
{
    let from = runs.starts[k] as usize;
    let to = runs.starts[k + 1] as usize;
    row[from..to].fill(r.0);
}

// Where the nodes of the set go on each run of bytes. `taken` is empty.
fn fill_runs(
    row: &mut [u16],
    taken: &mut [u64],
    set: &[u64],
    used: Used,
    runs: &Runs,
    sets: &mut [u64],
    known: &mut Known,
) -> Option<()>
    requires room { (length row.old ≡ 256) × ((length set.now ≤ words_a_row) × (Starts runs.now.starts.now runs.now.count
        × ((words_a_row * runs.now.count ≤ length runs.now.masks.now) × Knows (length set.now) sets.old known.old))) }
    requires within { Within used.from used.to set.now × (taken.old ≡ replicate (length set.now) 0) }
    ensures { FilledAs set.now runs.now.starts.now runs.now.masks.now runs.now.count sets.old known.old sets.new known.new row.new result }
{
    let mut before = known.heads[BUCKETS];
    for k in 0..runs.count {
        let r = take_run(taken, set, used, runs, k, before, sets, known)?;
        spread_run(row, runs, k, r);
        before = r.0;
    }
    Some(())
}

// A row's own 256 cells: where its nodes go on each run of bytes. None where there is no room for a row more.
pub fn fill(
    row: &mut [u16],
    set: &[u64],
    runs: &Runs,
    sets: &mut [u64],
    known: &mut Known,
) -> Option<()>
    requires { (length row.old ≡ 256) × ((length set.now ≤ words_a_row) × (Starts runs.now.starts.now runs.now.count
        × ((words_a_row * runs.now.count ≤ length runs.now.masks.now) × Knows (length set.now) sets.old known.old))) }
    ensures { FilledAs set.now runs.now.starts.now runs.now.masks.now runs.now.count sets.old known.old sets.new known.new row.new result }
{
    let from = first_used(set);
    let to = used_end(set, from);
    let mut taken = [0u64; WORDS_A_ROW];
    fill_runs(
        row,
        &mut taken[..set.len()],
        set,
        Used { from, to },
        runs,
        sets,
        known,
    )
}
