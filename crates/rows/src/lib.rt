// From nodes to set rows: their cells and marks, in the order in which they are reached; refusal 11 where there are too many.
#![tactic(auto)]

ghost use Rattle.std.specs.Prelude.{◌≡◌, ◌+◌, ◌*◌, ◌/◌, ◌≤◌, ◌<◌, length};
ghost use Rattle.rules.specs.Sizes.{words_a_row};
ghost use Rattle.rules.specs.Compile.{rows_for};
ghost use Rattle.entries.specs.Entries.{kinds_of, atoms_of};
ghost use Rattle.closing.specs.Closing.{Tails};
ghost use Rattle.runs.specs.Runs.{PartedInto};
ghost use Rattle.rows.specs.Rows.{SomeEntries, ListsOf};
ghost use Rattle.rows.specs.Rows as lent;
ghost use Rattle.rows.specs.Listing.{GivenBy, RoomFor, ListedBy, RowListed, AllListed};

use cells::{Runs, fill, take_up};
use closing::marks::{mark_of, put_tails};
use entries::Entry;
use kinds::{Node, ROWS, WORDS_A_ROW};
use known::{HEADS, Known};
use runs::{make_runs, put_nodes};

// So many runs are few.
const FEW: usize = 16;
// Words for the masks of few runs, and of as many as there may be.
const FEW_WORDS: usize = WORDS_A_ROW * FEW;

const MOST_WORDS: usize = WORDS_A_ROW * 256;

// Row q: its cells and its mark. The rows it leads to are listed. None where there is no room for them. Cells, marks and set words are
// lent singly, and so are the sets of a row, since what is left in each is said.
fn list_row(
    set: &mut [u64],
    pending: &mut [u64],
    tails: &[u64],
    nodes: &[Entry],
    runs: &Runs,
    cells: &mut [u16],
    marks: &mut [u8],
    sets: &mut [u64],
    known: &mut Known,
    q: usize,
) -> Option<()>
    requires given { GivenBy nodes.now runs.now (length set.old) × ((length pending.old ≡ length set.old) × ((length tails.now ≡ length set.old) × Tails (kinds_of nodes.now) tails.now)) }
    requires listed { ListedBy nodes.now runs.now (length set.old) cells.old marks.old sets.old known.old q × ((q < known.old.rows) × RoomFor known.old.room cells.old marks.old) }
    ensures { RowListed nodes.now runs.now (length set.old) cells.new marks.new sets.new known.old known.new q result }
{
    take_up(set, pending, sets, q, nodes);
    fill(&mut cells[256 * q..256 * q + 256], set, runs, sets, known)?;
    let last = Node((nodes.len() - 1) as u16);
    marks[q] = mark_of(set, pending, tails, nodes, last, q == 1);
    Some(())
}

// Row by row, until each row that is listed is filled.
fn list_all(
    nodes: &[Entry],
    runs: &Runs,
    cells: &mut [u16],
    marks: &mut [u8],
    sets: &mut [u64],
    room: usize,
) -> Option<u16>
    requires { GivenBy nodes.now runs.now ((length nodes.now + 63) / 64) × ((2 ≤ room) × (room ≡ rows_for (lent.room cells.old marks.old sets.old))) }
    ensures { AllListed nodes.now runs.now ((length nodes.now + 63) / 64) (lent.room cells.old marks.old sets.old) (lent.room cells.new marks.new sets.new) result }
{
    let w = (nodes.len() + 63) / 64;
    let mut set = [0u64; WORDS_A_ROW];
    let mut pending = [0u64; WORDS_A_ROW];
    let mut tails = [0u64; WORDS_A_ROW];
    let mut known = Known {
        rows: 2,
        room,
        heads: [0u16; HEADS],
        nexts: [0u16; ROWS],
    };
    put_tails(&mut tails[..w], nodes);
    // A while: rows are listed meanwhile.
    let mut q: usize = 0;
    while q < known.rows {
        list_row(
            &mut set[..w],
            &mut pending[..w],
            &tails[..w],
            nodes,
            runs,
            cells,
            marks,
            sets,
            &mut known,
            q,
        )?;
        q += 1;
    }
    Some(known.rows as u16)
}

// Lists the rows, where the runs' masks take no more than so many words.
fn list_in<const WORDS: usize>(
    program: &[u64],
    nodes: &[Entry],
    starts: &[u16],
    runs: usize,
    cells: &mut [u16],
    marks: &mut [u8],
    sets: &mut [u64],
    room: usize,
) -> Option<u16>
    requires parted { SomeEntries program.now nodes.now
        × (PartedInto program.now (kinds_of nodes.now) (atoms_of nodes.now) starts.now runs × ((words_a_row * runs ≤ WORDS) × (WORDS ≤ words_a_row * 256))) }
    requires room { (2 ≤ room) × (room ≡ rows_for (lent.room cells.old marks.old sets.old)) }
    ensures { ListsOf program.now nodes.now (lent.room cells.old marks.old sets.old) (lent.room cells.new marks.new sets.new) result }
{
    let mut masks = [0u64; WORDS];
    put_nodes(&mut masks, program, nodes, starts, runs);
    let runs = Runs {
        count: runs,
        starts,
        masks: &masks,
    };
    list_all(nodes, &runs, cells, marks, sets, room)
}

// The set rows of the tree whose nodes are given: cells and marks at the front of what is lent, and the set words for scratch.
// The number of rows, or None: refusal 11.
pub fn list_rows(
    program: &[u64],
    nodes: &[Entry],
    cells: &mut [u16],
    marks: &mut [u8],
    sets: &mut [u64],
) -> Option<u16>
    requires { SomeEntries program.now nodes.now }
    ensures { ListsOf program.now nodes.now (lent.room cells.old marks.old sets.old) (lent.room cells.new marks.new sets.new) result }
{
    let room = ROWS
        .min(cells.len() / 256)
        .min(marks.len())
        .min(sets.len() / WORDS_A_ROW);
    if room < 2 {
        return None;
    }
    let mut starts = [0u16; 257];
    let runs = make_runs(&mut starts, program, nodes);
    if runs <= FEW {
        return list_in::<FEW_WORDS>(program, nodes, &starts, runs, cells, marks, sets, room);
    }
    list_in::<MOST_WORDS>(program, nodes, &starts, runs, cells, marks, sets, room)
}
