// First, in one pass over the text with a list of rows, each with the least start that has led to it.
#![tactic(auto)]

ghost use Rattle.std.specs.Prelude.{◌≡◌, ◌+◌, ◌≤◌, ◌<◌, length};
ghost use Rattle.table.specs.Lent.{lent_table};
ghost use Rattle.passing.specs.Run.{found_of, first_from, cut, outcome, Kept, Joined, Opened, Carried, Advanced};

use ahead::{Search, begin};
use kinds::{ROWS, Row};
use table::{ends_here, step};

// A row, and the least start that has led to it.
#[derive(Clone, Copy)]
struct Entry {
    row: Row,
    from: u32,
}

// The rows that starts have led to are the first `len` entries, in the order of the starts. A row has the last stamp if it is one of
// them. `best` is the match found so far.
#[derive(Drop)]
struct RowList {
    entries: [Entry; ROWS],
    len: usize,
    stamps: [u32; ROWS],
    best: Option<(u32, u32)>,
}

impl RowList {
    // A row with its start joins the first `len` entries, unless an earlier start has led to the row: then it has the stamp. The new
    // length is handed back, and not put into the list, so that it stays in a register.
    fn join(&mut self, search: &Search<'_>, len: usize, row: Row, from: u32, stamp: u32) -> usize
        requires kept { Kept search.now.table.rows (cut self.old len) stamp }
        requires row { row.0 < search.now.table.rows }
        ensures { Joined search.now.table.rows (cut self.old len) (cut self.new result) row.0 from stamp }
    {
        let i = row.0 as usize;
        if self.stamps[i] == stamp {
            return len;
        }
        self.stamps[i] = stamp;
        self.entries[len] = Entry { row, from };
        len + 1
    }

    // The start p joins the list, unless a match is known.
    fn open_at(&mut self, search: &Search<'_>, p: usize)
        requires { Kept search.now.table.rows self.old (p + 1) × (p ≤ length search.now.text.now) }
        ensures { Opened (lent_table search.now.table) search.now.text.now self.old self.new p }
    {
        if self.best.is_none() {
            let row = begin(&search.table, p);
            self.len = self.join(search, self.len, row, p as u32, p as u32 + 1);
        }
    }

    // The row that an entry's row goes to on the byte at p joins the first `len` entries, unless no match comes after it.
    fn carry(&mut self, search: &Search<'_>, len: usize, entry: Entry, p: usize) -> usize
        requires kept { Kept search.now.table.rows (cut self.old len) (p + 2) }
        requires entry { (entry.row.0 < search.now.table.rows) × (p < length search.now.text.now) }
        ensures { Carried (lent_table search.now.table) search.now.text.now (cut self.old len) (cut self.new result) entry p }
    {
        let next = step(search.table.cells, entry.row, search.text[p]);
        if next == search.dead {
            return len;
        }
        self.join(search, len, next, entry.from, p as u32 + 2)
    }

    // Every row of the list goes on by a byte. A match that ends here is kept, and the starts after its own are let go.
    fn advance(&mut self, search: &Search<'_>, p: usize)
        requires { Kept search.now.table.rows self.old (p + 1) × (p < length search.now.text.now) }
        ensures { Advanced (lent_table search.now.table) search.now.text.now self.old self.new p }
    {
        let mut kept = 0;
        for i in 0..self.len {
            // Part by part: a copy of the whole would wait for the two stores that put its parts there.
            let Entry { row, from } = &self.entries[i];
            let entry = Entry {
                row: *row,
                from: *from,
            };
            kept = self.carry(search, kept, entry, p);
            if ends_here(search.table.marks[entry.row.0 as usize], false) {
                self.len = kept;
                self.best = Some((entry.from, p as u32));
                return;
            }
        }
        self.len = kept;
    }

    // The first row of the list that makes a match at the text's end.
    fn close_at_end(&self, search: &Search<'_>) -> Option<(u32, u32)>
        requires { Kept search.now.table.rows self.now (length search.now.text.now + 1) }
        ensures { found_of result ≡ outcome (lent_table search.now.table) search.now.text.now self.now (length search.now.text.now + 1) (length search.now.text.now) }
    {
        for entry in &self.entries[..self.len] {
            if ends_here(search.table.marks[entry.row.0 as usize], true) {
                return Some((entry.from, search.text.len() as u32));
            }
        }
        self.best
    }
}

// First, of the starts from `from` on: to the text's end, or until a match is known and no earlier start is left. Not inlined, so that
// the list is on the stack only where it is used.
#[inline(never)]
pub fn read_on(search: &Search<'_>, from: usize) -> Option<(u32, u32)>
    requires { from ≤ length search.now.text.now }
    ensures { found_of result ≡ first_from (lent_table search.now.table) search.now.text.now from }
{
    let mut list = RowList {
        entries: [Entry {
            row: Row(0),
            from: 0,
        }; ROWS],
        len: 0,
        stamps: [0; ROWS],
        best: None,
    };
    let n = search.text.len();
    for p in from..n {
        list.open_at(search, p);
        if list.len == 0 {
            return list.best;
        }
        list.advance(search, p);
    }
    list.open_at(search, n);
    list.close_at_end(search)
}
