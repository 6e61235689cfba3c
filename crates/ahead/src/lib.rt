// Whether a match lies ahead of a row at a place of the text.
#![tactic(auto)]

ghost use Rattle.std.specs.Prelude.{◌≡◌, true, [], ◌<◌};
ghost use Rattle.rules.specs.Table.{begins, WellFormed};
ghost use Rattle.table.specs.Lent.{lent_table};
ghost use Rattle.table.specs.Checks.{Passed};
ghost use Rattle.ahead.specs.Ahead.{Stuck, Flags};

use kinds::{ROWS, Row};
use table::{Checked, Lent, ends_here, no_byte_leaves, step};

// A table that is well formed, a text within the limit, and a row that no match comes after: the number of rows where none is known.
#[derive(Clone, Copy)]
pub struct Search<'t> {
    pub table: Lent<'t>,
    pub text: &'t [u8],
    pub dead: Row,
    pub ghost passed: { Passed (lent_table table) text.now },
    pub ghost stuck: { dead.0 < table.rows → Stuck (lent_table table) dead.0 },
}

// What a walk found, and how many bytes it read.
#[derive(Drop)]
pub struct Walk {
    pub found: bool,
    pub steps: usize,
}

// No byte leaves the row, and it makes no match.
fn is_stuck(table: &Lent<'_>, q: Row) -> bool
    requires { WellFormed (lent_table table.now) × (q.0 < table.now.rows) }
    ensures { result ≡ true → Stuck (lent_table table.now) q.0 }
{
    if ends_here(table.marks[q.0 as usize], true) {
        return false;
    }
    no_byte_leaves(table.cells, q)
}

// The first row that is stuck; the number of rows where none is.
pub fn dead_row(table: &Lent<'_>) -> Row
    requires { WellFormed (lent_table table.now) }
    ensures { result.0 < table.now.rows → Stuck (lent_table table.now) result.0 }
{
    for q in 0..table.rows {
        if is_stuck(table, Row(q)) {
            return Row(q);
        }
    }
    Row(table.rows)
}

// The row where reading begins at a place.
pub fn begin(table: &Lent<'_>, s: usize) -> Row
    ensures { result.0 ≡ begins (lent_table table.now) s }
{
    if s == 0 { table.head } else { Row(0) }
}

// The flags at the text's end.
pub fn flags_at_end(table: &Lent<'_>) -> [bool; ROWS]
    requires { WellFormed (lent_table table.now) }
    ensures { Flags (lent_table table.now) [] result }
{
    let mut flags = [false; ROWS];
    for q in 0..table.rows as usize {
        flags[q] = ends_here(table.marks[q], true);
    }
    flags
}

impl<'t> Search<'t> {
    ghost use Rattle.std.specs.Prelude.{drop};
    ghost use Rattle.ahead.specs.Ahead.{Stretch, Walked};

    pub fn of(checked: &Checked<'t>) -> Search<'t>
        ensures { (result.table ≡ checked.now.table) × (result.text.now ≡ checked.now.text.now) }
    {
        Search {
            table: checked.table,
            text: checked.text,
            dead: dead_row(&checked.table),
        }
    }

    // Walks from a row to a match, to the dead row, or to the place `to`, whose flags say whether a match lies ahead of each row.
    pub fn look(&self, flags: &[bool; ROWS], q: Row, from: usize, to: usize) -> Walk
        requires { Stretch (lent_table self.now.table) self.now.text.now flags.now q.0 from to }
        ensures { Walked (lent_table self.now.table) self.now.text.now q.0 from to result }
    {
        let mut row = q;
        for p in from..to {
            if ends_here(self.table.marks[row.0 as usize], false) {
                return Walk {
                    found: true,
                    steps: p - from,
                };
            }
            if row == self.dead {
                return Walk {
                    found: false,
                    steps: p - from,
                };
            }
            row = step(self.table.cells, row, self.text[p]);
        }
        Walk {
            found: flags[row.0 as usize],
            steps: to - from,
        }
    }

    // The flags at an earlier place.
    pub fn flags_before(&self, flags: &[bool; ROWS], from: usize, to: usize) -> [bool; ROWS]
        requires { Stretch (lent_table self.now.table) self.now.text.now flags.now 0 from to }
        ensures { Flags (lent_table self.now.table) (drop from self.now.text.now) result }
    {
        let mut earlier = [false; ROWS];
        for q in 0..self.table.rows {
            let walk = self.look(flags, Row(q), from, to);
            earlier[q as usize] = walk.found;
        }
        earlier
    }
}
