// First, by trying each start: quick where walks are short.
ghost use Rattle.std.specs.Prelude.{◌≡◌, ◌≤◌, length};
ghost use Rattle.std.proofs.Math.Option.{none};
ghost use Rattle.rules.specs.Table.{begins};
ghost use Rattle.table.specs.Lent.{lent_table};
ghost use Rattle.passing.specs.Run.{found_of, or_match};
ghost use Rattle.first.specs.Tries.{Tries};

use ahead::{Search, begin, flags_at_end};
use table::{ends_here, step};

// What came of it. No Result: a place below which there is no start is no error.
#[derive(Drop)]
pub enum Tried {
    // The first start.
    Start(usize),
    // No start lies below the place.
    NoneBelow(usize),
}

// Tries the starts in order until one has a match, or until the walks have read the text four times over. Not inlined, so that the flags
// and the list of rows of `read_on` are never on the stack together.
#[inline(never)]
pub fn try_each(search: &Search<'_>) -> Tried
    ensures { Tries (lent_table search.now.table) search.now.text.now result }
{
    let n = search.text.len();
    let flags = flags_at_end(&search.table);
    let mut spent = 0;
    for s in 0..n + 1 {
        let walk = search.look(&flags, begin(&search.table, s), s, n);
        if walk.found {
            return Tried::Start(s);
        }
        spent += walk.steps;
        if 4 * n < spent {
            return Tried::NoneBelow(s + 1);
        }
    }
    Tried::NoneBelow(n + 1)
}

// The match from the start s with the last end, of a text read on to the dead row.
pub fn last_match(search: &Search<'_>, s: usize) -> Option<(u32, u32)>
    requires { s ≤ length search.now.text.now }
    ensures { found_of result ≡ or_match (lent_table search.now.table) search.now.text.now s (begins (lent_table search.now.table) s) s none }
{
    let n = search.text.len();
    let from = s as u32;
    let mut row = begin(&search.table, s);
    let mut best = None;
    for p in s..n {
        if row == search.dead {
            return best;
        }
        if ends_here(search.table.marks[row.0 as usize], false) {
            best = Some((from, p as u32));
        }
        row = step(search.table.cells, row, search.text[p]);
    }
    if ends_here(search.table.marks[row.0 as usize], true) {
        return Some((from, n as u32));
    }
    best
}
