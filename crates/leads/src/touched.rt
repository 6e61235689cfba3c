// The rows that lead to a class that waits. Classes are stretches of a list of the rows.
ghost use Rattle.std.specs.Prelude.{◌≡◌, ◌≤◌, length};
ghost use Rattle.grid.specs.Rows.{row_words};
ghost use Rattle.leads.specs.Leads.{Grown, Reach, Touched, Spans, TouchedAll};

use grid::ROW_WORDS;
use sets;

// Puts in what leads to a row at the places from `from` to `to`.
fn touch(order: &[u16], preds: &[u64], from: usize, to: usize, set: &mut [u64])
    requires { Reach order.now preds.now × ((to ≤ length order.now) × (length set.old ≡ row_words)) }
    ensures { Grown set.old set.new × Touched order.now preds.now set.new from to }
{
    for p in from..to {
        let t = order[p] as usize;
        sets::put_all(set, preds, ROW_WORDS * t);
    }
}

// What leads to a row of the stretches from `from` to `many`. The lists of the stretches are only read, so they are lent singly.
pub fn list(
    order: &[u16],
    start: &[u16],
    end: &[u16],
    preds: &[u64],
    from: usize,
    many: usize,
    set: &mut [u64],
)
    requires { Reach order.now preds.now × (Spans order.now start.now end.now many × (length set.old ≡ row_words)) }
    ensures { TouchedAll order.now start.now end.now preds.now set.new from many }
{
    set.fill(0);
    for z in from..many {
        touch(order, preds, start[z] as usize, end[z] as usize, set);
    }
}
