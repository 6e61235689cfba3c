// The rows that lead to each row, as sets of rows end to end: row i leads to row t if ROWS * t + i is in.
ghost use Rattle.std.specs.Prelude.{◌≡◌, ℕ, ◌+◌, ◌*◌, ◌<◌, length};
ghost use Rattle.rules.specs.Sizes.{rows_most};
ghost use Rattle.grid.specs.Rows.{row_words, Rows};
ghost use Rattle.leads.specs.Leads.{Leads, Grown, RowListed};

use grid::goes_to;
use kinds::ROWS;
use sets;

// Puts row i down at each of its targets. Columns beside each other often go to one row.
fn list_row(cells: &[u16], bytes: &[u8], n: usize, preds: &mut [u64], i: usize)
    requires { Rows cells.now n × ((i < n) × (length preds.old ≡ row_words * n)) }
    ensures { Grown preds.old preds.new × RowListed cells.now bytes.now preds.new i }
{
    let mut last = None;
    for b in bytes {
        let t = goes_to(cells, n, i, *b);
        if last == Some(t) {
            continue;
        }
        sets::put(preds, ROWS * t + i);
        last = Some(t);
    }
}

// Puts each of n rows down at each of its targets.
pub fn list(cells: &[u16], bytes: &[u8], n: usize, preds: &mut [u64])
    requires { Rows cells.now n × (length preds.old ≡ row_words * n) }
    ensures { (i : ℕ) → i < n → RowListed cells.now bytes.now preds.new i }
{
    preds.fill(0);
    for i in 0..n {
        list_row(cells, bytes, n, preds, i);
    }
}
