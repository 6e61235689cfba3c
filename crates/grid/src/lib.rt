// Rows as they stand in the cells.
#![tactic(auto)]

ghost use Rattle.std.specs.Prelude.{◌≡◌, ◌+◌, ◌*◌, ◌<◌, get_or};
ghost use Rattle.grid.specs.Rows.{Rows};

use kinds::ROWS;

// Words for a set of rows.
pub const ROW_WORDS: usize = ROWS / 64;

// The row that row q, of n, goes to on the byte b.
#[tactic(auto, using(crate::proofs::GridLaws::cell_in))]
pub fn goes_to(cells: &[u16], n: usize, q: usize, b: u8) -> usize
    requires { Rows cells.now n × (q < n) }
    ensures { (result < n) × (result ≡ get_or cells.now (256 * q + b) 0) }
{
    cells[256 * q + (b as usize)] as usize
}
