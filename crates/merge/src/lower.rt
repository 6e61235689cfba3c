// Moving down: each kept row goes to its number's place, in order, so that no cell is lost.
ghost use Rattle.std.specs.Prelude.{◌≡◌, ℕ, ◌+◌, ◌*◌, ◌≤◌, ◌<◌, length, get_or};
ghost use Rattle.rules.specs.Sizes.{rows_most};
ghost use Rattle.grid.specs.Rows.{Rows};
ghost use Rattle.merge.specs.Numbers.{Moved, Lowered};

// Row q to row i, each cell put through the numbers.
fn move_row(cells: &mut [u16], number: &[u16], i: usize, q: usize)
    requires row { (256 * q + 256 ≤ length cells.old) × (i ≤ q) × (q < rows_most) }
    requires cells_low { (b : ℕ) → b < 256 → get_or cells.old (256 * q + b) 0 < length number.now }
    ensures { Moved cells.old number.now cells.new i q 256 }
{
    for b in 0..256 {
        let c = cells[256 * q + b] as usize;
        cells[256 * i + b] = number[c];
    }
}

// The kept rows and their marks.
pub fn move_down(cells: &mut [u16], marks: &mut [u8], class: &[u16], number: &[u16])
    requires { Rows cells.old (length class.now) × (length marks.old ≡ length class.now) × (length number.now ≡ length class.now) }
    ensures { Lowered class.now number.now cells.old marks.old cells.new marks.new }
{
    let mut k: usize = 0;
    for q in 0..class.len() {
        if class[q] as usize == q {
            move_row(cells, number, k, q);
            marks[k] = marks[q];
            k += 1;
        }
    }
}
