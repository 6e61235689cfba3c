// Columns: neighbouring bytes on which every row goes alike make one, and the first of them stands for all.
#![tactic(auto)]

ghost use Rattle.std.specs.Prelude.{◌≡◌, ◌+◌, ◌*◌, ◌≤◌, ◌<◌, length, take};
ghost use Rattle.rules.specs.Sizes.{rows_most};
ghost use Rattle.columns.specs.Columns.{Columns, Begins, RowNoted, Gathered};

// d, or 1 where the two cells differ.
fn differ(d: u16, x: u16, y: u16) -> u16
    ensures { result ≡ 0 → (d ≡ 0) × (x ≡ y) }
{
    if x == y { d } else { 1 }
}

// Notes each byte on which row q goes otherwise than on the byte before. No branch, so that it runs over many bytes at once.
fn note_row(cells: &[u16], q: usize, begins: &mut [u16])
    requires { (256 * q + 256 ≤ length cells.now) × ((q < rows_most) × (length begins.old ≡ 256)) }
    ensures { RowNoted cells.now q begins.old begins.new 255 }
{
    for b in 0..255 {
        begins[b + 1] = differ(begins[b + 1], cells[256 * q + (b + 1)], cells[256 * q + b]);
    }
}

// Notes each byte at which a column of n rows begins.
fn note_rows(cells: &[u16], n: usize, begins: &mut [u16])
    requires { (length cells.now ≡ 256 * n) × ((n ≤ rows_most) × (length begins.old ≡ 256)) }
    ensures { Begins cells.now begins.new n }
{
    for q in 0..n {
        note_row(cells, q, begins);
    }
}

// The bytes at which a column begins, ascending; how many there are.
fn gather(begins: &[u16], bytes: &mut [u8]) -> usize
    requires { (length begins.now ≡ 256) × (length bytes.old ≡ 256) }
    ensures { (result ≤ 256) × Gathered begins.now (take result bytes.new) }
{
    bytes[0] = 0;
    let mut many: usize = 1;
    for b in 0..255 {
        if begins[b + 1] != 0 {
            bytes[many] = (b + 1) as u8;
            many += 1;
        }
    }
    many
}

// The first byte of each column of n rows; how many there are. No slice of them is handed back: that would not say what is left in
// `bytes`.
pub fn list(cells: &[u16], n: usize, bytes: &mut [u8]) -> usize
    requires { (length cells.now ≡ 256 * n) × ((n ≤ rows_most) × (length bytes.old ≡ 256)) }
    ensures { (result ≤ 256) × Columns cells.now (take result bytes.new) n }
{
    let mut begins = [0u16; 256];
    note_rows(cells, n, &mut begins);
    gather(&begins, bytes)
}
