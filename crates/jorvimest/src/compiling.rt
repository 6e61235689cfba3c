// Compiling over numbers and slices.
ghost use Rattle.std.specs.Prelude.{◌≡◌};
ghost use Rattle.rules.specs.Compile as rule;
ghost use Rattle.rows.specs.Rows.{room};
ghost use Rattle.codes.specs.Codes.{compile_code, compile_rows, compile_head, compile_place};

use codes::put_compiled;
use compile::compile;

// The table stands in the cells and marks, and its rows and head row are put into the lent numbers; or the place of a refusal.
#[unsafe(no_mangle)]
pub extern "C" fn jorvimest_compile(
    pattern: &[u8],
    cells: &mut [u16],
    marks: &mut [u8],
    sets: &mut [u64],
    rows: &mut u16,
    head: &mut u16,
    place: &mut u32,
) -> u32
    ensures code { result ≡ compile_code (rule.compile pattern.now (room cells.old marks.old sets.old)).answer }
    ensures rows { rows.new ≡ compile_rows rows.old (rule.compile pattern.now (room cells.old marks.old sets.old)).answer }
    ensures head { head.new ≡ compile_head head.old (rule.compile pattern.now (room cells.old marks.old sets.old)).answer }
    ensures place { place.new ≡ compile_place place.old (rule.compile pattern.now (room cells.old marks.old sets.old)).answer }
    ensures room { room cells.new marks.new sets.new ≡ (rule.compile pattern.now (room cells.old marks.old sets.old)).room }
{
    let answer = compile(pattern, cells, marks, sets);
    put_compiled(answer, rows, head, place)
}
