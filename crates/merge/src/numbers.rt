// Numbers: the least row of each class is kept, and takes the next number.
ghost use Rattle.std.specs.Prelude.{◌≡◌, ◌≤◌, length};
ghost use Rattle.rules.specs.Sizes.{rows_most};
ghost use Rattle.grid.specs.Rows.{Names};
ghost use Rattle.merge.specs.Numbers.{Numbering};

// The new number of each row; how many rows are kept.
pub fn give(class: &[u16], number: &mut [u16]) -> u16
    requires { Names class.now × (length class.now ≤ rows_most) × (length number.old ≡ length class.now) }
    ensures { Numbering class.now number.new result }
{
    let mut k: u16 = 0;
    for q in 0..class.len() {
        let l = class[q] as usize;
        if l == q {
            number[q] = k;
            k += 1;
        } else {
            number[q] = number[l];
        }
    }
    k
}
