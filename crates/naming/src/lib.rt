// Names: each class by its least row.
#![tactic(auto)]

ghost use Rattle.std.specs.Prelude.{◌≡◌, ℕ, ◌+◌, ◌<◌, length, get_or};
ghost use Rattle.rules.specs.Sizes.{rows_most};
ghost use Rattle.naming.specs.Naming.{LeastOf, NamedTo, Numbers};

use kinds::ROWS_MOST;

// Row r gets the name of its class; where it is the first of it, it is noted. A class of which no row is noted has `ROWS_MOST`, so that
// one comparison serves.
fn name_row(number: &[u16], first: &mut [u16], class: &mut [u16], r: usize)
    requires numbers { Numbers number.now × (r < length number.now) }
    requires named { NamedTo number.now first.old class.old r }
    ensures { NamedTo number.now first.new class.new (r + 1) }
{
    let c = number[r] as usize;
    let f = first[c];
    if (f as usize) < r {
        class[r] = f;
        return;
    }
    first[c] = r as u16;
    class[r] = r as u16;
}

// Each row's class by its least row; `number` has the classes by number.
pub fn name(number: &[u16], first: &mut [u16], class: &mut [u16])
    requires { Numbers number.now × ((length first.old ≡ length number.now) × (length class.old ≡ length number.now)) }
    ensures { (i : ℕ) → i < length number.now → LeastOf number.now i (get_or class.new i 0) }
{
    first.fill(ROWS_MOST);
    for r in 0..number.len() {
        name_row(number, first, class, r);
    }
}
