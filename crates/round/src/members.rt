// The rows of a set, one after the other.
ghost use Rattle.std.specs.Prelude.{◌*◌, ◌-◌, ◌≤◌, ◌<◌, length};
ghost use Rattle.rules.specs.Sizes.{rows_most};
ghost use Rattle.round.specs.Members.{PastWord, Next};

use sets;

// The next place in the word of r that its set has; or the first of the next word.
fn past(word: u64, r: usize) -> usize
    requires { r < 1048576 }
    ensures { PastWord word r result }
{
    let after = (word >> (r % 64)) / 2;
    if after == 0 {
        return r / 64 * 64 + 64;
    }
    r + 1 + u64::trailing_zeros(after) as usize
}

// The first row of the set from `from` on, of n rows.
fn next_in(set: &[u64], from: usize, n: usize) -> Option<usize>
    requires { (n ≤ rows_most) × ((n ≤ 64 * length set.now) × (from ≤ n)) }
    ensures { Next result set.now from n }
{
    let mut r = from;
    // A while: words and places that are not in are passed over.
    while r < n {
        if sets::test(set, r) {
            return Some(r);
        }
        r = past(set[r / 64], r);
    }
    None
}

// The rows of a set from `from` on, of n rows.
#[derive(Drop)]
pub struct Members<'r> {
    pub set: &'r [u64],
    pub from: usize,
    pub n: usize,
    ghost few: { n ≤ rows_most },
    ghost long: { n ≤ 64 * length set.now },
    ghost within: { from ≤ n },
}

impl Iterator for Members<'_> {
    ghost use Rattle.std.specs.Iterator.{at_most};
    ghost use Rattle.round.specs.NextRow.{GivesNext};

    type Item = usize;

    ghost next_gives = { GivesNext };

    ghost remaining = { λ s. at_most (s.n - s.from) };

    fn next(&mut self) -> Option<usize> {
        let Some(r) = next_in(self.set, self.from, self.n) else {
            self.from = self.n;
            return None;
        };
        self.from = r + 1;
        Some(r)
    }
}
