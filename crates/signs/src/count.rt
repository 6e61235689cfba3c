// Counts in braces.
ghost use Rattle.std.specs.Prelude.{◌≡◌, ◌≤◌, length, drop};
ghost use Rattle.rules.specs.Signs as signs;
ghost use Rattle.rules.specs.Reader.{number, count};
ghost use Rattle.signs.specs.Answers.{value_of, count_of, first_of, Reads, Found};
ghost use Rattle.signs.specs.Counts.{limited, top};

use crate::escape::digit;
use kinds::COUNT_MOST;

// A repeat sign.
#[derive(Clone, Copy)]
pub enum Repeat {
    Star,
    Plus,
    Maybe,
    // At least the first number of times, and at most the second more.
    Times(u16, u16),
    AtLeast(u16),
}

// Whether the byte c stands at `at`.
pub fn stands_at(p: &[u8], at: usize, c: u8) -> bool
    ensures { Found c p.now at result }
{
    p.get(at) == Some(&c)
}

// The digit at `at`, if one is there.
fn digit_at(p: &[u8], at: usize) -> Option<u8>
    ensures { value_of result ≡ first_of signs.digit (drop at p.now) }
{
    digit(*p.get(at)?)
}

// A number and the place after it, unless it is over the most.
fn at_most(n: u16, next: usize) -> Option<(u16, usize)>
    ensures { value_of result ≡ limited n next }
{
    (n <= COUNT_MOST).then_some((n, next))
}

// One to three digits.
#[tactic(auto, unfolding(rules::specs::Reader::number))]
fn read_number(p: &[u8], at: usize) -> Option<(u16, usize)>
    requires { at ≤ length p.now }
    ensures { Reads 1 number p.now at (value_of result) }
{
    let x = digit_at(p, at)? as u16;
    let Some(y) = digit_at(p, at + 1) else {
        return at_most(x, at + 1);
    };
    let n = 10 * x + y as u16;
    let Some(z) = digit_at(p, at + 2) else {
        return at_most(n, at + 2);
    };
    at_most(10 * n + z as u16, at + 3)
}

// The end of `{m,}` or `{m,n}` after its comma.
#[tactic(auto, unfolding(crate::specs::Counts::top))]
fn read_top(p: &[u8], at: usize, m: u16) -> Option<(Repeat, usize)>
    requires { at ≤ length p.now }
    ensures { Reads 1 (top m) p.now at (count_of result) }
{
    if stands_at(p, at, b'}') {
        return Some((Repeat::AtLeast(m), at + 1));
    }
    let (n, next) = read_number(p, at)?;
    if stands_at(p, next, b'}') && m <= n {
        return Some((Repeat::Times(m, n - m), next + 1));
    }
    None
}

// The repeat sign of the count whose `{` stands right before `at`, and the place after it.
#[tactic(auto, using(crate::proofs::Places::onward), unfolding(rules::specs::Reader::count, crate::specs::Counts::top))]
pub fn read_count(p: &[u8], at: usize) -> Option<(Repeat, usize)>
    requires { at ≤ length p.now }
    ensures { Reads 1 count p.now at (count_of result) }
{
    let (m, next) = read_number(p, at)?;
    if stands_at(p, next, b'}') {
        return Some((Repeat::Times(m, 0), next + 1));
    }
    if stands_at(p, next, b',') {
        return read_top(p, next + 1, m);
    }
    None
}
