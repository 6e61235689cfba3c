// The cycle of branch, piece and atom readers: each writes the program of what it reads, and answers the place after it and the
// program's length, or the refusal that is due.
ghost use Rattle.std.specs.Prelude.{◌≡◌, ℕ, ◌+◌, ◌≤◌, ◌<◌, length, drop};
ghost use Rattle.rules.specs.Sizes.{pattern_most};
ghost use Rattle.rules.specs.Reader.{token};
ghost use Rattle.program.specs.Program.{Puts};
ghost use Rattle.reader.specs.Says.{atom, piece, branch, pattern, stops};
ghost use Rattle.reader.specs.Told.{Asks, AsksSingle, Told, AfterAtom};

use classes::read_class;
use kinds::{GROUPS_MOST, Refusal};
use program::{Op, put, put_class};
use signs::count::{Repeat, read_count};
use signs::escape::read_escape;
use signs::sign::Sign;

// A branch stops at `|`, at `)` and at the end.
#[tactic(auto, using(crate::proofs::TokenLaws::goes_on), unfolding(rules::specs::Reader::token))]
fn stops_at(p: &[u8], at: usize) -> bool
    ensures { result ≡ stops (token (drop at p.now)) }
{
    match p.get(at) {
        None => true,
        Some(&c) => matches!(Sign::from(c), Sign::ClosesGroup | Sign::Bar),
    }
}

// The repeat sign after an atom, if there is one, and the place after it.
#[tactic(auto, using(crate::proofs::TokenLaws::no_repeat), unfolding(rules::specs::Reader::token))]
fn after_atom(p: &[u8], at: usize) -> Result<Option<(Repeat, usize)>, Refusal>
    requires within { at ≤ length p.now }
    requires short { length p.now ≤ pattern_most }
    ensures { AfterAtom p.now at result }
{
    let Some(&c) = p.get(at) else {
        return Ok(None);
    };
    match Sign::from(c) {
        Sign::Star => Ok(Some((Repeat::Star, at + 1))),
        Sign::Plus => Ok(Some((Repeat::Plus, at + 1))),
        Sign::Query => Ok(Some((Repeat::Maybe, at + 1))),
        Sign::OpensCount => match read_count(p, at + 1) {
            None => Err(Refusal::BadCount(at as u32)),
            sign => Ok(sign),
        },
        _ => Ok(None),
    }
}

// One operation, for what ends before `next`.
fn one(program: &mut [u64], n: usize, op: Op, next: usize) -> Result<(usize, usize), Refusal>
    requires { n < length program.old }
    ensures is { result ≡ Ok (next, n + 1) }
    ensures puts { Puts program.old program.new n op }
{
    put(program, n, op);
    Ok((next, n + 1))
}

// The atom at `at` whose sign this is, and which is no group.
fn read_single(
    p: &[u8],
    at: usize,
    first: Sign,
    program: &mut [u64],
    n: usize,
) -> Result<(usize, usize), Refusal>
    requires { AsksSingle p.now at first n program.old }
    ensures { (d : ℕ) → Told atom p.now at d n program.old program.new result }
{
    match first {
        Sign::Dot => one(program, n, Op::Dot, at + 1),
        Sign::Hat => one(program, n, Op::Head, at + 1),
        Sign::Dollar => one(program, n, Op::Tail, at + 1),
        Sign::OpensClass => {
            let Some((set, next)) = read_class(p, at + 1) else {
                return Err(Refusal::BadClass(at as u32));
            };
            put_class(program, n, set);
            Ok((next, n + 5))
        }
        Sign::Backslash => {
            let Some((b, next)) = read_escape(p, at + 1) else {
                return Err(Refusal::BadEscape(at as u32));
            };
            one(program, n, Op::Byte(b), next)
        }
        Sign::Star | Sign::Plus | Sign::Query | Sign::OpensCount => Err(Refusal::NoAtom(at as u32)),
        Sign::ClosesClass | Sign::ClosesCount => Err(Refusal::Stray(at as u32)),
        _ => one(program, n, Op::Byte(p[at]), at + 1),
    }
}

#[cycle(reading)]
fn read_atom(
    p: &[u8],
    at: usize,
    groups: u16,
    program: &mut [u64],
    n: usize,
) -> Result<(usize, usize), Refusal>
    requires { Asks atom p.now at groups n program.old }
    ensures { Told atom p.now at groups n program.old program.new result }
{
    match Sign::from(p[at]) {
        Sign::OpensGroup => {
            if GROUPS_MOST <= groups {
                return Err(Refusal::DeepGroup(at as u32));
            }
            let (next, end) = read_branches(p, at + 1, groups + 1, program, n)?;
            if p.len() <= next {
                return Err(Refusal::OpenGroup(next as u32));
            }
            Ok((next + 1, end))
        }
        first => read_single(p, at, first, program, n),
    }
}

// An atom with at most one repeat sign after it.
#[cycle(reading)]
fn read_piece(
    p: &[u8],
    at: usize,
    groups: u16,
    program: &mut [u64],
    n: usize,
) -> Result<(usize, usize), Refusal>
    requires { Asks piece p.now at groups n program.old }
    ensures { Told piece p.now at groups n program.old program.new result }
{
    let (next, end) = read_atom(p, at, groups, program, n)?;
    match after_atom(p, next)? {
        None => Ok((next, end)),
        Some((sign, last)) => one(program, end, Op::Repeated(sign), last),
    }
}

// Pieces in a row, up to a `|`, a `)` or the end.
#[cycle(reading)]
fn read_branch(
    p: &[u8],
    from: usize,
    groups: u16,
    program: &mut [u64],
    start: usize,
) -> Result<(usize, usize), Refusal>
    requires { Asks branch p.now from groups start program.old }
    ensures { Told branch p.now from groups start program.old program.new result }
{
    if stops_at(p, from) {
        return one(program, start, Op::Nothing, from);
    }
    let (mut at, mut n) = read_piece(p, from, groups, program, start)?;
    'reading: loop {
        if stops_at(p, at) {
            break 'reading Ok((at, n));
        }
        let (next, end) = read_piece(p, at, groups, program, n)?;
        put(program, end, Op::InRow((end - n) as u32));
        (at, n) = (next, end + 1);
    }
}

// Branches parted by `|`, up to the `)` of a group or the end.
#[cycle(reading)]
pub fn read_branches(
    p: &[u8],
    from: usize,
    groups: u16,
    program: &mut [u64],
    start: usize,
) -> Result<(usize, usize), Refusal>
    requires { Asks pattern p.now from groups start program.old }
    ensures { Told pattern p.now from groups start program.old program.new result }
{
    let (mut at, mut n) = read_branch(p, from, groups, program, start)?;
    'reading: loop {
        let Some(&c) = p.get(at) else {
            break 'reading Ok((at, n));
        };
        match Sign::from(c) {
            Sign::Bar => {
                let (next, end) = read_branch(p, at + 1, groups, program, n)?;
                put(program, end, Op::Either((end - n) as u32));
                (at, n) = (next, end + 1);
            }
            _ if groups == 0 => break 'reading Err(Refusal::NoGroup(at as u32)),
            _ => break 'reading Ok((at, n)),
        }
    }
}
