// Escapes, and digits of either base.
ghost use Rattle.std.specs.Prelude.{◌≡◌, ◌≤◌, length};
ghost use Rattle.rules.specs.Signs as signs;
ghost use Rattle.rules.specs.Reader.{hex_byte, escape};
ghost use Rattle.signs.specs.Answers.{value_of, Reads};

use crate::sign::Sign;

pub fn digit(c: u8) -> Option<u8>
    ensures { value_of result ≡ signs.digit c }
{
    match c {
        b'0'..=b'9' => Some(c - b'0'),
        _ => None,
    }
}

// A digit of base 16, of either case.
pub fn hex_digit(c: u8) -> Option<u8>
    ensures { value_of result ≡ signs.hex_digit c }
{
    match c {
        b'0'..=b'9' => Some(c - b'0'),
        b'A'..=b'F' => Some(c - b'A' + 10),
        b'a'..=b'f' => Some(c - b'a' + 10),
        _ => None,
    }
}

// What the byte after a `\` stands for.
fn after_backslash(c: u8) -> Option<u8>
    ensures { value_of result ≡ signs.after_backslash c }
{
    if Sign::from(c) != Sign::Plain {
        return Some(c);
    }
    match c {
        b'-' => Some(c),
        b'n' => Some(b'\n'),
        b'r' => Some(b'\r'),
        b't' => Some(b'\t'),
        _ => None,
    }
}

// Two hexadecimal digits, and the place after them.
fn read_hex(p: &[u8], at: usize) -> Option<(u8, usize)>
    requires { at ≤ length p.now }
    ensures { Reads 1 hex_byte p.now at (value_of result) }
{
    let x = hex_digit(*p.get(at)?)?;
    let y = hex_digit(*p.get(at + 1)?)?;
    Some((16 * x + y, at + 2))
}

// The byte of the escape whose `\` stands right before `at`, and the place after it.
#[tactic(auto, using(crate::proofs::Places::onward), unfolding(rules::specs::Reader::escape))]
pub fn read_escape(p: &[u8], at: usize) -> Option<(u8, usize)>
    requires { at ≤ length p.now }
    ensures { Reads 1 escape p.now at (value_of result) }
{
    let c = *p.get(at)?;
    match after_backslash(c) {
        Some(b) => Some((b, at + 1)),
        None if c == b'x' => read_hex(p, at + 1),
        None => None,
    }
}
