// Reads patterns from standard input, one a line, and prints what reading each comes to: the length of its program in words, or the
// refusal. In a line `%` and two digits of base 16 stand for a byte.
#![tactic(auto)]

ghost use Rattle.std.specs.Prelude.{◌≡◌, ◌<◌, ◌≤◌, length};
ghost use Rattle.readings.specs.Lines.{hex_value, line_most, Written, Unwritten, Begun};

use kinds::PATTERN_MOST;
use program::PROGRAM_MOST;
use signs::escape::hex_digit;

// As much of a line as is kept: any pattern that is not too long is whole, and any other still too long.
const LINE_MOST: usize = 3 * PATTERN_MOST + 3;

// A digit of base 16; another byte counts as 0.
fn hex_value(c: u8) -> u8
    ensures is { result ≡ hex_value c }
    ensures small { result < 16 }
{
    hex_digit(c).unwrap_or(0)
}

// The byte of a pattern that is written at `at`, and the place in the line after it.
#[tactic(auto, using(crate::proofs::LineLaws::escaped, crate::proofs::LineLaws::plain))]
fn byte_at(line: &[u8], at: usize) -> (u8, usize)
    requires { at < length line.now }
    ensures { Written line.now at result.0 result.1 }
{
    if line[at] == b'%' && at + 2 < line.len() {
        return (
            16 * hex_value(line[at + 1]) + hex_value(line[at + 2]),
            at + 3,
        );
    }
    (line[at], at + 1)
}

// Writes the pattern of a line to the start of `pattern`, and answers its length.
#[tactic(auto, using(crate::proofs::LineLaws::all_copied))]
fn unwritten(line: &[u8], pattern: &mut [u8]) -> usize
    requires { length line.now ≤ length pattern.old }
    ensures { Unwritten line.now pattern.new result }
{
    let mut at = 0;
    let mut n = 0;
    // A while: the step is 1 or 3.
    while at < line.len() {
        (pattern[n], at) = byte_at(line, at);
        n += 1;
    }
    n
}

// What can't be written is left out.
fn print_reading(output: &impl Print, pattern: &[u8]) {
    let mut program = [0u64; PROGRAM_MOST];
    let _ = match reader::read_pattern(pattern, &mut program) {
        Ok(n) => println!(output; "words {n}"),
        Err(refusal) => println!(output; "refused {} at {}", refusal.number(), refusal.place()),
    };
}

fn print_line(output: &impl Print, line: &[u8])
    requires { length line.now ≤ line_most }
{
    let mut pattern = [0u8; LINE_MOST];
    let n = unwritten(line, &mut pattern);
    print_reading(output, &pattern[..n]);
}

// Adds a byte to the line that has n bytes, as far as there is room, or prints the line that it ends; how many bytes the line has then.
fn add(output: &impl Print, line: &mut [u8], n: usize, byte: u8) -> usize
    requires { Begun line.old n }
    ensures { Begun line.new result }
{
    if byte == b'\n' {
        print_line(output, &line[..n]);
        return 0;
    }
    if n < line.len() {
        line[n] = byte;
        return n + 1;
    }
    n
}

// Adds a piece of the input.
fn add_all(output: &impl Print, line: &mut [u8], begun: usize, piece: &[u8]) -> usize
    requires { Begun line.old begun }
    ensures { Begun line.new result }
{
    let mut n = begun;
    for &byte in piece {
        n = add(output, line, n, byte);
    }
    n
}

// Nothing says that an input ends, so its pieces are counted up to a number that no run comes to.
fn main(rt: HostRuntime) {
    let mut input = rt.reader();
    let output = rt.stdout();
    let mut line = [0u8; LINE_MOST];
    let mut n = 0;
    for _ in 0..u64::MAX {
        let mut piece = io::large_buffer();
        let got = streams::read_most(&mut input, &mut piece);
        if got == 0 {
            return;
        }
        n = add_all(&output, &mut line, n, &piece[..got]);
    }
}
