// What the programs are given and say: standard input, and no argument; standard output; and standard error where one of them fails.
#![tactic(auto)]

ghost use Rattle.std.specs.Prelude.{◌≡◌, List, ℕ, MatchResult, length};
ghost use Rattle.std.specs.Borrow.{Bor, MutBor};
ghost use Rattle.io.specs.Counts.{IsPrefixLen};
ghost use Rattle.streams.specs.Inputs.{InputIn};

use std::env::FillError;
use std::io::Read;
use std::rt::Env;

// A read failed, or there was an argument.
#[derive(Drop)]
pub struct Unread;

// Reads until the buffer is full, the input ends or a read fails; how many bytes then stand at the buffer's start, as an error where
// a read failed after them.
fn fill<R: Read>(from: &mut R, buffer: &mut [u8]) -> Result<usize, usize>
    ensures { MatchResult result (λ n. IsPrefixLen n buffer.new) (λ n. IsPrefixLen n buffer.new) }
{
    let mut done: usize = 0;
    // A while: each read says how far the next begins.
    while done < buffer.len() {
        let Ok(n) = from.read(&mut buffer[done..]) else {
            return Err(done);
        };
        if n == 0 {
            break;
        }
        done += n;
    }
    Ok(done)
}

// Whether there is an argument after the program's name. No byte of it is asked for, so an empty one alone fits.
fn has_argument<R: Env>(rt: &R) -> bool {
    !matches!(rt.arg(1, &mut []), Err(FillError::NotPresent))
}

// Standard input, where the program has no argument.
pub fn read_input<R: Env + std::io::Input>(rt: &R, buffer: &mut [u8]) -> Result<usize, Unread>
    ensures { InputIn result buffer.new }
{
    if has_argument(rt) {
        return Err(Unread);
    }
    fill(&mut rt.reader(), buffer).map_err(|_| Unread)
}

// As much of an input as the buffer holds, or as can be read; how many bytes stand at the start of the buffer.
pub fn read_most<R: Read>(from: &mut R, buffer: &mut [u8]) -> usize
    ensures { IsPrefixLen result buffer.new }
{
    fill(from, buffer).unwrap_or_else(|done| done)
}

// A line for the user, on standard error; where that fails, there is nobody to tell.
pub fn say(error: &impl Print, line: &[u8]) {
    let _ = error.write_all(line);
}

// Writes a text to standard output; where that fails, says the line on standard error.
pub fn write_output(output: &impl Print, error: &impl Print, text: &[u8], unwritten: &[u8]) {
    if output.write_all(text).is_err() {
        say(error, unwritten);
    }
}

// A program that reads standard input and writes a text: what `work` leaves at the start of `out` for the bytes that were read. Where
// they can't be read it says what was expected, and where the text can't be written it says so.
pub fn run<F: FnOnce(&[u8], &mut [u8]) -> usize>(
    rt: &HostRuntime,
    input: &mut [u8],
    out: &mut [u8],
    expected: &[u8],
    unwritten: &[u8],
    work: F,
)
    requires can { (i : Bor (List ℕ)) (o : MutBor (List ℕ)) → length o.now ≡ length out.old → F.pre work i o }
    requires front { (i : Bor (List ℕ)) (o after : MutBor (List ℕ)) (n : ℕ) → F.post work i o n after → IsPrefixLen n after.now }
{
    match read_input(rt, input) {
        Ok(n) => {
            let length = work(&input[..n], out);
            write_output(&rt.stdout(), &rt.stderr(), &out[..length], unwritten);
        }
        Err(Unread) => say(&rt.stderr(), expected),
    }
}
