// Reading a pattern: its tree as a program, or refusal 1 to 9 with its place.
#![tactic(auto)]

ghost use Rattle.reader.specs.Reading.{ProgramRoom, ReadAs};

mod tree;

use kinds::{PATTERN_MOST, Refusal};

// Writes the program of the pattern's tree to the start of `program`. Answers its length in words, or why the pattern is turned away.
pub fn read_pattern(pattern: &[u8], program: &mut [u64]) -> Result<usize, Refusal>
    requires { ProgramRoom pattern.now program.old }
    ensures { ReadAs pattern.now program.new result }
{
    if PATTERN_MOST < pattern.len() {
        return Err(Refusal::TooLong);
    }
    let (_, n) = tree::read_branches(pattern, 0, 0, program, 0)?;
    Ok(n)
}
