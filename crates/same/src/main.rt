// Reads two patterns from standard input, one a line, and says whether they are the same.
#![tactic(auto)]

ghost use Rattle.std.specs.Prelude.{◌≡◌, ◌≤◌, length, take};
ghost use Rattle.io.specs.Counts.{IsPrefixLen};
ghost use Rattle.findings.specs.Said.{comparison_most};
ghost use Rattle.comparing.specs.Comparison.{comparison};

use kinds::PATTERN_MOST;
use writing::whole_length;

// Bytes that hold what is said.
const ROOM: usize = 128;

// What is said of an input, in a buffer that holds it; how many bytes it takes.
fn compared(input: &[u8], out: &mut [u8]) -> usize
    requires { comparison_most ≤ length out.old }
    ensures out_after { take result out.new ≡ comparison input.now }
    ensures prefix_len { IsPrefixLen result out.new }
{
    whole_length(Ok(comparing::write_comparison(input, out)))
}

// The first 2,051 bytes of the input decide, however long it is (`beginning-decides`).
fn main(rt: HostRuntime) {
    let mut input = [0u8; 2 * PATTERN_MOST + 3];
    let mut out = [0u8; ROOM];
    streams::run(
        &rt,
        &mut input,
        &mut out,
        b"same: expected two patterns on standard input, one a line, and no argument\n",
        b"same: standard output can't be written\n",
        compared,
    );
}
