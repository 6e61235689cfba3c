// Reads a pattern from standard input and prints the listing of its table, or why it is turned away.
#![tactic(auto)]

ghost use Rattle.std.specs.Prelude.{◌≡◌, ◌≤◌, length, take};
ghost use Rattle.rules.specs.Answers.{given};
ghost use Rattle.rules.specs.Listing as rule;
ghost use Rattle.io.specs.Counts.{IsPrefixLen};
ghost use Rattle.writing.specs.Texts.{shown, shown_in};
ghost use Rattle.listing.specs.Programs.{printed_most};

use answers::Written;
use kinds::{PATTERN_MOST, Refusal, WORDS_A_ROW};
use table::Lent;
use writing::whole_length;

// Rows for which there is room.
const ROWS: usize = 64;

// Bytes that hold the text.
const PRINTED_MOST: usize = 262144;

// The text for an input, compiled with room for 64 rows. `draw` has the same of its graph: a function for both, over the writer, would
// be no shorter.
fn printed(input: &[u8], out: &mut [u8]) -> Result<Written, Refusal>
    ensures { shown result out.new ≡ shown_in out.old (given (rule.printed input.now)) }
{
    let mut cells = [0u16; 256 * ROWS];
    let mut marks = [0u8; ROWS];
    let mut sets = [0u64; WORDS_A_ROW * ROWS];
    let pattern = lines::pattern_of(input);
    match compile::compile(pattern, &mut cells, &mut marks, &mut sets) {
        Ok(drawn) => {
            let table = Lent {
                rows: drawn.rows,
                head: drawn.head,
                cells: &cells,
                marks: &marks,
            };
            listing::write_table(&table, out)
        }
        Err(refusal) => Ok(lines::write_refusal(refusal, out)),
    }
}

// The same in a buffer that holds it; how many bytes it takes.
fn printed_whole(input: &[u8], out: &mut [u8]) -> usize
    requires { printed_most ≤ length out.old }
    ensures out_after { take result out.new ≡ rule.printed input.now }
    ensures prefix_len { IsPrefixLen result out.new }
{
    whole_length(printed(input, out))
}

// The first 1,026 bytes of the input decide what is printed, however long it is (`beginning-decides`).
fn main(rt: HostRuntime) {
    let mut input = [0u8; PATTERN_MOST + 2];
    let mut out = [0u8; PRINTED_MOST];
    streams::run(
        &rt,
        &mut input,
        &mut out,
        b"list: expected a pattern on standard input, and no argument\n",
        b"list: standard output can't be written\n",
        printed_whole,
    );
}
