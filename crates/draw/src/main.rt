// Reads a pattern from standard input and writes its table as a graph for Graphviz, or why it is turned away.
#![tactic(auto)]

ghost use Rattle.std.specs.Prelude.{◌≡◌, ◌≤◌, length, take};
ghost use Rattle.rules.specs.Answers.{given};
ghost use Rattle.io.specs.Counts.{IsPrefixLen};
ghost use Rattle.writing.specs.Texts.{shown, shown_in};
ghost use Rattle.draw.specs.Graphs.{graph_of, graph_most};

use answers::Written;
use kinds::{PATTERN_MOST, Refusal, WORDS_A_ROW};
use table::Lent;
use writing::whole_length;

// Rows for which there is room.
const ROWS: usize = 64;

// Bytes that hold the text.
const GRAPH_MOST: usize = 1048576;

// The text for an input, compiled with room for 64 rows. `list` has the same of its listing: a function for both, over the writer,
// would be no shorter.
fn graph(input: &[u8], out: &mut [u8]) -> Result<Written, Refusal>
    ensures { shown result out.new ≡ shown_in out.old (graph_of input.now) }
{
    let mut cells = [0u16; 256 * ROWS];
    let mut marks = [0u8; ROWS];
    let mut sets = [0u64; WORDS_A_ROW * ROWS];
    let pattern = lines::pattern_of(input);
    match compile::compile(pattern, &mut cells, &mut marks, &mut sets) {
        Ok(drawn) => {
            let table = Lent {
                rows: drawn.rows,
                head: drawn.head,
                cells: &cells,
                marks: &marks,
            };
            dot::write_dot(&table, out)
        }
        Err(refusal) => Ok(lines::write_refusal(refusal, out)),
    }
}

// The same in a buffer that holds it; how many bytes it takes.
fn graph_whole(input: &[u8], out: &mut [u8]) -> usize
    requires { graph_most ≤ length out.old }
    ensures out_after { given (take result out.new) ≡ graph_of input.now }
    ensures prefix_len { IsPrefixLen result out.new }
{
    whole_length(graph(input, out))
}

// Zeros for what is written, in a function of their own: a proof that sees so many runs out of room.
fn buffer() -> [u8; GRAPH_MOST]
    ensures { graph_most ≡ length result }
{
    [0; GRAPH_MOST]
}

// 1,026 bytes of the input are enough: a longer one is too long for a pattern.
fn main(rt: HostRuntime) {
    let mut input = [0u8; PATTERN_MOST + 2];
    let mut out = buffer();
    streams::run(
        &rt,
        &mut input,
        &mut out,
        b"draw: expected a pattern on standard input, and no argument\n",
        b"draw: standard output can't be written\n",
        graph_whole,
    );
}
