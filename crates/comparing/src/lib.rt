// Whether two patterns are the same: two lines of an input, each compiled in room for 1,024 rows, and what is said of them.
#![tactic(auto)]

ghost use Rattle.std.specs.Prelude.{◌≡◌, Ok};
ghost use Rattle.rules.specs.Compile.{drawn};
ghost use Rattle.rules.specs.Answers.{given};
ghost use Rattle.writing.specs.Texts.{shown, shown_in};
ghost use Rattle.findings.specs.Lent.{answer_in, HoldsAnswer, said_of_finding};
ghost use Rattle.comparing.specs.Lines.{line_end_in, second_of};
ghost use Rattle.comparing.specs.Comparison.{full_room, said_of_patterns, said_of_lines, comparison};
ghost use Rattle.comparing.specs.Lent.{LentRoom};

use answers::Written;
use compile::compile;
use findings::texts::put_finding;
use findings::{Finding, judge};
use kinds::{PATTERN_MOST, ROWS, Refusal, WORDS_A_ROW};
use table::Lent;
use writing::Page;

// The place of the first line end; the length where there is none.
fn line_end(text: &[u8]) -> usize
    ensures { result ≡ line_end_in text.now }
{
    text.iter().position(|b| *b == b'\n').unwrap_or(text.len())
}

// Compiles a pattern, and hands back its table in the lent room.
fn compile_in<'r>(
    pattern: &[u8],
    cells: &'r mut [u16],
    marks: &'r mut [u8],
    sets: &mut [u64],
) -> Result<Lent<'r>, Refusal>
    requires { LentRoom cells.old marks.old sets.old }
    ensures drawn { answer_in result ≡ drawn pattern.now full_room }
    ensures holds { HoldsAnswer result }
{
    let drawn = compile(pattern, cells, marks, sets)?;
    Ok(Lent {
        rows: drawn.rows,
        head: drawn.head,
        cells,
        marks,
    })
}

// What comes of two patterns. Compiling leaves the set words 0, so one list of them serves both.
fn compare_patterns(first: &[u8], second: &[u8]) -> Finding
    ensures { said_of_finding result ≡ said_of_patterns first.now second.now }
{
    let mut cells = [0u16; 256 * ROWS];
    let mut marks = [0u8; ROWS];
    let mut other_cells = [0u16; 256 * ROWS];
    let mut other_marks = [0u8; ROWS];
    let mut sets = [0u64; WORDS_A_ROW * ROWS];
    let one = compile_in(first, &mut cells, &mut marks, &mut sets);
    let other = compile_in(second, &mut other_cells, &mut other_marks, &mut sets);
    judge(&one, &other)
}

// What comes of a first line, and of what stands after its line end.
fn compare_second(first: &[u8], rest: &[u8]) -> Finding
    ensures { said_of_finding result ≡ said_of_lines (second_of first.now rest.now) }
{
    let end = line_end(rest);
    if end <= PATTERN_MOST && end + 1 < rest.len() {
        return Finding::NotTwo;
    }
    compare_patterns(first, &rest[..end])
}

// What comes of an input.
fn compare(input: &[u8]) -> Finding
    ensures { said_of_finding result ≡ comparison input.now }
{
    let end = line_end(input);
    if PATTERN_MOST < end {
        return Finding::First(Refusal::TooLong);
    }
    if input.len() <= end {
        return Finding::NotTwo;
    }
    compare_second(&input[..end], &input[end + 1..])
}

// What is said of an input. Its first 2,051 bytes decide (`beginning-decides`).
pub fn write_comparison(input: &[u8], out: &mut [u8]) -> Written
    ensures { shown (Ok result) out.new ≡ shown_in out.old (given (comparison input.now)) }
{
    let mut page = Page::on(out);
    put_finding(&mut page, compare(input));
    page.written()
}
