// Works sums, one a line of standard input: how many rows are lent, a space, a pattern, and after a tab, where there is one, a text.
// Each is printed with what the pattern's table is, row by row where it is small, or with its refusal; and with the first match and
// all starts in the text.
#![tactic(auto)]

ghost use Rattle.std.specs.Prelude.{◌≡◌, ◌≤◌, ◌<◌, length, IfSome};

use answers::Written;
use kinds::{Refusal, WORDS_A_ROW};
use table::Lent;

// Rows for which there is room.
const ROWS: usize = 1024;

// Places for starts.
const PLACES: usize = 16;

// What can't be written is left out.
fn say(output: &impl Print, words: &[u8]) {
    let _ = output.write_all(words);
}

fn say_number(output: &impl Print, n: u32) {
    let _ = output.print(n);
}

fn say_refusal(output: &impl Print, r: Refusal) {
    say(output, b" refused ");
    say_number(output, r.number());
    say(output, b" at ");
    say_number(output, r.place());
}

// The place of the first byte c.
fn find(text: &[u8], c: u8) -> Option<usize>
    ensures { IfSome result (λ n. n < length text.now) }
{
    text.iter().position(|b| *b == c)
}

// The number that the digits spell, at most `ROWS`.
fn number_of(digits: &[u8]) -> usize
    ensures { result ≤ 1024 }
{
    let mut n: usize = 0;
    for digit in digits {
        n = (10 * n + (digit % 16) as usize) % 10000;
    }
    n.min(ROWS)
}

fn say_first(output: &impl Print, table: &Lent<'_>, text: &[u8]) {
    match first::first(table, text) {
        Err(r) => say_refusal(output, r),
        Ok(None) => say(output, b" no match"),
        Ok(Some((start, end))) => {
            say(output, b" first ");
            say_number(output, start);
            say(output, b" to ");
            say_number(output, end);
        }
    }
}

fn say_starts(output: &impl Print, table: &Lent<'_>, text: &[u8]) {
    let mut list = [0u32; PLACES];
    match starts::starts(table, text, &mut list) {
        Err(r) => say_refusal(output, r),
        Ok(count) => {
            say(output, b" starts");
            for start in list.iter().take(count as usize) {
                say(output, b" ");
                say_number(output, *start);
            }
        }
    }
}

// The listing of a table: all of a small one, of another its first line.
fn say_table(output: &impl Print, table: &Lent<'_>) {
    let mut out = io::buffer();
    match listing::write_table(table, &mut out) {
        Err(r) => say_refusal(output, r),
        Ok(Written::Whole(n)) => say(output, &out[..out.len().min(n as usize)]),
        Ok(Written::Beginning(_)) => {
            let end = find(&out, b'\n').unwrap_or(out.len());
            say(output, &out[..end]);
            say(output, b"\n");
        }
    }
}

fn say_matches(output: &impl Print, table: &Lent<'_>, text: &[u8]) {
    say(output, text);
    say(output, b":");
    say_first(output, table, text);
    say_starts(output, table, text);
    say(output, b"\n");
}

// The table of a pattern in the lent room, and what it matches in the text.
fn work(
    output: &impl Print,
    pattern: &[u8],
    text: Option<&[u8]>,
    cells: &mut [u16],
    marks: &mut [u8],
    sets: &mut [u64],
) {
    match compile::compile(pattern, cells, marks, sets) {
        Err(r) => {
            say_refusal(output, r);
            say(output, b"\n");
        }
        Ok(drawn) => {
            let table = Lent {
                rows: drawn.rows,
                head: drawn.head,
                cells,
                marks,
            };
            say(output, b" ");
            say_table(output, &table);
            if let Some(text) = text {
                say_matches(output, &table, text);
            }
        }
    }
}

// One sum: what stands ahead of the first space, from there to the tab, and after the tab.
fn work_line(
    output: &impl Print,
    line: &[u8],
    cells: &mut [u16; 256 * ROWS],
    marks: &mut [u8; ROWS],
    sets: &mut [u64; WORDS_A_ROW * ROWS],
) {
    say(output, line);
    say(output, b":");
    let Some(space) = find(line, b' ') else {
        say(output, b" no pattern\n");
        return;
    };
    let rows = number_of(&line[..space]);
    let rest = &line[space + 1..];
    let (pattern, text) = match find(rest, b'\t') {
        Some(tab) => (&rest[..tab], Some(&rest[tab + 1..])),
        None => (rest, None),
    };
    work(
        output,
        pattern,
        text,
        &mut cells[..256 * rows],
        &mut marks[..rows],
        &mut sets[..WORDS_A_ROW * rows],
    );
}

fn main(rt: HostRuntime) {
    let mut text = io::large_buffer();
    let n = streams::read_most(&mut rt.reader(), &mut text);
    let mut cells = [0; 256 * ROWS];
    let mut marks = [0; ROWS];
    let mut sets = [0; WORDS_A_ROW * ROWS];
    for line in text[..n].split_inclusive(|b| *b == b'\n') {
        work_line(
            &rt.stdout(),
            lines::pattern_of(line),
            &mut cells,
            &mut marks,
            &mut sets,
        );
    }
}
