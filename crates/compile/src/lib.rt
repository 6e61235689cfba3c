// Compiling: any pattern, and any lent cells, marks and set words, to the pattern's drawing or the refusal that is due.
#![tactic(auto)]

ghost use Rattle.std.specs.Prelude.{◌≡◌, ◌+◌, ◌*◌, ◌≤◌, length};
ghost use Rattle.rules.specs.Sizes.{pattern_most};
ghost use Rattle.program.specs.Program.{program_most};
ghost use Rattle.reader.specs.Reading.{ProgramRoom};
ghost use Rattle.rows.specs.Rows.{SomeEntries, room};
ghost use Rattle.compile.specs.Outcomes.{room_in, SameSlices, kept, kept_rows, SomeProgram, DrewNodes, DrewProgram, Drew, Compiles};

use answers::Drawn;
use entries::{BLANK, Entry};
use kinds::{NODES, Refusal};
use merge::{Merged, merge};
use nodes::build;
use program::PROGRAM_MOST;
use reader::read_pattern;
use rows::list_rows;

// The room that is lent.
#[derive(Drop)]
struct Room<'r> {
    cells: &'r mut [u16],
    marks: &'r mut [u8],
    sets: &'r mut [u64],
}

// Bytes of a short pattern, whose program takes less room.
const SHORT_MOST: usize = 126;
// The longest program of one.
const SHORT_PROGRAM: usize = 2 * SHORT_MOST + 1;

impl Room<'_> {
    // From nodes: their set rows are listed at the front of the lent room, and merged there; refusal 11 where they do not fit.
    fn draw_nodes(&mut self, program: &[u64], nodes: &[Entry]) -> Result<Drawn, Refusal>
        requires { SomeEntries program.now nodes.now }
        ensures same { SameSlices self.old self.new }
        ensures drew { DrewNodes program.now nodes.now (room_in self.old) (room_in self.new) result }
    {
        let listed = list_rows(program, nodes, self.cells, self.marks, self.sets);
        let count = listed.ok_or(Refusal::ManyRows)?;
        let Merged { rows, head } = merge(self.cells, self.marks, self.sets, count);
        Ok(Drawn { rows, head })
    }

    // From the first `len` words of a program: its nodes stand at the front of an array; refusal 10 where they do not fit. `spine` is
    // lent to the builder.
    fn draw_program(
        &mut self,
        program: &[u64],
        len: usize,
        spine: &mut [u16],
    ) -> Result<Drawn, Refusal>
        requires { SomeProgram program.now len × (len ≤ length spine.old) }
        ensures same { SameSlices self.old self.new }
        ensures drew { DrewProgram program.now len (room_in self.old) (room_in self.new) result }
    {
        let mut nodes = [BLANK; NODES];
        let count = build(program, len, spine, &mut nodes).ok_or(Refusal::ManyNodes)?;
        self.draw_nodes(program, &nodes[..count as usize])
    }

    // From a pattern, whose program is written to the start of `program`.
    fn draw_pattern(
        &mut self,
        pattern: &[u8],
        program: &mut [u64],
        spine: &mut [u16],
    ) -> Result<Drawn, Refusal>
        requires { ProgramRoom pattern.now program.old × (length program.old ≡ length spine.old) }
        ensures same { SameSlices self.old self.new }
        ensures drew { Drew pattern.now (room_in self.old) (room_in self.new) result }
    {
        let len = read_pattern(pattern, program)?;
        self.draw_program(program, len, spine)
    }

    // With room for a program of so many words: there is no more to clear than what is asked for.
    fn draw_within<const WORDS: usize>(&mut self, pattern: &[u8]) -> Result<Drawn, Refusal>
        requires enough { length pattern.now ≤ pattern_most → 2 * length pattern.now + 1 ≤ WORDS }
        requires few { WORDS ≤ program_most }
        ensures same { SameSlices self.old self.new }
        ensures drew { Drew pattern.now (room_in self.old) (room_in self.new) result }
    {
        let mut program = [0u64; WORDS];
        let mut spine = [0u16; WORDS];
        self.draw_pattern(pattern, &mut program, &mut spine)
    }

    // The drawing, at the front of the lent cells and marks; what is past it, and the set words, are as the stages left them.
    fn draw(&mut self, pattern: &[u8]) -> Result<Drawn, Refusal>
        ensures same { SameSlices self.old self.new }
        ensures drew { Drew pattern.now (room_in self.old) (room_in self.new) result }
    {
        if pattern.len() <= SHORT_MOST {
            return self.draw_within::<SHORT_PROGRAM>(pattern);
        }
        self.draw_within::<PROGRAM_MOST>(pattern)
    }

    // Zeros past the first rows, and in all set words.
    fn keep(&mut self, rows: usize)
        requires { (256 * rows ≤ length self.old.cells.now) × (rows ≤ length self.old.marks.now) }
        ensures same { SameSlices self.old self.new }
        ensures kept { room_in self.new ≡ kept (room_in self.old) rows }
    {
        self.cells[256 * rows..].fill(0);
        self.marks[rows..].fill(0);
        self.sets.fill(0);
    }

    // The drawing, and zeros past it.
    #[tactic(auto, using(crate::proofs::OutcomeLaws::outcome))]
    fn compile(&mut self, pattern: &[u8]) -> Result<Drawn, Refusal>
        ensures same { SameSlices self.old self.new }
        ensures compiles { Compiles pattern.now (room_in self.old) (room_in self.new) result }
    {
        let answer = self.draw(pattern);
        self.keep(kept_rows(answer));
        answer
    }
}

// The rows that are kept: none of a refusal.
fn kept_rows(answer: Result<Drawn, Refusal>) -> usize
    ensures { result ≡ kept_rows answer }
{
    match answer {
        Ok(drawn) => drawn.rows as usize,
        Err(_) => 0,
    }
}

// Compiles the pattern. Of the room that is lent, all but the table is 0 afterwards.
pub fn compile(
    pattern: &[u8],
    cells: &mut [u16],
    marks: &mut [u8],
    sets: &mut [u64],
) -> Result<Drawn, Refusal>
    ensures { Compiles pattern.now (room cells.old marks.old sets.old) (room cells.new marks.new sets.new) result }
{
    let mut room = Room { cells, marks, sets };
    room.compile(pattern)
}
