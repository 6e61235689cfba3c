// The program of a tree: its operations, each after its parts.
#![tactic(auto)]

ghost use Rattle.std.specs.Prelude.{◌≡◌, ◌+◌, ◌≤◌, ◌<◌, length};
ghost use Rattle.bytesets.specs.ByteSets.{bytes_of};
ghost use Rattle.program.specs.Program.{operation_of, atom_bytes, AtomAt, Puts, PutsClass};

use bytesets::ByteSet;
use kinds::PATTERN_MOST;
use signs::count::Repeat;

// The longest program: at most two words for each byte of a pattern, and one.
pub const PROGRAM_MOST: usize = 2 * PATTERN_MOST + 1;

#[derive(Clone, Copy)]
pub enum Op {
    Nothing,
    Head,
    Tail,
    Dot,
    // The four words before it are its bytes.
    Class,
    Byte(u8),
    // The length of the right part.
    InRow(u32),
    Either(u32),
    Repeated(Repeat),
}

// The word of an operation: its kind, and 16 times what it carries. Words and no list of Op: the four words of a class stand among them.
impl From<Op> for u64 {
    ghost from_gives = { λ op word. operation_of word ≡ op };

    #[tactic(auto, unfolding(crate::specs::Program::operation_of))]
    fn from(op: Op) -> u64 {
        match op {
            Op::Nothing => 0,
            Op::Head => 1,
            Op::Tail => 2,
            Op::Dot => 3,
            Op::Class => 4,
            Op::Byte(b) => 8 + 16 * (b as u64),
            Op::InRow(right) => 9 + 16 * (right as u64),
            Op::Either(right) => 10 + 16 * (right as u64),
            Op::Repeated(Repeat::Star) => 5,
            Op::Repeated(Repeat::Plus) => 6,
            Op::Repeated(Repeat::Maybe) => 7,
            Op::Repeated(Repeat::Times(m, more)) => 11 + 16 * (m as u64 + 65536 * (more as u64)),
            Op::Repeated(Repeat::AtLeast(m)) => 12 + 16 * (m as u64),
        }
    }
}

// The operation of a word.
impl From<u64> for Op {
    ghost from_gives = { λ word op. op ≡ operation_of word };

    #[tactic(auto, unfolding(crate::specs::Program::operation_of))]
    fn from(word: u64) -> Op {
        let value = word / 16;
        match word % 16 {
            0 => Op::Nothing,
            1 => Op::Head,
            2 => Op::Tail,
            3 => Op::Dot,
            4 => Op::Class,
            5 => Op::Repeated(Repeat::Star),
            6 => Op::Repeated(Repeat::Plus),
            7 => Op::Repeated(Repeat::Maybe),
            8 => Op::Byte((value % 256) as u8),
            9 => Op::InRow((value % 4294967296) as u32),
            10 => Op::Either((value % 4294967296) as u32),
            11 => Op::Repeated(Repeat::Times(
                (value % 65536) as u16,
                (value / 65536 % 65536) as u16,
            )),
            _ => Op::Repeated(Repeat::AtLeast((value % 65536) as u16)),
        }
    }
}

// Writes an operation at the place n.
pub fn put(program: &mut [u64], n: usize, op: Op)
    requires { n < length program.old }
    ensures { Puts program.old program.new n op }
{
    program[n] = u64::from(op);
}

// Writes the words of a set from the place n on, and the class.
pub fn put_class(program: &mut [u64], n: usize, set: ByteSet)
    requires { n + 5 ≤ length program.old }
    ensures { PutsClass program.old program.new n (bytes_of set) }
{
    program[n..n + 5].copy_from_slice(&[set.0, set.1, set.2, set.3, u64::from(Op::Class)]);
}

// The bytes of the atom whose operation stands at `at`: a byte, `.` or a class.
#[tactic(auto, unfolding(crate::specs::Program::atom_bytes))]
pub fn atom_set(program: &[u64], at: usize) -> ByteSet
    requires { AtomAt program.now at }
    ensures { bytes_of result ≡ atom_bytes program.now at }
{
    match Op::from(program[at]) {
        Op::Dot => ByteSet::none().rest(),
        Op::Class => ByteSet(
            program[at - 4],
            program[at - 3],
            program[at - 2],
            program[at - 1],
        ),
        Op::Byte(b) => ByteSet::none().with_range(b, b),
        _ => ByteSet::none(),
    }
}
