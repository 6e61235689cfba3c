// Texts of a table, piece by piece, written into a lent buffer. What is past the buffer's end is only counted.
#![tactic(auto)]

ghost use Rattle.std.specs.Prelude.{◌≡◌, true, ℕ, [], ◌∷◌, ◌+◌, ◌^◌, ◌<◌, ◌-◌, leb, length};
ghost use Rattle.rules.specs.Answers.{given};
ghost use Rattle.rules.specs.Listing.{decimal};
ghost use Rattle.writing.specs.Writing.{WritesFrom, Puts};
ghost use Rattle.writing.specs.Runs.{RunEnds};
ghost use Rattle.answers.specs.Answers.{written_of, text_of};

use answers::Written;
use kinds::Refusal;

pub mod runs;

// One byte at a place, and the place after it. The largest place stays as it is, and then nothing is promised.
fn put_at(out: &mut [u8], at: usize, b: u8) -> usize
    ensures { WritesFrom out.old at (b ∷ []) out.new result }
{
    if at < out.len() {
        out[at] = b;
        return at + 1;
    }
    at.saturating_add(1)
}

// A number in decimal from a place on, and the place after it: its tenth part first, then the last digit. The place is handed on and
// back as a number, so that it stays in a register.
fn put_digits(out: &mut [u8], at: usize, n: u32) -> usize
    ensures { WritesFrom out.old at (decimal n) out.new result }
{
    if n < 10 {
        return put_at(out, at, b'0' + n as u8);
    }
    let next = put_digits(out, at, n / 10);
    put_at(out, next, b'0' + (n % 10) as u8)
}

// A lent buffer, and the place that the next byte goes to.
#[derive(Drop)]
pub struct Page<'b> {
    pub out: &'b mut [u8],
    pub at: usize,
}

impl<'b> Page<'b> {
    // At the buffer's start.
    pub fn on(out: &'b mut [u8]) -> Page<'b>
        ensures same_reference { result.out.ghost_name ≡ out.entry.ghost_name }
        ensures buffer { result.out.now ≡ out.old }
        ensures start { result.at ≡ 0 }
    {
        Page { out, at: 0 }
    }

    // One byte.
    pub fn put(&mut self, b: u8)
        ensures { Puts self.old (b ∷ []) self.new }
    {
        self.at = put_at(self.out, self.at, b);
    }

    // The bytes of a text.
    pub fn put_all(&mut self, text: &[u8])
        ensures { Puts self.old text.now self.new }
    {
        for b in text {
            self.put(*b);
        }
    }

    // A number in decimal.
    pub fn put_number(&mut self, n: u32)
        ensures { Puts self.old (decimal n) self.new }
    {
        self.at = put_digits(self.out, self.at, n);
    }

    // What was written of a text that began at the buffer's start.
    pub fn written(&self) -> Written
        requires { self.now.at < 2 ^ 32 }
        ensures { written_of result ≡ (leb self.now.at (length self.now.out.now), self.now.at) }
    {
        let length = self.at as u32;
        if self.at <= self.out.len() {
            Written::Whole(length)
        } else {
            Written::Beginning(length)
        }
    }
}

// How long a text is that stands whole in the buffer; 0 of any other.
pub fn whole_length(text: Result<Written, Refusal>) -> usize
    ensures { (n : ℕ) → text_of text ≡ given (true, n) → result ≡ n }
{
    match text {
        Ok(Written::Whole(n)) => n as usize,
        Ok(Written::Beginning(_)) | Err(_) => 0,
    }
}
