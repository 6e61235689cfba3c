// A set of bytes by value: 256 bits, the lowest word first.
#![tactic(auto)]

ghost use Rattle.std.specs.Prelude.{◌≡◌, ◌-◌, ◌^◌, ◌≤◌, min, eqb};
ghost use Rattle.rules.specs.Tools as sets;
ghost use Rattle.rules.specs.Tools.{range, with_all};
ghost use Rattle.rules.specs.Signs.{every_byte};
ghost use Rattle.bytesets.specs.ByteSets.{bytes_of, word_of, InWord};

#[derive(Clone, Copy, PartialEq, Eq)]
pub struct ByteSet(pub u64, pub u64, pub u64, pub u64);

// The bits below n, of which a word has 64.
fn bits_below(n: u16) -> u64
    ensures { result ≡ 2 ^ min n 64 - 1 }
{
    if n < 64 { (1u64 << n) - 1 } else { u64::MAX }
}

// Of the bytes lo to hi, those in the word that begins with the byte `first`.
fn bits_between(lo: u8, hi: u8, first: u16) -> u64
    requires { lo ≤ hi }
    ensures { InWord lo hi first result }
{
    bits_below((hi as u16 + 1).saturating_sub(first))
        - bits_below((lo as u16).saturating_sub(first))
}

impl ByteSet {
    pub fn none() -> ByteSet
        ensures { bytes_of result ≡ 0 }
    {
        ByteSet(0, 0, 0, 0)
    }

    pub fn with_range(self, lo: u8, hi: u8) -> ByteSet
        requires { lo ≤ hi }
        ensures { bytes_of result ≡ with_all (bytes_of self) (range lo hi) }
    {
        ByteSet(
            self.0 | bits_between(lo, hi, 0),
            self.1 | bits_between(lo, hi, 64),
            self.2 | bits_between(lo, hi, 128),
            self.3 | bits_between(lo, hi, 192),
        )
    }

    // All bytes but these.
    pub fn rest(self) -> ByteSet
        ensures { bytes_of result ≡ every_byte - bytes_of self }
    {
        ByteSet(!self.0, !self.1, !self.2, !self.3)
    }

    pub fn is_empty(self) -> bool
        ensures { result ≡ eqb (bytes_of self) 0 }
    {
        self == ByteSet::none()
    }

    fn word(self, k: u8) -> u64
        ensures { result ≡ word_of self k }
    {
        match k {
            0 => self.0,
            1 => self.1,
            2 => self.2,
            _ => self.3,
        }
    }

    // The class test: each question whether a byte is in a class is asked here.
    pub fn has(self, byte: u8) -> bool
        ensures { result ≡ sets.has (bytes_of self) byte }
    {
        (self.word(byte / 64) >> (byte % 64)) % 2 == 1
    }
}
