// Sets of numbers in lent words of 64 bits: x is in if bit x % 64 of word x / 64 is 1.
#![tactic(auto)]

ghost use Rattle.std.specs.Prelude.{◌≡◌, ◌+◌, ◌*◌, ◌≤◌, ◌<◌, length, replicate};
ghost use Rattle.sets.specs.Sets.{member, put_in, AllIn};

// The highest bit of a word.
pub const TOP_BIT: u64 = 1 << 63;

// Whether x is in.
#[tactic(auto, unfolding(crate::specs::Sets::member))]
pub fn test(set: &[u64], x: usize) -> bool
    requires { x < 64 * length set.now }
    ensures { result ≡ member set.now x }
{
    (set[x / 64] >> (x % 64)) % 2 == 1
}

// Puts x in.
#[tactic(auto, unfolding(crate::specs::Sets::put_in))]
pub fn put(set: &mut [u64], x: usize)
    requires { x < 64 * length set.old }
    ensures { set.new ≡ put_in set.old x }
{
    let i = x / 64;
    set[i] |= 1 << (x % 64);
}

// Puts in every member of the set that the words from `start` on hold.
#[tactic(auto, using(crate::proofs::SetLaws::joined_more, crate::proofs::SetLaws::joined_all))]
pub fn put_all(set: &mut [u64], words: &[u64], start: usize)
    requires { start + length set.old ≤ length words.now }
    ensures { AllIn set.old words.now start set.new }
{
    for (i, word) in set.iter_mut().enumerate() {
        *word |= words[start + i];
    }
}
