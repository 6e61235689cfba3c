// Numbers mixed, and the bucket of what is mixed.
#![tactic(auto)]

ghost use Rattle.std.specs.Prelude.{◌≡◌, ◌<◌};
ghost use Rattle.mixing.specs.Mixing.{buckets, mixed, bucket_for};

pub const BUCKETS: usize = 1024;

// A number mixed; there is room above it for a small one more.
#[tactic(auto, using(crate::proofs::MixingLaws::mixed_lt))]
pub fn mix(h: u64) -> u64
    ensures { (result ≡ mixed h) × (result < 17293822569102704640) }
{
    h % 4294967296 * 2654435761 + h / 4294967296
}

// The bucket of what is mixed.
pub fn bucket_of(h: u64) -> usize
    ensures { (result ≡ bucket_for h) × (result < buckets) }
{
    (mix(h) / 4294967296) as usize % BUCKETS
}
