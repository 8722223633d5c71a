//! The hash FNV-1a of 64 bits.
ghost use Rattle.std.specs.Prelude.{◌≡◌};
ghost use Rattle.text_parts.specs.Hash.{mixed, text_hash, with_bytes};

/// The hash of no byte, with which each hash begins.
pub const FNV_BASIS: u64 = 14_695_981_039_346_656_037;

/// The number by which the hash is multiplied for each byte.
const PRIME: u64 = 1_099_511_628_211;

/// The hash of a text.
#[tactic(auto, unfolding(crate::specs::Hash::text_hash))]
pub fn fnv_hash(text: &[u8]) -> u64
    ensures { result ≡ text_hash text.now }
{
    fnv_mix_bytes(FNV_BASIS, text)
}

/// A hash, and then some bytes.
pub fn fnv_mix_bytes(hash: u64, bytes: &[u8]) -> u64
    ensures { result ≡ with_bytes hash bytes.now }
{
    let mut all = hash;
    for byte in bytes {
        all = fnv_mix(all, u64::from(*byte));
    }
    all
}

/// A hash, and then a byte, or a number over 255 that marks where a part of a key ends: no byte is
/// such a number, so keys of several parts that are put together alike differ.
#[tactic(auto, unfolding(crate::specs::Hash::mixed))]
pub fn fnv_mix(hash: u64, word: u64) -> u64
    ensures { result ≡ mixed hash word }
{
    (hash ^ word).wrapping_mul(PRIME)
}
