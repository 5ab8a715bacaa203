//! Which chain a key is in.

ghost use Rattle.std.specs.Prelude.{◌≡◌, ◌<◌, length};
ghost use Rattle.byteorder.specs.Endian.{little_number};
ghost use Rattle.map_indexes.specs.Hashing.{mixed, hash_of as the_hash_of, chain_of as the_chain_of};

use byteorder::{ByteOrder, LittleEndian};

const SPREAD: u64 = 0xd6e8_feb8_6659_fd93;

#[inline(always)]
fn mixed(hash: u64, word: u64) -> u64
    ensures { result ≡ mixed hash word }
{
    hash.wrapping_add(word).wrapping_mul(SPREAD)
}

// The number in fewer than four bytes, the lowest first.
fn last_word(bytes: &[u8]) -> u64
    requires { length bytes.now < 4 }
    ensures { result ≡ little_number 4 bytes.now }
{
    match bytes {
        [] => 0,
        [a] => u64::from(*a),
        [a, b] => u64::from(*a) + 256 * u64::from(*b),
        [a, b, c, ..] => u64::from(*a) + 256 * (u64::from(*b) + 256 * u64::from(*c)),
    }
}

fn hash_of(key: &[u8]) -> u64
    ensures { result ≡ the_hash_of key.now }
{
    let mut hash = 0u64;
    let mut rest = key;
    while rest.len() >= 4 {
        hash = mixed(hash, u64::from(LittleEndian::read_u32(rest)));
        rest = &rest[4..];
    }
    if rest.is_empty() {
        hash
    } else {
        mixed(hash, last_word(rest))
    }
}

/// The chain of a key, among this number of chains.
pub fn chain_of(key: &[u8], chains: u32) -> u32
    requires { 0 < chains }
    ensures chain { result ≡ the_chain_of key.now chains }
    ensures in_range { result < chains }
{
    let upper = hash_of(key) >> 32;
    ((upper * u64::from(chains)) >> 32) as u32
}
