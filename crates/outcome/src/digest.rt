ghost use Rattle.std.specs.Prelude.{◌≡◌};
ghost use Rattle.outcome.specs.Digests.{taken, taken_word, digest_from, start};

/// The digest of nothing.
const START: u64 = 0xCBF2_9CE4_8422_2325;

/// The number by which each byte multiplies a digest.
const PRIME: u64 = 0x100_0000_01B3;

/// A digest with one more byte taken in.
fn take_byte(digest: u64, byte: u8) -> u64
    ensures { result ≡ taken digest byte }
{
    (digest ^ u64::from(byte)).wrapping_mul(PRIME)
}

/// A digest with one more halfword taken in, its high byte first.
fn take_word(digest: u64, word: u16) -> u64
    ensures { result ≡ taken_word digest word }
{
    let [high, low] = word.to_be_bytes();
    take_byte(take_byte(digest, high), low)
}

/// The 64-bit FNV-1a digest of the bytes of halfwords, the high byte of each first.
pub fn store_digest(words: &[u16]) -> u64
    ensures { result ≡ digest_from start words.now }
{
    words.iter().copied().fold(START, take_word)
}
