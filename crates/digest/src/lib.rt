// A small digest of a text, for the digest job.
#![tactic(auto)]

ghost use Rattle.std.specs.Prelude.{◌≡◌};
ghost use Rattle.digest.specs.Digest.{digest};

// The prime 2^56 - 5: what is below it, times 256 and a byte more, has 64 bits.
const MODULUS: u64 = 72_057_594_037_927_931;

// The bytes as the digits of a number in base 256 that begins with 1, modulo `MODULUS`.
pub fn digest(text: &[u8]) -> u64
    ensures { result ≡ digest text.now }
{
    let mut remainder = 1;
    for b in text {
        remainder = (256 * remainder + u64::from(*b)) % MODULUS;
    }
    remainder
}
