//! What the fields over bits share: codes add as their binary digits do, without a carry.
ghost use Rattle.std.specs.Prelude.{◌≡◌, ◌%◌, ◌<◌, bit_xor};

/// The sum of two codes, each given by any number that counts as it.
pub(crate) fn sum<const Q: u16>(a: u16, b: u16) -> u16
    requires { 0 < Q }
    ensures { result ≡ bit_xor (a % Q) (b % Q) }
{
    (a % Q) ^ (b % Q)
}
