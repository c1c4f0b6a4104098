// Bytes of a u64.
ghost use Rattle.std.specs.Prelude.{◌≡◌, ◌+◌, ◌*◌, ◌^◌, ◌<◌};
ghost use Rattle.transposition.specs.Matrix.{byte, HasBytes};

// Byte k.
pub fn byte_of(x: u64, k: usize) -> u8
    requires { k < 8 }
    ensures { result ≡ byte k x }
{
    ((x >> (8 * k)) % 256) as u8
}

// A number of k bytes with one more above them.
pub fn with_byte(x: u64, k: usize, b: u8) -> u64
    requires { (k < 8) × (x < 256 ^ k) }
    ensures { (result ≡ x + b * 256 ^ k) × (result < 256 ^ (k + 1)) }
{
    x + ((b as u64) << (8 * k))
}

// A byte in every place.
pub fn repeated(b: u8) -> u64
    ensures { HasBytes result (λ k. b) }
{
    (b as u64) * 0x0101_0101_0101_0101
}
