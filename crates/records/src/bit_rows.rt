// Rows of bits in bytes.
ghost use Rattle.std.specs.Prelude.{◌≡◌};
ghost use Rattle.records.specs.BitRows.{row_width};

// The bits of a byte.
pub const BYTE_BITS: usize = 8;

// The bytes of a row of n bits.
pub fn row_width(n: usize) -> usize
    ensures { result ≡ row_width n }
{
    n / BYTE_BITS + (n % BYTE_BITS + (BYTE_BITS - 1)) / BYTE_BITS
}
