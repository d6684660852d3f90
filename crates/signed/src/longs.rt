// Signed numbers of 64 bits. Cites the kit's `to_z` and `of_z`.
//     signed_long_of       the signed number of 64 bits
//     unsigned_long_of     the 64 bits of a signed number
ghost use Rattle.std.specs.Prelude.{◌≡◌};
ghost use Rattle.std.specs.Int.{w64};
ghost use Rattle.std.proofs.Common.{to_z, of_z};

// The signed number that 64 bits stand for in two's complement.
pub fn signed_long_of(n: u64) -> i64
    ensures { result ≡ to_z w64 n }
{
    n.cast_signed()
}

// The 64 bits of a signed number in two's complement.
pub fn unsigned_long_of(z: i64) -> u64
    ensures { result ≡ of_z w64 z }
{
    z.cast_unsigned()
}
