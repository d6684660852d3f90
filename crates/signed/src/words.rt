// Signed numbers of 32 bits. Cites the kit's `to_z` and `of_z`.
//     signed_of       the signed number of 32 bits
//     unsigned_of     the 32 bits of a signed number
ghost use Rattle.std.specs.Prelude.{◌≡◌};
ghost use Rattle.std.specs.Int.{w32};
ghost use Rattle.std.proofs.Common.{to_z, of_z};

// The signed number that 32 bits stand for in two's complement.
pub fn signed_of(n: u32) -> i32
    ensures { result ≡ to_z w32 n }
{
    n.cast_signed()
}

// The 32 bits of a signed number in two's complement.
pub fn unsigned_of(z: i32) -> u32
    ensures { result ≡ of_z w32 z }
{
    z.cast_unsigned()
}
