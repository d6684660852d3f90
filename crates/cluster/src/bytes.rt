// Words of four bytes, low byte first. Cites `specs/Bytes.antt`.
//     word_at         the number of the four bytes from a place
//     put_word        a number stored as the four bytes from a place
ghost use Rattle.std.specs.Prelude.{◌≡◌, [], ◌∷◌, ◌+◌, ◌≤◌, length};
ghost use Rattle.std.proofs.lemmas.List.Edits.{sets};
ghost use Rattle.cluster.specs.Bytes.{word_bytes, number_at, low_first};

// The number of the four bytes from `at`, low byte first.
pub(crate) fn word_at(bytes: &[u8], at: usize) -> u32
    requires { at + word_bytes ≤ length bytes.now }
    ensures { result ≡ number_at word_bytes bytes.now at }
{
    u32::from_le_bytes([bytes[at], bytes[at + 1], bytes[at + 2], bytes[at + 3]])
}

// `n` stored as the four bytes from `at`, low byte first.
pub(crate) fn put_word(room: &mut [u8], at: usize, n: u32)
    requires { at + word_bytes ≤ length room.old }
    ensures { room.new ≡ sets room.old at (low_first word_bytes n) }
{
    room[at..at + 4].copy_from_slice(&n.to_le_bytes());
}
