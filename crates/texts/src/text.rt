// A text in the making. Cites `specs/Text.antt`.
//     TEXT_CAP        bytes that a text has room for
//     Text            bytes, and how many of them there are
//     empty           a text of no bytes
ghost use Rattle.std.specs.Prelude.{◌≡◌, []};
ghost use Rattle.texts.specs.Text.{holding};

// Bytes that a text has room for.
pub(crate) const TEXT_CAP: usize = 172;

// The first `size` bytes are the text; the others are zero.
// A room and how much of it is used, and no vector: `add` and `add_decimal` promise what they add to every value of the struct, whatever its
// size (rows of `OneOutcome`), and a vector has fewer values.
#[derive(Clone, Copy)]
pub struct Text {
    pub bytes: [u8; TEXT_CAP],
    pub size: usize,
}

// A text of no bytes.
pub fn empty() -> Text
    ensures { result ≡ holding [] }
{
    Text {
        bytes: [0; TEXT_CAP],
        size: 0,
    }
}
