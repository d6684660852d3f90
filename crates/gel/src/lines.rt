// The lines of a gel sheet, and the first at fault. Cites `specs/Lines.antt` and `specs/Form.antt`.
//     NOUGHT, UNREAD       two of the marks
//     is_mark, are_marks   a byte is 0, 1 or ?; all of them are
//     first_width          how many marks a sheet starts with
//     is_line              bytes are so many marks and the end of a line
//     Sheet, Sheet::read   a sheet with no line at fault; or else the first that is
ghost use Rattle.std.specs.Prelude.{◌≡◌, ◌<◌, MatchResult};
ghost use Rattle.std.specs.List.{prefix_len};
ghost use Rattle.laws.specs.Lists.{every};
ghost use Rattle.gel.specs.Lines.{is_mark};
ghost use Rattle.gel.specs.Form.{is_line, Formed, FaultAt};

// The marks of a sheet, and what ends a line.
pub(crate) const NOUGHT: u8 = b'0';

const ONE: u8 = b'1';

pub(crate) const UNREAD: u8 = b'?';

const LINE_END: u8 = b'\n';

// The most lines of a sheet, and the most marks of a line.
const MOST_LINES: usize = 32;

const MOST_COLUMNS: usize = 128;

// Whether a byte is a mark.
fn is_mark(byte: u8) -> bool
    ensures { result ≡ is_mark byte }
{
    matches!(byte, NOUGHT | ONE | UNREAD)
}

// Whether all bytes are marks. All are looked at, whatever is found: with no second way out of the loop, many bytes are tested at once.
fn are_marks(bytes: &[u8]) -> bool
    ensures { result ≡ every is_mark bytes.now }
{
    bytes
        .iter()
        .fold(true, |whole, byte| whole & is_mark(*byte))
}

// How many marks a sheet starts with.
fn first_width(bytes: &[u8]) -> usize
    ensures { result ≡ prefix_len is_mark bytes.now }
{
    bytes.iter().take_while(|byte| is_mark(**byte)).count()
}

// Whether these bytes are `width` marks and the end of a line.
fn is_line(bytes: &[u8], width: usize) -> bool
    ensures { result ≡ is_line bytes.now width }
{
    match bytes.split_last() {
        Some((end, marks)) => marks.len() == width && *end == LINE_END && are_marks(marks),
        None => false,
    }
}

// A sheet with no line at fault, and how many lines it has of how many marks.
#[derive(Clone, Copy)]
pub(crate) struct Sheet<'a> {
    pub(crate) bytes: &'a [u8],
    pub(crate) lines: usize,
    pub(crate) width: usize,
    ghost formed: { Formed bytes.now lines width },
}

impl<'a> Sheet<'a> {
    // The sheet of these bytes, or its first line at fault. Where line 0 has no marks or too many, it is the one.
    pub(crate) fn read(bytes: &'a [u8]) -> Result<Sheet<'a>, usize>
        ensures { MatchResult result (λ sheet. sheet.bytes.now ≡ bytes.now) (FaultAt bytes.now) }
    {
        let width = first_width(bytes);
        if width == 0 || MOST_COLUMNS < width {
            return Err(0);
        }
        for (i, line) in bytes.chunks(width + 1).enumerate() {
            if i == MOST_LINES || !is_line(line, width) {
                return Err(i);
            }
        }
        Ok(Sheet {
            bytes,
            lines: bytes.len() / (width + 1),
            width,
        })
    }
}
