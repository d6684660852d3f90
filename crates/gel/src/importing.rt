// A gel sheet imported. Cites `specs/Import.antt` and `specs/Tally.antt`.
//     Import         what importing a sheet gives
//     record_of      the record of a key
//     put_rows       the records of keys, written into a room
//     import_sheet   a sheet to the list of its clusters
//     unread_of      how many columns have a ?, whether or not the sheet is refused
ghost use Rattle.std.specs.Prelude.{◌≡◌, ◌*◌, ◌≤◌, length};
ghost use Rattle.laws.specs.Limits.{narrow};
ghost use Rattle.answers.specs.Outcome.{put_into};
ghost use Rattle.cluster.specs.Record.{record_bytes, row_in};
ghost use Rattle.lists.specs.Accepted.{bytes_of_rows};
ghost use Rattle.gel.specs.Import.{import_of, import_sheet, unread_of};
ghost use Rattle.gel.specs.Tally.{Key, Keys, row_of_key, rows_of_keys};

use crate::lines::Sheet;
use crate::tally::{KEY_UNIT, Tally};
use answers::Refusal;
use cluster::{RECORD_BYTES, Record, SCORED, write_record};

// The most records of a list.
const MOST_RECORDS: usize = 128;

// What importing a sheet gives: how many records were written, and how many columns have a ?.
#[derive(Clone, Copy)]
pub struct Import {
    pub records: usize,
    pub unread: usize,
}

// The record of a key.
fn record_of(key: u64) -> Record
    requires { Key key }
    ensures { row_in result ≡ row_of_key key }
{
    Record {
        cluster: (key / KEY_UNIT) as u32,
        weight: (key % KEY_UNIT) as i32,
        state: SCORED,
    }
}

// The records of the keys, one after the other from the start of a room.
fn put_rows(keys: &[u64], room: &mut [u8])
    requires { Keys keys.now × (length keys.now * record_bytes ≤ length room.old) }
    ensures { room.new ≡ put_into (bytes_of_rows narrow (rows_of_keys keys.now)) room.old }
{
    // By place: once the pieces of `chunks_exact_mut` are written, a proof knows the length of the room, not what it holds.
    for (i, key) in keys.iter().enumerate() {
        let at = i * RECORD_BYTES;
        // never refused: the record of a key keeps the rules, and has its room
        let _ = write_record(record_of(*key), &mut room[at..at + RECORD_BYTES]);
    }
}

// The list of the clusters of a sheet, at the start of a room. Refused 12 with the first line at fault, then 13 for more than 128
// clusters, then 11; the room is then left as it was.
pub fn import_sheet(sheet: &[u8], room: &mut [u8]) -> Result<Import, Refusal>
    ensures { import_of result room.new ≡ import_sheet sheet.now room.old }
{
    let sheet = Sheet::read(sheet).map_err(Refusal::BadSheet)?;
    let tally = Tally::of(&sheet);
    let records = tally.keys.len();
    if MOST_RECORDS < records {
        return Err(Refusal::ManyClusters);
    }
    if room.len() < records * RECORD_BYTES {
        return Err(Refusal::NoRoom);
    }
    put_rows(&tally.keys, room);
    Ok(Import {
        records,
        unread: tally.unread,
    })
}

// How many columns have a ?, as what came of a sheet tells it: 0 where the sheet is refused.
pub fn unread_of(import: Result<Import, Refusal>) -> usize
    ensures { result ≡ unread_of import }
{
    import.map_or(0, |import| import.unread)
}
