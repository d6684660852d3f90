// Lists of records, read and refused. Cites `specs/Listing.antt`.
//     Listing        what reading a list gives
//     arranged       the rows of records put in order
//     read_list      a list of records to its rows
//     check_list     why a list is refused
ghost use Rattle.std.specs.Prelude.{◌≡◌, [], length};
ghost use Rattle.laws.specs.Limits.{narrow};
ghost use Rattle.std.specs.Prelude.{Ok, Err};
ghost use Rattle.answers.specs.Outcome.{outcome_of};
ghost use Rattle.answers.specs.Refusal.{sent_of};
ghost use Rattle.lists.specs.Listing.{listed, listing_of, read_list};
ghost use Rattle.lists.specs.Read.{row_from};
ghost use Rattle.lists.specs.Order.{Within, through};

use crate::order::ordered;
use crate::records::{Records, read_all};
use answers::{Answer, Refusal};
use cluster::RECORD_BYTES;

// The longest list: 128 records.
const LIST_BYTES: usize = 1536;

// What reading a list gives: how many rows, and the rows in ascending order of their clusters; all zero past them.
// The columns are those of a table, whose form the rules name, so that a build takes them over as they stand.
#[derive(Clone, Copy)]
pub struct Listing {
    pub rows: usize,
    pub clusters: [u64; 128],
    pub weights: [i32; 128],
    pub states: [u8; 128],
}

// The rows of records in the order of `places`.
fn arranged(records: &Records, places: &[u8]) -> Listing
    requires { Within places.now (length places.now) }
    ensures { listing_of (Ok result) ≡ outcome_of (Ok 0) (listed (through (row_from records.now) places.now (length places.now))) }
{
    let mut listing = Listing {
        rows: places.len(),
        clusters: [0; 128],
        weights: [0; 128],
        states: [0; 128],
    };
    for (i, &place) in places.iter().enumerate() {
        let at = usize::from(place);
        listing.clusters[i] = records.clusters[at];
        listing.weights[i] = records.weights[at];
        listing.states[i] = records.states[at];
    }
    listing
}

// The rows of a list of records, in ascending order. Refused 1, 3, 2, 5, 6 in that order.
pub fn read_list(list: &[u8]) -> Result<Listing, Refusal>
    ensures { listing_of result ≡ read_list narrow list.now }
{
    if list.is_empty() {
        return Err(Refusal::NoBytes);
    }
    if LIST_BYTES < list.len() {
        return Err(Refusal::TooLong);
    }
    if list.len() % RECORD_BYTES != 0 {
        return Err(Refusal::WrongLength);
    }
    let n = list.len() / RECORD_BYTES;
    let records = read_all(list)?;
    let places = ordered(&records.clusters, n)?;
    Ok(arranged(&records, &places[..n]))
}

// Why a list is refused, as reading it tells.
pub fn check_list(list: &[u8]) -> Answer
    ensures { sent_of result ≡ (read_list narrow list.now).sent }
{
    read_list(list).map(|_| 0)
}
