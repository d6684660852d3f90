// The records of a list, read by their positions. Cites `specs/Read.antt`.
//     Records       the records by their positions
//     read_all      the records of a list, unless one breaks the rules
ghost use Rattle.lists.specs.Read.{Whole, ReadTo};

use answers::Refusal;
use cluster::{RECORD_BYTES, read_record};

// Element i of each array is record i.
#[derive(Clone, Copy)]
pub(crate) struct Records {
    pub(crate) clusters: [u64; 128],
    pub(crate) weights: [i32; 128],
    pub(crate) states: [u8; 128],
}

// The records of a list of whole records. Refused 5 at the first that breaks the record rules.
pub(crate) fn read_all(list: &[u8]) -> Result<Records, Refusal>
    requires { Whole list.now }
    ensures { ReadTo list.now result }
{
    let mut records = Records {
        clusters: [0; 128],
        weights: [0; 128],
        states: [0; 128],
    };
    for (i, bytes) in list.chunks_exact(RECORD_BYTES).enumerate() {
        let reading = read_record(bytes);
        if let Err(_) = reading.answer {
            return Err(Refusal::BadRecord(i));
        }
        records.clusters[i] = u64::from(reading.record.cluster);
        records.weights[i] = reading.record.weight;
        records.states[i] = reading.record.state;
    }
    Ok(records)
}
