// One record read out of its bytes. Cites `specs/Reading.antt`.
//     Reading         what reading gives
//     read_record     twelve bytes to a record
ghost use Rattle.std.specs.Prelude.{◌≡◌};
ghost use Rattle.std.specs.Prelude.{Err};
ghost use Rattle.answers.specs.Outcome.{outcome_of};
ghost use Rattle.cluster.specs.Reading.{reading_of, zero_record, read_record};

use crate::record::{RECORD_BYTES, Record, has_spare, record_of, rule_of};
use crate::rule::is_kept;
use answers::{Answer, Refusal};

// What reading one record gives: the record is all zero where the answer is a refusal.
// The answer stands beside it, and is no `Result` over it: the rules say what record is read on a refusal (`read_record` in `specs/`).
#[derive(Clone, Copy)]
pub struct Reading {
    pub answer: Answer,
    pub record: Record,
}

// A refused reading, whose record is all zero; `table` has the like for a build and a rescoring, with other values.
fn not_read(refusal: Refusal) -> Reading
    ensures { reading_of result ≡ outcome_of (Err refusal) zero_record }
{
    Reading {
        answer: Err(refusal),
        record: Record {
            cluster: 0,
            weight: 0,
            state: 0,
        },
    }
}

// The record of exactly twelve bytes that keeps the rules. Refused 2 at another length, then 5.
pub fn read_record(bytes: &[u8]) -> Reading
    ensures { reading_of result ≡ read_record bytes.now }
{
    if bytes.len() != RECORD_BYTES {
        return not_read(Refusal::WrongLength);
    }
    let record = record_of(bytes);
    let rule = rule_of(record, has_spare(bytes));
    if is_kept(rule) {
        return Reading {
            answer: Ok(0),
            record,
        };
    }
    not_read(Refusal::BadRecord(0))
}
