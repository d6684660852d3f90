// One record written into a room. Cites `specs/Writing.antt`.
//     write_record     a record to twelve bytes
ghost use Rattle.std.specs.Prelude.{◌≡◌};
ghost use Rattle.answers.specs.Outcome.{outcome_of};
ghost use Rattle.cluster.specs.Writing.{write_record};

use crate::record::{RECORD_BYTES, Record, put_record, rule_of};
use crate::rule::is_kept;
use answers::{Answer, Refusal};

// A record that keeps the rules, written into the first twelve bytes of a room; the answer tells twelve. Refused 5 for a record
// that breaks a rule, then 11 for a shorter room, which is left as it was.
pub fn write_record(r: Record, room: &mut [u8]) -> Answer
    ensures { outcome_of result room.new ≡ write_record r room.old }
{
    let rule = rule_of(r, false);
    if !is_kept(rule) {
        return Err(Refusal::BadRecord(0));
    }
    if room.len() < RECORD_BYTES {
        return Err(Refusal::NoRoom);
    }
    put_record(r, room);
    Ok(RECORD_BYTES)
}
