// A record and its twelve bytes, low byte first. Cites `specs/Record.antt`.
//     RECORD_BYTES     how many bytes a record has
//     Record           a cluster with its weight and state
//     record_of        the record that twelve bytes hold
//     has_spare        whether one of the last three isn't zero
//     rule_of          the rule that a record breaks first
//     put_record       the bytes of a record, stored
ghost use Rattle.std.specs.Prelude.{◌≡◌, ◌++◌, ◌≤◌, length, drop};
ghost use Rattle.laws.specs.Limits.{narrow};
ghost use Rattle.cluster.specs.Record.{record_bytes, record_of, row_in, has_spare, bytes_of};
ghost use Rattle.cluster.specs.Rule.{broken_rule};

use crate::bytes::{put_word, word_at};
use crate::rule::{Rule, broken_rule};
use signed::{signed_of, unsigned_of};

// How many bytes a record has; the cluster stands first.
pub const RECORD_BYTES: usize = 12;

// Where the weight starts.
const WEIGHT_AT: usize = 4;

// Where the state stands.
const STATE_AT: usize = 8;

// Where the spare bytes start, which are the rest.
const SPARE_AT: usize = 9;

// A cluster with its score: bit b of the cluster is taxon b, and a state of 0 says that the cluster is unscored.
#[derive(Clone, Copy)]
pub struct Record {
    pub cluster: u32,
    pub weight: i32,
    pub state: u8,
}

// Whether a spare byte of a record is set.
pub(crate) fn has_spare(bytes: &[u8]) -> bool
    requires { length bytes.now ≡ record_bytes }
    ensures { result ≡ has_spare narrow bytes.now }
{
    bytes[SPARE_AT..].iter().any(|&byte| byte != 0)
}

// The record that twelve bytes hold, whether or not it keeps the rules.
pub(crate) fn record_of(bytes: &[u8]) -> Record
    requires { length bytes.now ≡ record_bytes }
    ensures { result ≡ record_of bytes.now }
{
    Record {
        cluster: word_at(bytes, 0),
        weight: signed_of(word_at(bytes, WEIGHT_AT)),
        state: bytes[STATE_AT],
    }
}

// The rule that a record breaks first, `spare` being whether a spare byte is set beside it.
pub(crate) fn rule_of(r: Record, spare: bool) -> Option<Rule>
    ensures { result ≡ broken_rule r.cluster r.weight r.state spare }
{
    broken_rule(r.cluster as u64, r.weight, r.state, spare)
}

// A record's bytes stored in the first twelve of a room.
pub(crate) fn put_record(r: Record, room: &mut [u8])
    requires { record_bytes ≤ length room.old }
    ensures { room.new ≡ bytes_of narrow (row_in r) ++ drop record_bytes room.old }
{
    put_word(room, 0, r.cluster);
    put_word(room, WEIGHT_AT, unsigned_of(r.weight));
    put_word(room, STATE_AT, r.state as u32);
}
