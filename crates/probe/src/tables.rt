// The operations on tables. Each reads its case and writes the answer; where the case isn't whole it gives `None`, and has written nothing.
//     answer_build       operation 3, build a table
//     answer_rescore     operation 4, rescore a table, time after time
//     answer_fit         operation 5, is the table fit
//     SCORE_BYTES        how many bytes a rescoring has
//     tell_build         writes the SENT of a build, and hands back the table
//     scores_room        a room for as many rescorings as a case can have
//     tell_rescores      writes the SENT of one rescoring after another, and hands back the table
ghost use Rattle.std.specs.Prelude.{◌≡◌, ◌+◌, ◌≤◌, length};

use crate::layout::{read_table, write_table};
use crate::stream::{LIST_CAP, read_array, read_part, write, write_sent};
use table::{Table, build, is_fit, rescore};

// How many bytes a rescoring has, and where its weight and state stand; the cluster stands first.
pub(crate) const SCORE_BYTES: usize = 13;

const WEIGHT_AT: usize = 8;

const STATE_AT: usize = 12;

// The bytes of 65,535 rescorings, the most that two bytes can count.
const SCORES_CAP: usize = 851955;

// Writes the SENT of a build, and hands back the table, which is all zero where the build is refused.
pub(crate) fn tell_build(rt: &HostRuntime, list: &[u8], degree: u32) -> Table {
    let built = build(list, degree);
    write_sent(rt, built.answer);
    built.table
}

pub(crate) fn answer_build(rt: &HostRuntime) -> Option<()> {
    let degree = u32::from_le_bytes(read_array(rt)?);
    let mut bytes = [0u8; LIST_CAP];
    let list = read_part(rt, &mut bytes, 1)?;
    write_table(rt, &tell_build(rt, list, degree));
    Some(())
}

// A room for the rescorings of a case. It is made here alone, since a proof counts out the length of an array that it sees made.
pub(crate) fn scores_room() -> [u8; SCORES_CAP]
    ensures { 851955 ≡ length result }
{
    [0; SCORES_CAP]
}

// The bytes from a place, as many as the array has.
fn array_at<const N: usize>(bytes: &[u8], at: usize) -> [u8; N]
    requires { at + N ≤ length bytes.now }
{
    *bytes[at..].first_chunk().unwrap()
}

// Writes the SENT of the rescorings, one after another, and hands back the table after the last.
pub(crate) fn tell_rescores(rt: &HostRuntime, given: Table, scores: &[u8]) -> Table {
    let mut t = given;
    for score in scores.as_chunks::<SCORE_BYTES>().0 {
        let cluster = u64::from_le_bytes(array_at(score, 0));
        let weight = i32::from_le_bytes(array_at(score, WEIGHT_AT));
        let changed = rescore(t, cluster, weight, score[STATE_AT]);
        write_sent(rt, changed.answer);
        t = changed.table;
    }
    t
}

pub(crate) fn answer_rescore(rt: &HostRuntime) -> Option<()> {
    let given = read_table(rt)?;
    let mut bytes = scores_room();
    let scores = read_part(rt, &mut bytes, SCORE_BYTES)?;
    write_table(rt, &tell_rescores(rt, given, scores));
    Some(())
}

pub(crate) fn answer_fit(rt: &HostRuntime) -> Option<()> {
    let t = read_table(rt)?;
    write(rt, &[u8::from(is_fit(t))]);
    Some(())
}
