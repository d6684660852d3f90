// Thin functions for programs in other languages, to measure with: a table is too large to hand over, so a digest of it is handed back; a
// room is the caller's, and its records are told. The crate `digests_c` exports them. Cites `specs/Digest.antt` and `specs/Told.antt`.
//     ladlepine_build       the digest of a built table
//     ladlepine_rescore     the digest of a built table after a number of rescorings of one cluster
//     ladlepine_import      how many records importing a gel sheet writes into a room
#![tactic(auto)]

ghost use Rattle.std.specs.Prelude.{◌≡◌, ◌<◌};
ghost use Rattle.laws.specs.Limits.{narrow, row_cap};
ghost use Rattle.table.specs.Build.{build_table};
ghost use Rattle.gel.specs.Import.{import_sheet};
ghost use Rattle.digests.specs.Digest.{row_digest_at, results_of, digest, rescored_times};
ghost use Rattle.digests.specs.Told.{told_of};

use gel::import_sheet;
use kept::ROW_CAP;
use signed::unsigned_long_of;
use table::{Table, build, rescore};

// The results of one row added up, past 64 bits from the start again.
fn row_digest(t: &Table, row: usize) -> u64
    requires { row < row_cap }
    ensures { result ≡ row_digest_at (results_of t.now) row }
{
    let counts = t.lengths[row].wrapping_add(t.counts[row]);
    let members = t.members_low[row].wrapping_add(t.members_high[row]);
    let rest = u64::from(t.marks[row]).wrapping_add(unsigned_long_of(t.bests[row]));
    counts.wrapping_add(members).wrapping_add(rest)
}

// The results of all rows added up.
#[tactic(auto, unfolding(crate::specs::Digest::digest_to))]
fn digest_of(t: &Table) -> u64
    ensures { result ≡ digest t.now }
{
    let mut sum = 0u64;
    for row in 0..ROW_CAP {
        sum = sum.wrapping_add(row_digest(t, row));
    }
    sum
}

// The digest of the table that a build of `list` hands back.
pub fn ladlepine_build(list: &[u8], degree: u32) -> u64
    ensures { result ≡ digest (build_table narrow list.now degree).given }
{
    digest_of(&build(list, degree).table)
}

// The digest of the table that a build of `list` hands back, after `times` rescorings of `cluster` to the same weight and state.
#[tactic(auto, unfolding(crate::specs::Digest::rescored_times))]
pub fn ladlepine_rescore(
    list: &[u8],
    degree: u32,
    cluster: u64,
    weight: i32,
    state: u8,
    times: u32,
) -> u64
    ensures { result ≡ digest (rescored_times times cluster weight state (build_table narrow list.now degree).given) }
{
    let mut t = build(list, degree).table;
    for _ in 0..times {
        t = rescore(t, cluster, weight, state).table;
    }
    digest_of(&t)
}

// The records of the clusters of `sheet`, written at the start of `room`, and how many they are; 0 where the sheet is refused.
pub fn ladlepine_import(sheet: &[u8], room: &mut [u8]) -> u64
    ensures { (result, room.new) ≡ told_of (import_sheet sheet.now room.old) }
{
    match import_sheet(sheet, room) {
        Ok(import) => import.records as u64,
        Err(_) => 0,
    }
}
