// The functions of `digests` as a static library, for programs in other languages to call under C names. Each promises what it promises
// there. The two stand apart because a crate is a library, which `demands` cites, or a static library, which C links.
//     ladlepine_build       the digest of a built table
//     ladlepine_rescore     the digest of a built table after a number of rescorings of one cluster
//     ladlepine_import      how many records importing a gel sheet writes into a room
#![tactic(auto)]

ghost use Rattle.std.specs.Prelude.{◌≡◌};
ghost use Rattle.laws.specs.Limits.{narrow};
ghost use Rattle.table.specs.Build.{build_table};
ghost use Rattle.gel.specs.Import.{import_sheet};
ghost use Rattle.digests.specs.Digest.{digest, rescored_times};
ghost use Rattle.digests.specs.Told.{told_of};

// The digest of the table that a build of `list` hands back.
#[unsafe(no_mangle)]
pub extern "C" fn ladlepine_build(list: &[u8], degree: u32) -> u64
    ensures { result ≡ digest (build_table narrow list.now degree).given }
{
    digests::ladlepine_build(list, degree)
}

// The digest of the table that a build of `list` hands back, after `times` rescorings of `cluster` to the same weight and state.
#[unsafe(no_mangle)]
pub extern "C" fn ladlepine_rescore(
    list: &[u8],
    degree: u32,
    cluster: u64,
    weight: i32,
    state: u8,
    times: u32,
) -> u64
    ensures { result ≡ digest (rescored_times times cluster weight state (build_table narrow list.now degree).given) }
{
    digests::ladlepine_rescore(list, degree, cluster, weight, state, times)
}

// The records of the clusters of `sheet`, written at the start of `room`, and how many they are; 0 where the sheet is refused.
#[unsafe(no_mangle)]
pub extern "C" fn ladlepine_import(sheet: &[u8], room: &mut [u8]) -> u64
    ensures { (result, room.new) ≡ told_of (import_sheet sheet.now room.old) }
{
    digests::ladlepine_import(sheet, room)
}
