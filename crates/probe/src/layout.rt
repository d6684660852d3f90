// TABLE of docs/PROBE.md: every field of a table as it stands, one after the other, each column whole.
//     TABLE_BYTES      how many bytes a table has
//     next_longs       the column to come, of eight bytes for each number
//     next_weights     the column to come, of four bytes for each number
//     read_table       a table, read
//     write_longs      a column, written with eight bytes for each number
//     write_weights    a column, written with four bytes for each number
//     write_table      a table, written
use crate::stream::{next, read_array, write};
use kept::ROW_CAP;
use signed::{signed_long_of, unsigned_long_of};
use table::Table;

// How many bytes a table has. They are read at once: a read for each field would call the system for each.
const TABLE_BYTES: usize = 6924;

// The numbers of the column to come, of eight bytes each. No `map` over an array of pieces, here and where columns are written: it hands
// each through an `Option`, and clears room for all of them several times.
fn next_longs<T: Copy, F: Fn(u64) -> T>(
    bytes: &mut &[u8],
    nought: T,
    number_of: F,
) -> Option<[T; ROW_CAP]>
    requires { F.IsAlwaysCallable number_of }
{
    let mut column = [nought; ROW_CAP];
    for number in column.iter_mut() {
        *number = number_of(u64::from_le_bytes(next(bytes)?));
    }
    Some(column)
}

fn next_weights(bytes: &mut &[u8]) -> Option<[i32; ROW_CAP]> {
    let mut column = [0; ROW_CAP];
    for number in column.iter_mut() {
        *number = i32::from_le_bytes(next(bytes)?);
    }
    Some(column)
}

// The table that comes next, whatever it holds.
pub(crate) fn read_table(rt: &HostRuntime) -> Option<Table> {
    let bytes = read_array::<TABLE_BYTES>(rt)?;
    let mut rest = &bytes[..];
    Some(Table {
        degree: u32::from_le_bytes(next(&mut rest)?),
        rows: u64::from_le_bytes(next(&mut rest)?) as usize,
        clusters: next_longs(&mut rest, 0, |n| n)?,
        weights: next_weights(&mut rest)?,
        states: next(&mut rest)?,
        lengths: next_longs(&mut rest, 0, |n| n)?,
        counts: next_longs(&mut rest, 0, |n| n)?,
        marks: next(&mut rest)?,
        bests: next_longs(&mut rest, 0, |n| signed_long_of(n))?,
        members_low: next_longs(&mut rest, 0, |n| n)?,
        members_high: next_longs(&mut rest, 0, |n| n)?,
    })
}

// Writes a column, eight bytes for each number.
fn write_longs<T: Copy, F: Fn(T) -> u64>(rt: &HostRuntime, column: &[T; ROW_CAP], bits_of: F)
    requires { F.IsAlwaysCallable bits_of }
{
    let mut bytes = [[0u8; 8]; ROW_CAP];
    for (place, number) in bytes.iter_mut().zip(column) {
        *place = bits_of(*number).to_le_bytes();
    }
    write(rt, bytes.as_flattened());
}

fn write_weights(rt: &HostRuntime, column: &[i32; ROW_CAP]) {
    let mut bytes = [[0u8; 4]; ROW_CAP];
    for (place, weight) in bytes.iter_mut().zip(column) {
        *place = weight.to_le_bytes();
    }
    write(rt, bytes.as_flattened());
}

pub(crate) fn write_table(rt: &HostRuntime, t: &Table) {
    write(rt, &t.degree.to_le_bytes());
    write(rt, &(t.rows as u64).to_le_bytes());
    write_longs(rt, &t.clusters, |n| n);
    write_weights(rt, &t.weights);
    write(rt, &t.states);
    write_longs(rt, &t.lengths, |n| n);
    write_longs(rt, &t.counts, |n| n);
    write(rt, &t.marks);
    write_longs(rt, &t.bests, |best| unsigned_long_of(best));
    write_longs(rt, &t.members_low, |n| n);
    write_longs(rt, &t.members_high, |n| n);
}
