// The operations on one record. Each reads its case and writes the answer; where the case isn't whole it gives `None`, and has written
// nothing.
//     answer_read      operation 1, read one record
//     answer_write     operation 2, write one record
use crate::stream::{
    LIST_CAP, ROOM_CAP, next, read_array, read_part, write, write_room, write_sent,
};
use cluster::{Record, read_record, write_record};

pub(crate) fn answer_read(rt: &HostRuntime) -> Option<()> {
    let mut bytes = [0u8; LIST_CAP];
    let reading = read_record(read_part(rt, &mut bytes, 1)?);
    let record = reading.record;
    write_sent(rt, reading.answer);
    write(rt, &record.cluster.to_le_bytes());
    write(rt, &record.weight.to_le_bytes());
    write(rt, &[record.state]);
    Some(())
}

// How many bytes the fields of a record have. They are read at once, as those of a table are.
const FIELDS_BYTES: usize = 9;

fn read_fields(rt: &HostRuntime) -> Option<Record> {
    let bytes = read_array::<FIELDS_BYTES>(rt)?;
    let mut rest = &bytes[..];
    let cluster = u32::from_le_bytes(next(&mut rest)?);
    let weight = i32::from_le_bytes(next(&mut rest)?);
    let state = u8::from_le_bytes(next(&mut rest)?);
    Some(Record {
        cluster,
        weight,
        state,
    })
}

pub(crate) fn answer_write(rt: &HostRuntime) -> Option<()> {
    let record = read_fields(rt)?;
    let mut bytes = [0u8; ROOM_CAP];
    let room = read_part(rt, &mut bytes, 1)?;
    let answer = write_record(record, room);
    write_room(rt, answer, room);
    Some(())
}
