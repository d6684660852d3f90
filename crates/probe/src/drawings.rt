// The operations that draw into rooms. Each reads its case and writes the answer; where the case isn't whole it gives `None`, and has
// written nothing.
//     answer_tree      operation 6, the tree as a cluster list
//     answer_text      operation 7, the tree as text
//     answer_line      operation 8, the printed line
//     answer_whole     operation 9, build, rescore, draw
use crate::layout::{read_table, write_table};
use crate::stream::{LIST_CAP, ROOM_CAP, read_array, read_part, write, write_room, write_sent};
use crate::tables::{SCORE_BYTES, scores_room, tell_build, tell_rescores};
use drawing::{text, tree};
use report::line;
use table::Table;

// How many bytes a number of a room has.
const WORD_BYTES: usize = 4;

// The most numbers that a room can have.
const WORDS_CAP: usize = 256;

// The most bytes that a room of numbers can have.
const WORDS_BYTES: usize = 1024;

// Writes the answer of operation 6 on a table and a room.
fn tell_tree(rt: &HostRuntime, t: Table, room: &mut [u32]) {
    write_sent(rt, tree(t, room));
    for word in room.iter() {
        write(rt, &word.to_le_bytes());
    }
}

pub(crate) fn answer_tree(rt: &HostRuntime) -> Option<()> {
    let t = read_table(rt)?;
    let mut bytes = [0u8; WORDS_BYTES];
    let part = read_part(rt, &mut bytes, WORD_BYTES)?;
    let mut words = [0; WORDS_CAP];
    for (word, stored) in words.iter_mut().zip(part.as_chunks().0) {
        *word = u32::from_le_bytes(*stored);
    }
    tell_tree(rt, t, &mut words[..part.len() / WORD_BYTES]);
    Some(())
}

// Writes the answer of operation 7 on a table and a room.
fn tell_text(rt: &HostRuntime, t: Table, room: &mut [u8]) {
    let answer = text(t, room);
    write_room(rt, answer, room);
}

pub(crate) fn answer_text(rt: &HostRuntime) -> Option<()> {
    let t = read_table(rt)?;
    let mut bytes = [0u8; ROOM_CAP];
    tell_text(rt, t, read_part(rt, &mut bytes, 1)?);
    Some(())
}

pub(crate) fn answer_line(rt: &HostRuntime) -> Option<()> {
    let degree = u32::from_le_bytes(read_array(rt)?);
    let mut list_bytes = [0u8; LIST_CAP];
    let list = read_part(rt, &mut list_bytes, 1)?;
    let mut bytes = [0u8; ROOM_CAP];
    let room = read_part(rt, &mut bytes, 1)?;
    let answer = line(list, degree, room);
    write_room(rt, answer, room);
    Some(())
}

pub(crate) fn answer_whole(rt: &HostRuntime) -> Option<()> {
    let degree = u32::from_le_bytes(read_array(rt)?);
    let mut bytes = [0u8; LIST_CAP];
    let list = read_part(rt, &mut bytes, 1)?;
    let mut scores_bytes = scores_room();
    let scores = read_part(rt, &mut scores_bytes, SCORE_BYTES)?;
    let t = tell_rescores(rt, tell_build(rt, list, degree), scores);
    write_table(rt, &t);
    // rooms that are filled with 0xAA
    tell_tree(rt, t, &mut [0xAAAA_AAAA; 128]);
    tell_text(rt, t, &mut [0xAA; 256]);
    Some(())
}
