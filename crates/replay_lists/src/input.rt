// The records of standard input. A record is 28 bytes of head (the call's number, two indices in two bytes each, the list's slot, another
// slot, the number of the memory's slots, at most 7, and a child in 20 bytes: its slot and four counts), those slots, and the tail: the
// number of a refusal, the five numbers in four bytes each, which are 0 beside a refusal, and how many slots the call changes, each
// behind its number. Numbers of several bytes have the most significant first.
ghost use Rattle.std.specs.Prelude.{◌≡◌, get_or};
ghost use Rattle.octets.specs.Big.{four_at};
ghost use Rattle.replay_lists.specs.Judged.{reply};

use crate::judge::{Question, Reply, judge};
use crate::memory::{put, read_changes, read_slots, room};
use octets::{number_at, two_at};
use pool::{HEAD_BYTES, Kid, SLOT_BYTES};
use std::io;
use std::io::Read;
use text_info::TextInfo;

// A record: its call, and whether our outcome is the recorded one.
#[derive(Clone, Copy)]
pub struct Case {
    pub call: u8,
    pub is_same: bool,
}

// The input goes on with what is no record.
#[derive(Clone, Copy, Debug)]
pub struct BadRecord;

impl From<io::Error> for BadRecord {
    fn from(_error: io::Error) -> BadRecord {
        BadRecord
    }
}

fn kid_of(head: &[u8; 28]) -> Kid {
    let info = TextInfo {
        bytes: number_at(head, 12),
        chars: number_at(head, 16),
        utf16_surrogates: number_at(head, 20),
        line_breaks: number_at(head, 24),
    };
    Kid {
        slot: number_at(head, 8),
        info,
    }
}

fn question_of(head: &[u8; 28]) -> Question {
    Question {
        call: head[0],
        slot: usize::from(head[5]),
        other: usize::from(head[6]),
        i: two_at(head, 1) as usize,
        j: two_at(head, 3) as usize,
        kid: kid_of(head),
    }
}

fn recorded(tail: &[u8; 22]) -> Reply
    ensures { result ≡ reply (get_or tail.now 0 0) (four_at tail.now 1, four_at tail.now 5, four_at tail.now 9, four_at tail.now 13, four_at tail.now 17) }
{
    if tail[0] != 0 {
        return Err(tail[0]);
    }
    Ok((
        number_at(tail, 1) as usize,
        number_at(tail, 5) as usize,
        number_at(tail, 9) as usize,
        number_at(tail, 13) as usize,
        number_at(tail, 17) as usize,
    ))
}

// The tail of a record, and the judgement. The memory afterwards is a copy of that before, with the changed slots laid in.
fn read_tail<R: Read>(
    input: &mut R,
    q: Question,
    m: &mut [u8],
    after: &mut [u8],
) -> Result<Case, BadRecord> {
    put(after, 0, m)?;
    let mut tail = [0u8; 22];
    input.read_exact(&mut tail)?;
    read_changes(input, after, tail[21])?;
    Ok(Case {
        call: q.call,
        is_same: judge(q, m, recorded(&tail), after),
    })
}

// A record from behind its head on: n slots of a memory.
fn read_memory<R: Read>(
    input: &mut R,
    q: Question,
    n: u8,
    m: &mut [u8],
) -> Result<Case, BadRecord> {
    read_slots(input, m, n)?;
    let size = m.len();
    let mut after = room();
    if after.len() < size {
        return Err(BadRecord);
    }
    read_tail(input, q, m, &mut after[..size])
}

// Reads one record and judges it. The input ends where a read gives nothing in front of a record.
pub(crate) fn next<R: Read>(input: &mut R) -> Result<Option<Case>, BadRecord> {
    let mut head = [0u8; 28];
    let Ok(1) = input.read(&mut head[..1]) else {
        return Ok(None);
    };
    input.read_exact(&mut head[1..])?;
    let n = head[7];
    if 7 < n {
        return Err(BadRecord);
    }
    let mut memory = room();
    let size = HEAD_BYTES + SLOT_BYTES * usize::from(n);
    let case = read_memory(input, question_of(&head), n, &mut memory[..size])?;
    Ok(Some(case))
}
