// The records of standard input. A record of the text layer is 8 bytes of head (the function's number, the index in four bytes, the bias,
// the text's length in two bytes), the text, and 5 bytes of tail (the number of a refusal, the value in four bytes). Numbers of several
// bytes have the most significant first. The numbers above 21 are for the leaf's calls.
ghost use Rattle.std.specs.Prelude.{◌≡◌, not, eqb, get_or, IfOk, IfSome};
ghost use Rattle.octets.specs.Big.{four_at};
ghost use Rattle.text_calls.specs.Asked.{asked_by};
ghost use Rattle.replay.specs.Answer.{recorded};
ghost use Rattle.replay.specs.Turns.{Known, Judged};

use crate::leaves;
use octets::{number_at, two_at};
use std::io;
use std::io::Read;

// An answer, ours or a recorded one: a value, or the number of a refusal.
pub type Given = Result<usize, u8>;

// What a record asks for: a call of the text layer by its number.
#[derive(Clone, Copy)]
struct Call {
    function: u8,
    index: usize,
    bias_left: bool,
}

// A record with our answer, and whether it is the recorded one.
#[derive(Clone, Copy)]
pub struct Case {
    pub function: usize,
    pub given: Given,
    pub is_same: bool,
}

// The input goes on with what is no record.
#[derive(Clone, Copy, Debug)]
pub struct BadRecord;

impl From<io::Error> for BadRecord {
    fn from(_error: io::Error) -> BadRecord {
        BadRecord
    }
}

fn call_of(head: &[u8; 8]) -> Call
    ensures { (result.function ≡ get_or head.now 0 0) × (result.index ≡ four_at head.now 1) × (result.bias_left ≡ not (eqb (get_or head.now 5 0) 0)) }
{
    Call {
        function: head[0],
        index: number_at(head, 1) as usize,
        bias_left: head[5] != 0,
    }
}

// The recorded answer. A refusal has no value, and what has one beside it is the answer of no call.
fn recorded(tail: &[u8; 5]) -> Option<Given>
    ensures { result ≡ recorded (get_or tail.now 0 0) (four_at tail.now 1) }
{
    match (tail[0], number_at(tail, 1) as usize) {
        (0, value) => Some(Ok(value)),
        (refusal, 0) => Some(Err(refusal)),
        _ => None,
    }
}

// Our answer, beside the recorded one.
fn judge(c: Call, text: &[u8], was: Option<Given>) -> Result<Case, BadRecord>
    ensures { IfOk result (λ x. Known x × Judged (asked_by c.function c.index c.bias_left text.now) was x) }
{
    if !(1..=21).contains(&c.function) {
        return Err(BadRecord);
    }
    let given = text_calls::ask_by(c.function, c.index, c.bias_left, text).map_err(u8::from);
    Ok(Case {
        function: usize::from(c.function),
        given,
        is_same: was == Some(given),
    })
}

// The rest of a record, whose text has n bytes.
fn read_body<R: Read>(input: &mut R, c: Call, n: usize) -> Result<Case, BadRecord>
    ensures { IfOk result Known }
{
    let mut text = [0u8; 4096];
    if text.len() < n {
        return Err(BadRecord);
    }
    input.read_exact(&mut text[..n])?;
    let mut tail = [0u8; 5];
    input.read_exact(&mut tail)?;
    judge(c, &text[..n], recorded(&tail))
}

// Reads one record and asks for our answer. The input ends where a read gives nothing in front of a record.
pub(crate) fn next<R: Read>(input: &mut R) -> Result<Option<Case>, BadRecord>
    ensures { IfOk result (λ x. IfSome x Known) }
{
    let mut head = [0u8; 8];
    let Ok(1) = input.read(&mut head[..1]) else {
        return Ok(None);
    };
    input.read_exact(&mut head[1..])?;
    let case = if 21 < head[0] {
        leaves::read(input, head[0] - 21, &head)?
    } else {
        read_body(input, call_of(&head), two_at(&head, 6) as usize)?
    };
    Ok(Some(case))
}
