// The slots of a record. A slot is its head of 8 bytes, a length in two bytes, and as many bytes from the front of its region of 512; the
// rest of the memory is zeros.
ghost use Rattle.std.specs.Prelude.{◌≡◌, length};

use crate::input::BadRecord;
use octets::two_at;
use pool::{HEAD_BYTES, REGION_AT, SLOT_BYTES};
use std::io::Read;

// The zeros of the longest memory, which has 7 slots. The `ensures` gives only the length, which lending a part of it needs.
pub(crate) fn room() -> [u8; 10624]
    ensures { 10624 ≡ length result }
{
    [0; 10624]
}

// Lays bytes into a memory where they fit.
pub(crate) fn put(m: &mut [u8], at: usize, bytes: &[u8]) -> Result<(), BadRecord> {
    if m.len() < at || m.len() - at < bytes.len() {
        return Err(BadRecord);
    }
    m[at..at + bytes.len()].copy_from_slice(bytes);
    Ok(())
}

// Reads the front of a region.
fn read_region<R: Read>(input: &mut R, region: &mut [u8], n: usize) -> Result<(), BadRecord> {
    if region.len() < n {
        return Err(BadRecord);
    }
    input.read_exact(&mut region[..n])?;
    Ok(())
}

// Lays a slot's head and region into a memory where they fit.
fn put_slot(m: &mut [u8], slot: u8, head: &[u8], region: &[u8]) -> Result<(), BadRecord> {
    let at = HEAD_BYTES + SLOT_BYTES * usize::from(slot);
    put(m, at, head)?;
    put(m, at + REGION_AT, region)
}

// Reads a slot of a memory.
fn read_slot<R: Read>(input: &mut R, m: &mut [u8], slot: u8) -> Result<(), BadRecord> {
    let mut head = [0u8; 8];
    input.read_exact(&mut head)?;
    let mut size = [0u8; 2];
    input.read_exact(&mut size)?;
    let mut region = [0u8; 512];
    read_region(input, &mut region, two_at(&size, 0) as usize)?;
    put_slot(m, slot, &head, &region)
}

// Reads the first n slots of a memory.
pub(crate) fn read_slots<R: Read>(input: &mut R, m: &mut [u8], n: u8) -> Result<(), BadRecord> {
    for k in 0..n {
        read_slot(input, m, k)?;
    }
    Ok(())
}

// Reads a slot behind its number.
fn read_change<R: Read>(input: &mut R, m: &mut [u8]) -> Result<(), BadRecord> {
    let mut slot = [0u8; 1];
    input.read_exact(&mut slot)?;
    read_slot(input, m, slot[0])
}

// Reads n slots, each behind its number.
pub(crate) fn read_changes<R: Read>(input: &mut R, m: &mut [u8], n: u8) -> Result<(), BadRecord> {
    for _ in 0..n {
        read_change(input, m)?;
    }
    Ok(())
}
