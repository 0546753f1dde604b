ghost use Rattle.std.specs.Prelude.{◌≡◌, ℕ, ◌-◌, ◌^◌, ◌<◌, ◌≤◌, length, take, OnOk, OnErr, IsErrOf, IsOk};
ghost use Rattle.std.specs.Io.KnownBytes.{Appends};
ghost use Rattle.dri_io.specs.Causes.{Rose};
ghost use Rattle.dri_io.specs.ReadAll.{ReadsAll};

use crate::{Sink, Source};
use dri_base::Bytes;
use std::alloc::Global;

/// Why a source wasn't read to its end.
#[derive(Clone, Copy)]
pub enum ReadAll {
    Fault,
    TooLong,
    OutOfMemory,
}

/// A sink that failed before it took all.
#[derive(Clone, Copy)]
pub struct WriteFault;

/// How many bytes are asked for at a time.
const PIECE: usize = 16384;

/// Reads a source to its end. It is too long exactly where it gave more than `limit` bytes, and a fault is answered only
/// where the source's count of faults rose in this call, and never by a source that gives all that is left without one.
pub fn read_all<S: Source>(alloc: Global, source: &mut S, limit: usize) -> Result<Bytes, ReadAll>
    ensures bytes { ReadsAll limit (S.left source.old) (S.left source.new) result }
    ensures later { S.faults source.old ≤ S.faults source.new }
    ensures fault { IsErrOf result ReadAll.Fault → Rose (S.faults source.old) (S.faults source.new) }
    ensures sure { S.gives_all source.old
        → (IsErrOf result ReadAll.Fault → ⊥) × (S.faults source.new ≡ S.faults source.old) × S.gives_all source.new }
{
    let mut bytes = Vec::new(alloc);
    let mut piece = [0; PIECE];
    while bytes.len() <= limit {
        match source.read(&mut piece) {
            Ok(0) => return Ok(Bytes::from_vec(bytes)),
            Ok(count) => {
                if bytes.extend_from_slice(&piece[..count]).is_err() {
                    return Err(ReadAll::OutOfMemory);
                }
            }
            Err(_) => return Err(ReadAll::Fault),
        }
    }
    Err(ReadAll::TooLong)
}

/// Writes all the bytes, in order. At an `Err`, which comes only where the sink's count of faults rose in this call, a
/// prefix of them was taken. It is `Ok` for a sink that takes so many bytes without a fault.
pub fn write_all<N: Sink>(sink: &mut N, bytes: &[u8]) -> Result<(), WriteFault>
    ensures ok { OnOk result (Appends (N.held sink.old) (N.held sink.new) bytes.now) }
    ensures prefix { OnErr result ((taken : ℕ) × (taken ≤ length bytes.now)
        × Appends (N.held sink.old) (N.held sink.new) (take taken bytes.now)) }
    ensures later { N.faults sink.old ≤ N.faults sink.new }
    ensures fault { OnErr result (Rose (N.faults sink.old) (N.faults sink.new)) }
    ensures room { (n : ℕ) → length bytes.now ≤ n → N.takes sink.old n
        → IsOk result × (N.faults sink.new ≡ N.faults sink.old) × N.takes sink.new (n - length bytes.now) }
{
    let mut taken = 0;
    while taken < bytes.len() {
        let (_, rest) = bytes.split_at(taken);
        match sink.write(rest) {
            Ok(count) => taken += count,
            Err(_) => return Err(WriteFault),
        }
    }
    Ok(())
}

/// A count that stays the same hasn't risen, unless it stands at a counter's last value. So over `NeverFails` and
/// `NullSink`, whose counts are the constant 0, no call answers a fault.
pub fn constant_count_never_rises()
    ensures { (count : ℕ) → count < 2 ^ 64 - 1 → Rose count count → ⊥ }
{}
