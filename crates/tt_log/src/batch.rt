//! One batch of a log file: what stands behind a gate. It is the entries of the batch, the Switch to the next file with
//! nothing behind it, or nothing, where the gate is closed. Anything else is damage at that gate.
ghost use Rattle.std.specs.Prelude.{◌≡◌, ◌⊎◌, ◌<◌, ◌≤◌, ◌+◌, length, IfOk, OnOk, IfErr, IsErrOf, Ok, Err};
ghost use Rattle.tt_disk.specs.declared.volume.Name.TheVariants.{Log as LogFile};
ghost use Rattle.tt_gate.specs.Calls.{RoseWhereOn};
ghost use Rattle.tt_disk.specs.Calls.{KeepsFiles};
ghost use Rattle.tt_log.specs.Calls.{OfFile};
ghost use Rattle.tt_disk.specs.Volume.{size_of};
ghost use Rattle.tt_gate.specs.Gate.{gate_in, EndsWithin};
ghost use Rattle.tt_gate.specs.declared.gate.Gate.TheVariants.{Full};
ghost use Rattle.tt_log.specs.Batch.{IsPiece, IsHeaded, IsNotHeaded, IsGateAt, IsAfterSwitch, IsBatch, IsFull, IsWithin, GateSays, refusal_of};
ghost use Rattle.tt_log.specs.declared.refusal.LogRefusal.TheVariants.{Failed};
ghost use Rattle.tt_gate.specs.Limits.{longest_file};

use crate::body::{Body, body_of};
use crate::header::header;
use crate::refusal::LogRefusal;
use std::alloc::Global;
use tt_disk::{Name, Volume};
use tt_gate::{Gate, GateRefusal, gate_at};

// The most bytes that the entries of one file have together, the Switch not counted.
const FILE_MOST: u32 = 67_108_864;

// What stands behind a gate.
#[derive(Debug, Drop)]
pub(crate) enum Batch {
    // Nothing: the file's batches end here.
    Closed,
    // The Switch to the next file, and nothing behind it.
    Switched,
    // Entries.
    Entries { body: Vec<u8> },
}

// What a refusal of a file's gates is for the log.
fn refusal_of(number: u32, refusal: GateRefusal) -> LogRefusal
    ensures { result ≡ refusal_of number refusal }
{
    match refusal {
        GateRefusal::Absent => LogRefusal::Gap { file: number },
        GateRefusal::BadHeader => LogRefusal::Gap { file: number },
        GateRefusal::BadBatch { at } => LogRefusal::BadBatch { file: number, at },
        GateRefusal::Failed => LogRefusal::Failed,
    }
}

// Whether the file is there and begins as a log file of this number does.
pub(crate) fn check_header<V: Volume>(volume: &mut V, number: u32) -> Result<(), LogRefusal>
    ensures right { OfFile V.Volume number volume.old (λ file. OnOk result (IsHeaded number file)) }
    ensures refused { OfFile V.Volume number volume.old (λ file. IfErr result (IsNotHeaded number file)) }
    ensures keeps { KeepsFiles V.Volume volume.old volume.new }
    ensures cause { RoseWhereOn V.Volume volume.old volume.new (IsErrOf result Failed) }
{
    match tt_gate::check_header(volume, Name::Log(number), &header(number)) {
        Ok(()) => Ok(()),
        Err(refusal) => Err(refusal_of(number, refusal)),
    }
}

// The gate at an offset.
fn gate_of<V: Volume>(volume: &mut V, number: u32, at: u64) -> Result<Gate, LogRefusal>
    ensures exact { OfFile V.Volume number volume.old (λ file. IsGateAt number at file result) }
    ensures inside { IfOk result (λ gate. EndsWithin at gate) }
    ensures keeps { KeepsFiles V.Volume volume.old volume.new }
    ensures cause { RoseWhereOn V.Volume volume.old volume.new (IsErrOf result Failed) }
{
    match gate_at(volume, Name::Log(number), at) {
        Ok(gate) => Ok(gate),
        Err(refusal) => Err(refusal_of(number, refusal)),
    }
}

// The bytes of a body.
fn read_body<V: Volume>(
    alloc: Global,
    volume: &mut V,
    number: u32,
    at: u64,
    count: u64,
) -> Result<Vec<u8>, LogRefusal>
    requires inside { OfFile V.Volume number volume.old (λ file. at + count ≤ size_of file) }
    requires some { 0 < count }
    ensures bytes { OfFile V.Volume number volume.old (λ file. IfOk result (λ body. IsPiece at count file body.items)) }
    ensures long { IfOk result (λ body. length body.items ≡ count) }
    ensures refused { IfErr result (λ e. (e ≡ Failed) ⊎ (e ≡ LogRefusal.NoMemory)) }
    ensures keeps { KeepsFiles V.Volume volume.old volume.new }
    ensures cause { RoseWhereOn V.Volume volume.old volume.new (IsErrOf result Failed) }
{
    let mut body = vec![in alloc; 0; count as usize]?;
    let _ = volume.read_at(Name::Log(number), at, &mut body)?;
    Ok(body)
}

// What stands behind a Switch, which may only be a closed gate.
fn read_after_switch<V: Volume>(volume: &mut V, number: u32, next: u64) -> Result<Batch, LogRefusal>
    ensures exact { OfFile V.Volume number volume.old (λ file. IsAfterSwitch number next file result) }
    ensures switched { IfOk result (λ batch. batch ≡ Batch.Switched) }
    ensures keeps { KeepsFiles V.Volume volume.old volume.new }
    ensures cause { RoseWhereOn V.Volume volume.old volume.new (IsErrOf result Failed) }
{
    match gate_of(volume, number, next)? {
        Gate::Closed => Ok(Batch::Switched),
        Gate::Full { .. } => Err(LogRefusal::BadBatch {
            file: number,
            at: next,
        }),
    }
}

// The batch of these bytes behind a gate.
fn classify_batch<V: Volume>(
    alloc: Global,
    volume: &mut V,
    number: u32,
    gate: u64,
    offset: u32,
    body: Vec<u8>,
) -> Result<Batch, LogRefusal>
    requires headed { OfFile V.Volume number volume.old (λ file. IsHeaded number file) }
    requires gate { OfFile V.Volume number volume.old (λ file. IsFull gate body.items file) }
    requires inside { gate + 9 + length body.items < longest_file }
    requires some { 0 < length body.items }
    ensures exact { OfFile V.Volume number volume.old (λ file. IsBatch number gate offset file result) }
    ensures gate { OfFile V.Volume number volume.old (λ file. IfOk result (GateSays gate file)) }
    ensures within { IfOk result (λ batch. IsWithin number gate offset batch) }
    ensures keeps { KeepsFiles V.Volume volume.old volume.new }
    ensures cause { RoseWhereOn V.Volume volume.old volume.new (IsErrOf result Failed) }
{
    match body_of(alloc, number, &body)? {
        Body::Bad => Err(LogRefusal::BadBatch {
            file: number,
            at: gate,
        }),
        Body::NextFile => read_after_switch(volume, number, gate + 9 + body.len() as u64),
        Body::Entries { .. } => {
            if offset as u64 + body.len() as u64 > FILE_MOST as u64 {
                return Err(LogRefusal::BadBatch {
                    file: number,
                    at: gate,
                });
            }
            Ok(Batch::Entries { body })
        }
    }
}

// The batch behind a gate that says how long its body is.
fn read_full<V: Volume>(
    alloc: Global,
    volume: &mut V,
    number: u32,
    gate: u64,
    offset: u32,
    count: u64,
) -> Result<Batch, LogRefusal>
    requires headed { OfFile V.Volume number volume.old (λ file. IsHeaded number file) }
    requires gate { 0 < gate }
    requires says { OfFile V.Volume number volume.old (λ file. gate_in gate file ≡ Ok (Full count)) }
    requires inside { gate + 9 + count < longest_file }
    requires some { 0 < count }
    ensures exact { OfFile V.Volume number volume.old (λ file. IsBatch number gate offset file result) }
    ensures gate { OfFile V.Volume number volume.old (λ file. IfOk result (GateSays gate file)) }
    ensures within { IfOk result (λ batch. IsWithin number gate offset batch) }
    ensures keeps { KeepsFiles V.Volume volume.old volume.new }
    ensures cause { RoseWhereOn V.Volume volume.old volume.new (IsErrOf result Failed) }
{
    match read_body(alloc, volume, number, gate + 9, count) {
        Ok(body) => classify_batch(alloc, volume, number, gate, offset, body),
        Err(refusal) => Err(refusal),
    }
}

// The batch behind a gate, where entries of so many bytes stand before it in the file.
pub(crate) fn read_batch<V: Volume>(
    alloc: Global,
    volume: &mut V,
    number: u32,
    gate: u64,
    offset: u32,
) -> Result<Batch, LogRefusal>
    requires headed { OfFile V.Volume number volume.old (λ file. IsHeaded number file) }
    requires gate { 0 < gate }
    ensures exact { OfFile V.Volume number volume.old (λ file. IsBatch number gate offset file result) }
    ensures gate { OfFile V.Volume number volume.old (λ file. IfOk result (GateSays gate file)) }
    ensures within { IfOk result (λ batch. IsWithin number gate offset batch) }
    ensures keeps { KeepsFiles V.Volume volume.old volume.new }
    ensures cause { RoseWhereOn V.Volume volume.old volume.new (IsErrOf result Failed) }
{
    match gate_of(volume, number, gate) {
        Ok(Gate::Closed) => Ok(Batch::Closed),
        Ok(Gate::Full { length }) => read_full(alloc, volume, number, gate, offset, length),
        Err(refusal) => Err(refusal),
    }
}
