//! The walk from gate to gate, which only reads: the check of a header, one gate, and the last.
ghost use Rattle.std.specs.Prelude.{◌≡◌, ◌⊎◌, ◌+◌, ◌-◌, ◌^◌, ◌<◌, ℕ, length, IfOk, IfErr, OnOk, IsErrOf, Ok, Err};
ghost use Rattle.tt_disk.specs.Calls.{KeepsFiles};
ghost use Rattle.tt_gate.specs.Calls.{RoseWhereOn};
ghost use Rattle.tt_disk.specs.Volume.{size_of};
ghost use Rattle.tt_gate.specs.Gate.{gated};
ghost use Rattle.tt_gate.specs.Gate.{parsed_gate, gate_in, EndsWithin};
ghost use Rattle.tt_gate.specs.Calls.{HasHeaderOn, RefusalHoldsOn, IsEndOn, GateSaysOn, IsLongOn, WalkRefusedOn};
ghost use Rattle.tt_gate.specs.Limits.{header_length, longest_file};

use crate::{Gate, GateRefusal};
use tt_disk::{Name, Volume};

/// Whether the file begins with this header, and has a byte behind it, as a file of batches does. No
/// file changes, and `BadBatch` never comes.
pub fn check_header<V: Volume>(
    volume: &mut V,
    name: Name,
    header: &[u8; 16],
) -> Result<(), GateRefusal>
    ensures right { OnOk result (HasHeaderOn V.Volume name header.now volume.old) }
    ensures refused { IfErr result (λ e. RefusalHoldsOn V.Volume name header.now volume.old e) }
    ensures unread { (at : ℕ) → ¬ (result ≡ Err (GateRefusal.BadBatch at)) }
    ensures keeps { KeepsFiles V.Volume volume.old volume.new }
    ensures cause { RoseWhereOn V.Volume volume.old volume.new (IsErrOf result GateRefusal.Failed) }
{
    let size = match volume.size(name)? {
        Some(size) => size,
        None => return Err(GateRefusal::Absent),
    };
    if size < 17 {
        return Err(GateRefusal::BadHeader);
    }
    let mut found = [0; 16];
    let _ = volume.read_at(name, 0, &mut found)?;
    if found != *header {
        return Err(GateRefusal::BadHeader);
    }
    Ok(())
}

/// What the gate at an offset of a file says. The offset is in bytes, and any is taken: one that
/// the file has no byte at is `BadBatch`, as a batch is that isn't whole. No file changes.
/// `BadHeader` never comes, since the header isn't read.
pub fn gate_at<V: Volume>(volume: &mut V, name: Name, at: u64) -> Result<Gate, GateRefusal>
    ensures exact { GateSaysOn V.Volume name at volume.old result }
    ensures inside { IfOk result (λ gate. EndsWithin at gate) }
    ensures keeps { KeepsFiles V.Volume volume.old volume.new }
    ensures cause { RoseWhereOn V.Volume volume.old volume.new (IsErrOf result GateRefusal.Failed) }
{
    let Some(size) = volume.size(name)? else {
        return Err(GateRefusal::Absent);
    };
    if at >= size {
        return Err(GateRefusal::BadBatch { at });
    }
    let mut bytes = [0; 9];
    let _ = volume.read_at(name, at, &mut bytes)?;
    let [gate, a, b, c, d, e, f, g, h] = bytes;
    parse_gate(at, size - at, gate, [a, b, c, d, e, f, g, h])
}

// Where the closed gate behind the last batch lies. Each batch is whole within the file, so the
// walk ends.
pub(crate) fn last_gate<V: Volume>(volume: &mut V, name: Name) -> Result<u64, GateRefusal>
    requires { IsLongOn V.Volume name volume.old }
    ensures end { IfOk result (λ end. IsEndOn V.Volume name volume.old end) }
    ensures refused { IfErr result (λ e. WalkRefusedOn V.Volume name volume.old e) }
    ensures bound { IfOk result (λ end. end < longest_file) }
    ensures keeps { KeepsFiles V.Volume volume.old volume.new }
    ensures cause { RoseWhereOn V.Volume volume.old volume.new (IsErrOf result GateRefusal.Failed) }
{
    let mut gate = 16;
    'gates: loop {
        let here = match gate_at(volume, name, gate) {
            Ok(here) => here,
            Err(refusal) => return Err(refusal),
        };
        match here {
            Gate::Closed => return Ok(gate),
            Gate::Full { length } => gate = gate + 9 + length,
        }
    }
}

// What a gate's byte and the eight behind it say, where so many bytes are left from the gate on.
// The next gate lies in the file too. Of the eight, those past the file's end may be any: then too
// few bytes are left anyway.
fn parse_gate(at: u64, left: u64, gate: u8, place: [u8; 8]) -> Result<Gate, GateRefusal>
    ensures { result ≡ parsed_gate at left gate place }
{
    if gate != 1 {
        return Ok(Gate::Closed);
    }
    let length = u64::from_be_bytes(place);
    if left < 10 || length == 0 || length >= left - 9 {
        return Err(GateRefusal::BadBatch { at });
    }
    Ok(Gate::Full { length })
}
