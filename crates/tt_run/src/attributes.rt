//! The settings that a source of attributes gives: its text is read to its end, or to the byte that is too many.
ghost use Rattle.std.specs.Prelude.{◌≡◌, ◌≤◌, ◌+◌, ◌<◌, length, take, IfOk, IfErr, IsErrOf};
ghost use Rattle.tt_disk.specs.Faults.{HasCause, RoseWhere};
ghost use Rattle.tt_set.specs.Settings.{AreInRange};
ghost use Rattle.tt_run.specs.Devices.{SourceRose};
ghost use Rattle.tt_run.specs.TopCall.{SaysOnly};
ghost use Rattle.tt_run.specs.Attributes.{FillsFront, IsFrom, IsReadEnd, IsUnread, OfText, TakesBehind};

use crate::status::Status;
use std::alloc::Global;
use tt_disk::Failed;
use tt_flow::Source;
use tt_set::{SetRefusal, Settings, read_settings};

// A text of attributes has at most 65,536 bytes; one more tells that it is longer.
const READ_MAX: usize = 65_537;

// The settings of a database. The attributes are read to their end, or to the byte that is too many.
pub(crate) fn settings_of<A: Source>(alloc: Global, attributes: &mut A) -> Result<Settings, Status>
    ensures range { IfOk result AreInRange }
    ensures says { OfText A.Source attributes.old (λ text. IsFrom text result) }
    ensures only { SaysOnly (A.left attributes.old) result }
    ensures statuses { IfErr result IsReadEnd }
    ensures fault { SourceRose A.Source (IsErrOf result Status.AttributesFault) attributes.old attributes.new }
{
    let text = match read_text(alloc, attributes, READ_MAX) {
        Ok(text) => text,
        Err(status) => return Err(status),
    };
    match read_settings(alloc, text.as_slice()) {
        Ok(settings) => Ok(settings),
        Err(SetRefusal::Bad { name }) => Err(Status::BadAttribute(name)),
        Err(SetRefusal::NoMemory) => Err(Status::NoMemory),
    }
}

// The attributes to their end, or so many bytes of them.
fn read_text<A: Source>(alloc: Global, attributes: &mut A, most: usize) -> Result<Vec<u8>, Status>
    ensures bytes { OfText A.Source attributes.old (λ text. IfOk result (λ read. read.items ≡ take most text)) }
    ensures statuses { IfErr result IsUnread }
    ensures fault { SourceRose A.Source (IsErrOf result Status.AttributesFault) attributes.old attributes.new }
{
    let mut text = match vec![in alloc; 0; most] {
        Ok(text) => text,
        Err(_) => return Err(Status::NoMemory),
    };
    let length = match fill(attributes, &mut text) {
        Ok(length) => length,
        Err(_) => return Err(Status::AttributesFault),
    };
    text.truncate(length);
    Ok(text)
}

// Fills the buffer's front with what a source gives up to its end, as far as there is room, and answers how many bytes that is.
fn fill<A: Source>(source: &mut A, buffer: &mut [u8]) -> Result<usize, Failed>
    ensures bound { IfOk result (λ n. n ≤ length buffer.new) }
    ensures long { length buffer.new ≡ length buffer.old }
    ensures bytes { FillsFront A.Source source.old buffer.old buffer.new result }
    ensures cause { HasCause A.exact (A.faults source.old) (A.faults source.new) result }
{
    let mut used = 0;
    'pieces: while used < buffer.len() {
        let given = match take_behind(source, buffer, used) {
            Ok(given) => given,
            Err(failed) => return Err(failed),
        };
        if given == 0 {
            return Ok(used);
        }
        used += given;
    }
    Ok(used)
}

// Takes bytes from a source into the buffer behind so many, and answers how many; 0 comes at the end of input alone.
fn take_behind<A: Source>(source: &mut A, buffer: &mut [u8], used: usize) -> Result<usize, Failed>
    requires { used < length buffer.old }
    ensures long { length buffer.new ≡ length buffer.old }
    ensures bound { IfOk result (λ n. used + n ≤ length buffer.new) }
    ensures bytes { TakesBehind A.Source used source.old source.new buffer.old buffer.new result }
    ensures cause { HasCause A.exact (A.faults source.old) (A.faults source.new) result }
{
    source.take(&mut buffer[used..])
}
