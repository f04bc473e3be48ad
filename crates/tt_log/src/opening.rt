//! The walk from one log file to the next: a Switch at the end of a file leads to the file of the next number, and the log
//! ends in the first file without one.
ghost use Rattle.std.specs.Prelude.{◌<◌, IfOk, IsErrOf};
ghost use Rattle.tt_disk.specs.Calls.{KeepsFiles};
ghost use Rattle.tt_gate.specs.Calls.{RoseWhereOn};
ghost use Rattle.tt_record.specs.Limits.{log_files_end};
ghost use Rattle.tt_log.specs.Calls.{OfFile, OfFiles, VisitsBehindOn, VisitsLogOn};
ghost use Rattle.tt_log.specs.File.{IsEnd, HasEnd, IsInRange, IsFollowed, IsLogEndInRange, IsClosedIn, Finds, Closes};
ghost use Rattle.tt_log.specs.Walk.{file_read, log_of};
ghost use Rattle.tt_log.specs.declared.refusal.LogRefusal.TheVariants.{Failed};

use crate::file::{FileEnd, read_file};
use crate::refusal::LogRefusal;
use crate::visitor::EntryVisitor;
use std::alloc::Global;
use tt_disk::Volume;
use tt_record::LOG_FILES_END;
use tt_value::Position;

// Where the entries of a log end.
#[derive(Clone, Copy, Debug)]
pub(crate) struct LogEnd {
    // The file is the last one.
    pub at: Position,
    // Where the closed gate behind them lies in that file.
    pub gate: u64,
}

// Goes on from a file whose end is known to the last one, hands over the entries behind that file, and answers where
// they end.
fn follow<V: Volume, T: EntryVisitor>(
    alloc: Global,
    volume: &mut V,
    number: u32,
    end: FileEnd,
    visitor: &mut T,
) -> Result<LogEnd, LogRefusal>
    requires number { number < log_files_end }
    requires range { IsInRange number end }
    requires end { OfFile V.Volume number volume.old (λ file. IsEnd (file_read number file) end) }
    requires closed { OfFile V.Volume number volume.old (λ file. Closes file end) }
    ensures exact { OfFiles V.Volume volume.old (λ files. IsFollowed (log_of number files) result) }
    ensures given { VisitsBehindOn V.Volume T.EntryVisitor number volume.old visitor.old visitor.new result }
    ensures closed { OfFiles V.Volume volume.old (λ files. IfOk result (IsClosedIn files)) }
    ensures within { IfOk result (λ end. IsLogEndInRange number end) }
    ensures keeps { KeepsFiles V.Volume volume.old volume.new }
    ensures cause { RoseWhereOn V.Volume volume.old volume.new (IsErrOf result Failed) }
{
    let mut file = number;
    let mut end = end;
    'files: while end.switched {
        let next = match read_file(alloc, volume, file + 1, 0, visitor) {
            Ok(next) => next,
            Err(refusal) => return Err(refusal),
        };
        file += 1;
        end = next;
    }
    Ok(LogEnd {
        at: Position {
            file,
            offset: end.total,
        },
        gate: end.gate,
    })
}

// Goes on from the file of a position, whose end is known, and refuses a position that is no start of an entry.
fn follow_from<V: Volume, T: EntryVisitor>(
    alloc: Global,
    volume: &mut V,
    from: Position,
    first: FileEnd,
    visitor: &mut T,
) -> Result<LogEnd, LogRefusal>
    requires number { from.file < log_files_end }
    requires range { IsInRange from.file first }
    requires end { OfFile V.Volume from.file volume.old (λ file. HasEnd from.offset (file_read from.file file) first) }
    requires closed { OfFile V.Volume from.file volume.old (λ file. Closes file first) }
    ensures finds { OfFiles V.Volume volume.old (λ files. Finds from files result) }
    ensures given { VisitsBehindOn V.Volume T.EntryVisitor from.file volume.old visitor.old visitor.new result }
    ensures within { IfOk result (λ end. IsLogEndInRange from.file end) }
    ensures keeps { KeepsFiles V.Volume volume.old volume.new }
    ensures cause { RoseWhereOn V.Volume volume.old volume.new (IsErrOf result Failed) }
{
    match follow(alloc, volume, from.file, first, visitor) {
        Ok(end) => {
            if !first.is_place {
                return Err(LogRefusal::BadBatch {
                    file: from.file,
                    at: 0,
                });
            }
            Ok(end)
        }
        Err(refusal) => Err(refusal),
    }
}

// Walks through the files from that of a position on, hands over their entries, and answers where these end.
pub(crate) fn find_entries<V: Volume, T: EntryVisitor>(
    alloc: Global,
    volume: &mut V,
    from: Position,
    visitor: &mut T,
) -> Result<LogEnd, LogRefusal>
    ensures finds { OfFiles V.Volume volume.old (λ files. Finds from files result) }
    ensures given { VisitsLogOn V.Volume T.EntryVisitor from.file volume.old visitor.old visitor.new result }
    ensures within { IfOk result (λ end. IsLogEndInRange from.file end) }
    ensures keeps { KeepsFiles V.Volume volume.old volume.new }
    ensures cause { RoseWhereOn V.Volume volume.old volume.new (IsErrOf result Failed) }
{
    if from.file >= LOG_FILES_END {
        return Err(LogRefusal::Gap { file: from.file });
    }
    match read_file(alloc, volume, from.file, from.offset, visitor) {
        Ok(first) => follow_from(alloc, volume, from, first, visitor),
        Err(refusal) => Err(refusal),
    }
}
