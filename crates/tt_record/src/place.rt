//! Where the next entry stands: behind the last one, if it fits into its file, else at the beginning of the next file. An entry is
//! never split over two files.
ghost use Rattle.std.specs.Prelude.{◌≡◌, ◌≢◌, ◌<◌, ◌≤◌, ◌+◌, ◌^◌, Some, IfSome};
ghost use Rattle.tt_record.specs.Limits.{log_files_end};
ghost use Rattle.std.specs.declared.cmp.Ordering.TheVariants.{Less, Greater};
ghost use Rattle.tt_value.specs.Position.{position_cmp};
ghost use Rattle.tt_record.specs.Place.{end_of, position_of};

use crate::LOG_FILES_END;
use tt_value::Position;

/// Where an entry of this length stands behind an end: at the end where it fits into the file, else at the head of the
/// next file; `None` exactly where that file's number would be 1,000,000 or more.
pub fn place_entry(end: Position, length: u64, log_file_size: u32) -> Option<Position>
    ensures place { result ≡ position_of end length log_file_size }
    // Places never go back.
    ensures onward { IfSome result (λ at. position_cmp end at ≢ Greater) }
    // An entry that fits stays in its file.
    ensures stays { end.file < log_files_end → end.offset + length ≤ log_file_size → result ≡ Some end }
    // An entry that is no longer than a file lies within one.
    ensures within { length ≤ log_file_size → IfSome result (λ at. at.offset + length ≤ log_file_size) }
    ensures file { IfSome result (λ at. at.file < log_files_end) }
{
    let fits = match u64::from(end.offset).checked_add(length) {
        Some(behind) => behind <= u64::from(log_file_size),
        None => false,
    };
    if fits && end.file < LOG_FILES_END {
        return Some(end);
    }
    if fits || end.file >= LOG_FILES_END - 1 {
        return None;
    }
    Some(Position {
        file: end.file + 1,
        offset: 0,
    })
}

/// The end of an entry of this length.
pub fn entry_end(at: Position, length: u64) -> Position
    requires { at.offset + length < 2 ^ 32 }
    ensures end { result ≡ end_of at length }
    // It lies behind the entry's place.
    ensures behind { 1 ≤ length → position_cmp at result ≡ Less }
{
    Position {
        file: at.file,
        offset: at.offset + length as u32,
    }
}
