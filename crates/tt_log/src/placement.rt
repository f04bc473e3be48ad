//! Whether entries of given lengths get their positions, each behind the one before.
ghost use Rattle.std.specs.Prelude.{◌≡◌, ◌≤◌, List, ℕ};
ghost use Rattle.tt_record.specs.Place.{end_of};
ghost use Rattle.tt_log.specs.Placement.{all_placed};
ghost use Rattle.tt_log.specs.Limits.{file_most};

use tt_record::place_entry;
use tt_value::Position;

// The end of an entry at a place. One that is longer than its file ends just past the file's size, since nothing
// stands behind it there.
fn end_in(at: Position, count: u64, size: u32) -> Position
    requires { size ≤ file_most }
    ensures { (rest : List ℕ) → all_placed result size rest ≡ all_placed (end_of at count) size rest }
{
    let room = (size as u64).saturating_sub(at.offset as u64);
    if count > room {
        return Position {
            file: at.file,
            offset: size + 1,
        };
    }
    Position {
        file: at.file,
        offset: at.offset + count as u32,
    }
}

// Whether entries of these lengths all get a place.
pub(crate) fn all_fit(end: Position, lengths: &[u64], size: u32) -> bool
    requires { size ≤ file_most }
    ensures { result ≡ all_placed end size lengths.now }
{
    let mut end = end;
    for count in lengths {
        match place_entry(end, *count, size) {
            Some(at) => end = end_in(at, *count, size),
            None => return false,
        }
    }
    true
}
