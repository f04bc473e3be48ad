//! The 16 bytes with which a log file begins: a mark, the version, and the number of the file.
ghost use Rattle.std.specs.Prelude.{◌≡◌};
ghost use Rattle.tt_log.specs.Walk.{log_header};

// The header of a log file.
#[tactic(auto, unfolding(tt_value::specs::BigEndian::big_endian, crate::specs::Walk::log_header))]
pub(crate) fn header(number: u32) -> [u8; 16]
    ensures { result ≡ log_header number }
{
    let [a, b, c, d] = number.to_be_bytes();
    [84, 84, 76, 71, 0, 0, 0, 1, a, b, c, d, 0, 0, 0, 0]
}
