//! Whole numbers at the front of bytes, the highest byte first.

ghost use Rattle.std.specs.Prelude.{◌≡◌, ◌≤◌, ◌++◌, length, drop};
ghost use Rattle.std.specs.Int.{cast_unsigned, cast_signed, w64};
ghost use Rattle.tt_value.specs.BigEndian.{big_endian, number};

use byteorder::{BigEndian, ByteOrder};

#[tactic(auto, unfolding(crate::specs::BigEndian::number))]
pub fn read_u16(bytes: &[u8]) -> u16
    requires { 2 ≤ length bytes.now }
    ensures { result ≡ number 2 bytes.now }
{
    BigEndian::read_u16(bytes)
}

#[tactic(auto, unfolding(crate::specs::BigEndian::number))]
pub fn read_u32(bytes: &[u8]) -> u32
    requires { 4 ≤ length bytes.now }
    ensures { result ≡ number 4 bytes.now }
{
    BigEndian::read_u32(bytes)
}

#[tactic(auto, unfolding(crate::specs::BigEndian::number))]
pub fn read_u64(bytes: &[u8]) -> u64
    requires { 8 ≤ length bytes.now }
    ensures { result ≡ number 8 bytes.now }
{
    BigEndian::read_u64(bytes)
}

/// In two's complement.
pub fn read_i64(bytes: &[u8]) -> i64
    requires { 8 ≤ length bytes.now }
    ensures { result ≡ cast_signed w64 (number 8 bytes.now) }
{
    read_u64(bytes).cast_signed()
}

#[tactic(auto, unfolding(crate::specs::BigEndian::big_endian))]
pub fn write_u16(out: &mut [u8], x: u16)
    requires { 2 ≤ length out.old }
    ensures { out.new ≡ big_endian 2 x ++ drop 2 out.old }
{
    BigEndian::write_u16(out, x);
}

#[tactic(auto, unfolding(crate::specs::BigEndian::big_endian))]
pub fn write_u32(out: &mut [u8], x: u32)
    requires { 4 ≤ length out.old }
    ensures { out.new ≡ big_endian 4 x ++ drop 4 out.old }
{
    BigEndian::write_u32(out, x);
}

#[tactic(auto, unfolding(crate::specs::BigEndian::big_endian))]
pub fn write_u64(out: &mut [u8], x: u64)
    requires { 8 ≤ length out.old }
    ensures { out.new ≡ big_endian 8 x ++ drop 8 out.old }
{
    BigEndian::write_u64(out, x);
}

/// In two's complement.
pub fn write_i64(out: &mut [u8], x: i64)
    requires { 8 ≤ length out.old }
    ensures { out.new ≡ big_endian 8 (cast_unsigned w64 x) ++ drop 8 out.old }
{
    write_u64(out, x.cast_unsigned());
}
