//! Numbers of two or of four bytes each, the lowest byte first.

ghost use Rattle.std.specs.Prelude.{◌*◌, ◌≡◌, length, IsTrue};
ghost use Rattle.std.specs.List.{flat_map};
ghost use Rattle.byteorder.specs.Endian.{little_bytes};
ghost use Rattle.lis_fields.specs.Layouts.{number_width};
ghost use Rattle.lis_model.specs.Sets.{fit};

use byteorder::{ByteOrder, LittleEndian};

// How many numbers two bytes can hold.
const SHORTS: u32 = 65_536;

/// How many bytes a number has in an image of that version.
pub fn number_width(version: u32) -> usize
    ensures { result ≡ number_width version }
{
    if version == 3 { 4 } else { 2 }
}

/// Reads as many numbers of two bytes as there is room for.
pub fn read_shorts(bytes: &[u8], numbers: &mut [u32])
    requires { length bytes.now ≡ 2 * length numbers.old }
    ensures len { length numbers.new ≡ length numbers.old }
    ensures short { IsTrue (fit 2 numbers.new) }
    ensures spelled { bytes.now ≡ flat_map (little_bytes 2) numbers.new }
{
    for (k, number) in numbers.iter_mut().enumerate() {
        *number = u32::from(LittleEndian::read_u16(&bytes[2 * k..]));
    }
}

/// Writes numbers of two bytes. Of a number that two bytes can't hold, its lowest two are written.
pub fn write_shorts(numbers: &[u32], bytes: &mut [u8])
    requires { length bytes.old ≡ 2 * length numbers.now }
    ensures { bytes.new ≡ flat_map (little_bytes 2) numbers.now }
{
    for (k, number) in numbers.iter().enumerate() {
        LittleEndian::write_u16(&mut bytes[2 * k..2 * k + 2], (*number % SHORTS) as u16);
    }
}

/// Reads as many numbers of an image of that version as there is room for.
pub fn read_wide(bytes: &[u8], numbers: &mut [u32], version: u32)
    requires { length bytes.now ≡ number_width version * length numbers.old }
    ensures len { length numbers.new ≡ length numbers.old }
    ensures fit { IsTrue (fit (number_width version) numbers.new) }
    ensures spelled { bytes.now ≡ flat_map (little_bytes (number_width version)) numbers.new }
{
    if version == 3 {
        LittleEndian::read_u32_into(bytes, numbers);
    } else {
        read_shorts(bytes, numbers);
    }
}

/// Writes numbers into an image of that version. Of a number that is too large for it, its lowest bytes are written.
pub fn write_wide(numbers: &[u32], bytes: &mut [u8], version: u32)
    requires { length bytes.old ≡ number_width version * length numbers.now }
    ensures { bytes.new ≡ flat_map (little_bytes (number_width version)) numbers.now }
{
    if version == 3 {
        LittleEndian::write_u32_into(numbers, bytes);
    } else {
        write_shorts(numbers, bytes);
    }
}
