//! The header of a picture, built in a buffer of fixed size, so that it takes no memory.

ghost use Rattle.std.specs.Prelude.{◌≡◌, ◌≤◌, ◌+◌, ◌++◌, decimal};
ghost use Rattle.arrayvec.specs.ArrayString.{array_string_len};
ghost use Rattle.dri_ppm.specs.Ppm.{header};

use arrayvec::ArrayString;
use itoa::Buffer;

/// A header: at most 128 bytes.
pub type Header = ArrayString<128>;

/// Puts a number last, for which there is room.
fn push_number(header: &mut Header, number: u32)
    requires { array_string_len header.old ≤ 64 }
    ensures bytes { header.new.bytes ≡ header.old.bytes ++ decimal number }
    ensures room { array_string_len header.new ≤ array_string_len header.old + 40 }
{
    let mut digits = Buffer::new();
    header.push_str(digits.format(number));
}

/// The header of a picture of these sides.
pub fn header_of(width: u32, height: u32) -> Header
    ensures { result.bytes ≡ header width height }
{
    let mut header = Header::new();
    header.push_str("P6\n");
    push_number(&mut header, width);
    header.push_str(" ");
    push_number(&mut header, height);
    header.push_str("\n255\n");
    header
}
