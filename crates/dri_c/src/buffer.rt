//! A caller's texts and buffers.

ghost use Rattle.std.specs.Prelude.{◌≡◌};
ghost use Rattle.dri_c.specs.Buffers.{filled, gained, has_room};

/// The bytes of a text. Those of length 0 never stand at the null pointer that C may give for them.
pub fn text_of<'a>(bytes: &'a [u8]) -> &'a [u8]
    ensures { result.now ≡ bytes.now }
{
    if bytes.is_empty() {
        return &[];
    }
    bytes
}

/// Whether a buffer has room for these bytes.
pub fn has_room(bytes: &[u8], buffer: &[u8]) -> bool
    ensures { result ≡ has_room bytes.now buffer.now }
{
    bytes.len() <= buffer.len()
}

/// Puts bytes at a buffer's begin where it has room for them, and tells how many were put; else it stays.
pub fn put(bytes: &[u8], buffer: &mut [u8]) -> u64
    ensures value { result ≡ gained bytes.now buffer.old }
    ensures bytes { buffer.new ≡ filled bytes.now buffer.old }
{
    if !has_room(bytes, buffer) {
        return 0;
    }
    buffer[..bytes.len()].copy_from_slice(bytes);
    bytes.len() as u64
}
