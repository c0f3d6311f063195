//! Fields at places of bytes, their lowest byte first.
ghost use Rattle.std.specs.Prelude.{◌≡◌, ◌≤◌, ◌+◌, ◌↔◌, length, IsTrue};
ghost use Rattle.file_model.specs.Chunks.{number_at, short_at};
ghost use Rattle.lib_base.specs.Sounds.{part};

/// The number in the four bytes at a place.
pub(crate) fn number_at(bytes: &[u8], at: usize) -> u32
    requires { at + 4 ≤ length bytes.now }
    ensures { result ≡ number_at bytes.now at }
{
    let rest = bytes.split_at(at).1;
    u32::from_le_bytes([rest[0], rest[1], rest[2], rest[3]])
}

/// The number in the two bytes at a place.
pub(crate) fn short_at(bytes: &[u8], at: usize) -> u16
    requires { at + 2 ≤ length bytes.now }
    ensures { result ≡ short_at bytes.now at }
{
    let rest = bytes.split_at(at).1;
    u16::from_le_bytes([rest[0], rest[1]])
}

/// Whether bytes stand at a place.
pub(crate) fn has_part(bytes: &[u8], at: usize, wanted: &[u8]) -> bool
    requires { at + length wanted.now ≤ length bytes.now }
    ensures { IsTrue result ↔ (part bytes.now at (length wanted.now) ≡ wanted.now) }
{
    let rest = bytes.split_at(at).1;
    rest.split_at(wanted.len()).0 == wanted
}
