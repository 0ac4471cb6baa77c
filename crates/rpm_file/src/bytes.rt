//! Numbers as they stand in bytes, the highest byte first.

ghost use Rattle.std.specs.Prelude.{◌≡◌, ◌+◌, ◌≤◌, length};
ghost use Rattle.rpm_file.specs.Prelude.{number_at, w16, w32};

/// The number of two bytes from a place on.
#[tactic(auto, unfolding(rpm_header::specs::Bytes::number_at))]
pub fn u16_at(bytes: &[u8], at: usize) -> u16
    requires { at + 2 ≤ length bytes.now }
    ensures { result ≡ number_at w16 bytes.now at }
{
    u16::from_be_bytes([bytes[at], bytes[at + 1]])
}

/// The number of four bytes from a place on.
#[tactic(auto, unfolding(rpm_header::specs::Bytes::number_at))]
pub fn u32_at(bytes: &[u8], at: usize) -> u32
    requires { at + 4 ≤ length bytes.now }
    ensures { result ≡ number_at w32 bytes.now at }
{
    u32::from_be_bytes([bytes[at], bytes[at + 1], bytes[at + 2], bytes[at + 3]])
}
