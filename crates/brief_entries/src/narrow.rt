//! Numbers in the width of a brief form.
ghost use Rattle.std.specs.Prelude.{◌≡◌, ◌<◌, ◌≤◌, ◌^◌, Some, None};

/// A handle, if it is below 256.
pub(crate) fn handle(h: u64) -> Option<u8>
    ensures ordinary { h < 2 ^ 8 → result ≡ Some h }
    ensures large { 2 ^ 8 ≤ h → result ≡ None }
{
    u8::try_from(h).ok()
}

/// A field, if it is below 65,536.
pub(crate) fn field(i: u64) -> Option<u16>
    ensures ordinary { i < 2 ^ 16 → result ≡ Some i }
    ensures large { 2 ^ 16 ≤ i → result ≡ None }
{
    u16::try_from(i).ok()
}

/// Any other number, if it is below 2^32.
pub(crate) fn number(n: u64) -> Option<u32>
    ensures ordinary { n < 2 ^ 32 → result ≡ Some n }
    ensures large { 2 ^ 32 ≤ n → result ≡ None }
{
    u32::try_from(n).ok()
}
