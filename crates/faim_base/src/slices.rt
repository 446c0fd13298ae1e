// Parts of slices, and slices as arrays.
ghost use Rattle.std.specs.Prelude.{◌≡◌, ◌≤◌, ◌==◌, if◌then◌else◌, Some, None, length, take, drop};

/// What stands from a place on, counted from 0.
pub fn after(bytes: &[u8], place: usize) -> &[u8]
    requires { place ≤ length bytes.now }
    ensures { result.now ≡ drop place bytes.now }
{
    &bytes[place..]
}

/// What stands before a place, counted from 0.
pub fn before(bytes: &[u8], place: usize) -> &[u8]
    requires { place ≤ length bytes.now }
    ensures { result.now ≡ take place bytes.now }
{
    &bytes[..place]
}

/// The bytes as an array. None exactly where they aren't so many.
pub fn array_of<const N: usize>(bytes: &[u8]) -> Option<[u8; N]>
    ensures { result ≡ (if length bytes.now == N then Some bytes.now else None) }
{
    if bytes.len() != N {
        return None;
    }
    let mut array = [0; N];
    array.copy_from_slice(bytes);
    Some(array)
}
