//! Arrays that are made of slices.

ghost use Rattle.std.specs.Prelude.{◌≡◌, ◌+◌, ◌++◌, length};

/// Writes two parts into `bytes`, one after the other.
fn put_both(bytes: &mut [u8], first: &[u8], second: &[u8])
    requires { length first.now + length second.now ≡ length bytes.old }
    ensures { bytes.new ≡ first.now ++ second.now }
{
    let (front, back) = bytes.split_at_mut(first.len());
    front.copy_from_slice(first);
    back.copy_from_slice(second);
}

/// An array of the first part and, after it, the second.
pub(crate) fn joined<const N: usize>(first: &[u8], second: &[u8]) -> [u8; N]
    requires { length first.now + length second.now ≡ N }
    ensures { result ≡ first.now ++ second.now }
{
    let mut bytes = [0; N];
    put_both(&mut bytes, first, second);
    bytes
}

/// An array of these bytes.
pub(crate) fn array_of<const N: usize>(bytes: &[u8]) -> [u8; N]
    requires { length bytes.now ≡ N }
    ensures { result ≡ bytes.now }
{
    let mut array = [0; N];
    array.copy_from_slice(bytes);
    array
}
