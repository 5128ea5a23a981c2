// A puzzle's lists as a board's arrays: the unused places are filled up.
ghost use Rattle.std.specs.Prelude.{◌≡◌, ◌≤◌, length};
ghost use Rattle.lists.specs.Padded.{padded};

// The values, then the filler.
pub fn padded<T: Copy, const N: usize>(values: &[T], filler: T) -> [T; N]
    requires { length values.now ≤ N }
    ensures { result ≡ padded N filler values.now }
{
    let mut out = [filler; N];
    out[..values.len()].copy_from_slice(values);
    out
}
