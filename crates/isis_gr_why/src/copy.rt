// The words of one memory, copied into another.
ghost use Rattle.std.specs.Prelude.{◌≡◌, length};

// Word by word: `copy_from_slice` is a call of memmove, and with what the loader does at the first such call `why` goes past its limit of stack.
pub(crate) fn copy_in(from: &[u64], into: &mut [u64])
    requires { length into.old ≡ length from.now }
    ensures { into.new ≡ from.now }
{
    for i in 0..from.len() {
        into[i] = from[i];
    }
}
