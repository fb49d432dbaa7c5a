// Copying into lent memory.
ghost use Rattle.std.specs.Prelude.{◌≡◌, ◌++◌, ◌≤◌, length, drop};

// The front of `into` becomes `from`, place by place: with `copy_from_slice` the archive would ask its caller for `memmove`.
pub(crate) fn copy(from: &[u32], into: &mut [u32])
    requires { length from.now ≤ length into.old }
    ensures { into.new ≡ from.now ++ drop (length from.now) into.old }
{
    for i in 0..from.len() {
        into[i] = from[i];
    }
}
