// Bytes at the front of a slice.
ghost use Rattle.std.specs.Prelude.{◌≡◌, ◌≤◌, ◌<◌, ◌++◌, length, drop};

// The bytes over the front of all, which keeps what stands behind them; where they do not fit, all stays as it is.
pub fn put_front(bytes: &[u8], all: &mut [u8])
    ensures fits { length bytes.now ≤ length all.old → all.new ≡ bytes.now ++ drop (length bytes.now) all.old }
    ensures longer { length all.old < length bytes.now → all.new ≡ all.old }
{
    if all.len() < bytes.len() {
        return;
    }
    all[..bytes.len()].copy_from_slice(bytes);
}
