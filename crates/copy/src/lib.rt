// The copying leaf: bytes into the part of a buffer that is lent, in one move. Internal to the library.
#![tactic(auto)]

ghost use Rattle.std.specs.Prelude.{◌≡◌, ◌+◌, ◌≤◌, length, replicate};
ghost use Rattle.wire.specs.Wire.{stored};

// Copies `src` into the part of a buffer from `k` on.
pub fn copy_at(out: &mut [u8], k: usize, src: &[u8])
    requires { k + length src.now ≤ length out.old }
    ensures { out.new ≡ stored out.old k src.now }
{
    out[k..k + src.len()].copy_from_slice(src);
}

// Writes n zeros from `k` on.
pub fn clear_at(out: &mut [u8], k: usize, n: usize)
    requires { k + n ≤ length out.old }
    ensures { out.new ≡ stored out.old k (replicate n 0) }
{
    out[k..k + n].fill(0);
}
