//! Blocks of characters of one code unit each.
ghost use Rattle.std.specs.Prelude.{ℕ, ◌≡◌, ◌<◌, ◌≤◌, ◌+◌, ◌^◌, length, slice_index};

/// Writes the offsets from `first` on, one after the other.
#[inline(always)]
pub(crate) fn write_offsets(starts: &mut [u32], first: usize)
    requires { first + length starts.old ≤ 2 ^ 32 }
    ensures len { length starts.new ≡ length starts.old }
    ensures offsets { (k : ℕ) → k < length starts.old → slice_index starts.new k ≡ first + k }
{
    for k in 0..starts.len() {
        starts[k] = (first + k) as u32;
    }
}
