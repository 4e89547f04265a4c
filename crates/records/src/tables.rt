ghost use Rattle.std.specs.Prelude.{◌≡◌, ◌≤◌};

use std::alloc::AllocError;

/// At most `N` items, in place: the first `len` of `items`. It holds fixed memory and can be copied, as a vector cannot.
pub struct Table<T: Copy, const N: usize> {
    pub(crate) items: [T; N],
    pub(crate) len: usize,
    ghost fits: { len ≤ N },
}

// by hand: a generic struct with a ghost field derives neither
impl<T: Copy, const N: usize> Copy for Table<T, N> {}

impl<T: Copy, const N: usize> Clone for Table<T, N> {
    ghost is_clone = { λ a b. a ≡ b };

    fn clone(&self) -> Result<Self, AllocError> {
        Ok(*self)
    }
}
