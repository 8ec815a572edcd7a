// A list of at most N elements that needs no memory of its own. No ArrayVec: it asks for a default, and a timing has none.
ghost use Rattle.std.specs.Prelude.{◌≡◌, ◌≤◌, ⊤};

use std::alloc::AllocError;

#[derive(Drop)]
pub struct Few<T, const N: usize> {
    pub items: [T; N],
    pub len: usize,
    ghost within: { len ≤ N },
}

// By hand: no derive of Clone is to be had for a generic struct with a ghost field.
impl<T: Copy, const N: usize> Clone for Few<T, N> {
    ghost is_clone = { λ x y. y ≡ x };

    ghost is_infallible = { λ _. ⊤ };

    fn clone(&self) -> Result<Few<T, N>, AllocError> {
        Ok(*self)
    }
}

impl<T: Copy, const N: usize> Copy for Few<T, N> {}
