// Entries of lists by their index.

// 0 past the last: an index from a plan that the check takes is never past it, so no caller asks.
pub fn entry<T: Copy + Default>(of: &[T], i: usize) -> T {
    of.get(i).copied().unwrap_or_default()
}

// Nothing is set past the last.
pub fn set<T: Copy>(of: &mut [T], i: usize, x: T) {
    if let Some(old) = of.get_mut(i) {
        *old = x;
    }
}
