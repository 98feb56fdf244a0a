//! Copying the front of what is left to read.
ghost use Rattle.std.specs.Prelude.{◌≡◌, length, min, take};

/// Copies as many bytes of `from` as there is room in `to`, and at most `most`, and answers how many.
pub fn copy_front(from: &[u8], to: &mut [u8], most: usize) -> usize
    ensures amount { result ≡ min (length from.now) (min most (length to.old)) }
    ensures copied { take result to.new ≡ take result from.now }
{
    let n = from.len().min(most.min(to.len()));
    to[..n].copy_from_slice(&from[..n]);
    n
}
