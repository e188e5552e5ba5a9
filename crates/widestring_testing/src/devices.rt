//! How many bytes a call of a slow device moves.

/// Returns how many bytes a call moves at most: `step` of them or, if that is 0, a pseudo-random number, mostly small
/// and sometimes greater than a chunk of `transcode`.
pub fn step_by(step: usize, seed: u32) -> usize {
    let bits = seed / 0x1_0000;
    if step > 0 {
        step
    } else if bits % 4 == 0 {
        bits as usize % 5000
    } else {
        bits as usize % 8
    }
}

/// Returns the next pseudo-random number.
pub fn next_seed(seed: u32) -> u32 {
    seed.wrapping_mul(1_103_515_245).wrapping_add(12_345)
}
