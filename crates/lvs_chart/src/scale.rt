//! Values on the way to pixels, and the steps of axes.
ghost use Rattle.std.specs.Prelude.{◌<◌, ◌≤◌};

/// How far along so many pixels a value stands whose greatest one stands at the end. A greater
/// value stands at the end, and each value at the beginning where the greatest is 0.
pub(crate) fn scaled(value: u64, greatest: u64, pixels: u64) -> u64
    ensures within { result ≤ pixels }
{
    if greatest == 0 {
        return 0;
    }
    let place = match value.checked_mul(pixels) {
        Some(product) => product / greatest,
        None => value / (greatest / pixels.max(1)).max(1),
    };
    place.min(pixels)
}

/// The distance of the marks of an axis from 0 to the greatest value: 1, 2 or 5 times a power of
/// ten, so that there are at most so many marks behind the first.
pub(crate) fn tick_step(greatest: u64, most: u64) -> u64
    ensures some { 0 < result }
{
    let mut power = 1u64;
    for _ in 0..20 {
        for factor in [1, 2, 5] {
            let step = power.saturating_mul(factor).max(1);
            if greatest / step <= most {
                return step;
            }
        }
        power = power.saturating_mul(10);
    }
    greatest.max(1)
}
