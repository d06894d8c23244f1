// The bench grids. All but the cells have dimensions 3, 3, 3.

// 2^124, the largest magnitude that is let in, and the next float up.
pub(crate) const CAP: f32 = 21267647932558653966460912964485513216.0;

pub(crate) const ABOVE_CAP: f32 = 21267650467859854422919715957891923968.0;

// 1.0 everywhere but at the middle, (1,1,1).
pub(crate) fn ball(middle: f32) -> [f32; 27] {
    let mut sdf = [1.0f32; 27];
    sdf[13] = middle;
    sdf
}

// Ball, with another distance at one place.
pub(crate) fn ball_with(place: usize, distance: f32) -> [f32; 27] {
    let mut sdf = ball(-1.0);
    if let Some(d) = sdf.get_mut(place) {
        *d = distance;
    }
    sdf
}

// -1.0 where the pattern has a bit for the index, and 1.0 elsewhere.
pub(crate) fn signs(pattern: u32) -> [f32; 27] {
    let mut sdf = [1.0f32; 27];
    let mut rest = pattern;
    for d in sdf.iter_mut() {
        if rest % 2 == 1 {
            *d = -1.0;
        }
        rest /= 2;
    }
    sdf
}

// One cell: the corners at x = 0 have `low`, those at x = 1 `high`.
pub(crate) fn along_x(low: f32, high: f32) -> [f32; 8] {
    [low, high, low, high, low, high, low, high]
}
