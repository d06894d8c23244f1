// One triangle: whether it is wide, and its two terms. Each term carries a fixed bias, so that no number has a sign.
ghost use Rattle.std.specs.Prelude.{◌≡◌, ◌+◌, ◌*◌, ◌^◌, ◌≤◌, false, pos, ◌-ℤ◌};
ghost use Rattle.weigh.specs.Answers.{apart, wide};
ghost use Rattle.weigh.specs.Sums.{shadow_of};
ghost use Rattle.weigh.specs.Biased.{Close, Low};

use volume::Corner;

fn is_apart(m: u64, n: u64) -> bool
    requires m_bound { m ≤ 2 ^ 32 }
    requires n_bound { n ≤ 2 ^ 32 }
    ensures { result ≡ apart m n }
{
    // n + 512 - m wraps round where m is larger, and is then above 2^63
    1024 < (n + 512).wrapping_sub(m)
}

pub(crate) fn is_wide(a: Corner, b: Corner, c: Corner) -> bool
    requires low { Low a }
    requires low_2 { Low b }
    requires low_3 { Low c }
    ensures { result ≡ wide a b c }
{
    (is_apart(a.x, b.x) | is_apart(a.y, b.y)) | (is_apart(a.x, c.x) | is_apart(a.y, c.y))
}

// how far n stands after m, and 512
fn after(m: u64, n: u64) -> u64
    requires { Close m n }
    ensures m_value { result + m ≡ n + 512 }
    ensures upper_bound { result ≤ 1024 }
{
    n + 512 - m
}

// the shadow and 2^21
pub(crate) fn shadow_of(a: Corner, b: Corner, c: Corner) -> u64
    requires low { Low a }
    requires low_2 { Low b }
    requires low_3 { Low c }
    requires c_value { wide a b c ≡ false }
    ensures pos_value { pos result -ℤ pos (2 ^ 21) ≡ shadow_of a b c }
    ensures upper_bound { result ≤ 2 ^ 22 }
{
    let bx = after(a.x, b.x);
    let by = after(a.y, b.y);
    let cx = after(a.x, c.x);
    let cy = after(a.y, c.y);
    bx * cy + 512 * (by + cx) + 2097152 - by * cx - 512 * (bx + cy)
}

// (az + bz + cz) times the shadow, and 2^55
pub(crate) fn pillar_of(z: u64, shadow: u64) -> u64
    requires z_bound { z ≤ 3 * 2 ^ 32 }
    requires shadow_bound { shadow ≤ 2 ^ 22 }
    ensures z_value { result + z * 2 ^ 21 ≡ z * shadow + 2 ^ 55 }
    ensures upper_bound { result ≤ 2 ^ 57 }
{
    z * shadow + 36028797018963968 - z * 2097152
}
