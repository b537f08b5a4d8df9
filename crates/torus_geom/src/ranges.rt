//! Cyclic ranges of circles, columns or rows: after n - 1 comes 0.

ghost use Rattle.std.specs.Prelude.{◌≡◌, ◌≢◌, ◌<◌};
ghost use Rattle.torus_geom.specs.Range.{one_up as one_up_of, one_down as one_down_of, offset as offset_of, in_range as in_range_of, is_inside as is_inside_of};

/// The circle after `i`, of `n`.
#[inline]
pub fn one_up(n: u8, i: u8) -> u8
    requires { i < n }
    ensures value { result ≡ one_up_of n i }
    ensures below { result < n }
{
    if i + 1 < n { i + 1 } else { 0 }
}

/// The circle before `i`, of `n`.
#[inline]
pub fn one_down(n: u8, i: u8) -> u8
    requires { i < n }
    ensures value { result ≡ one_down_of n i }
    ensures below { result < n }
{
    if i == 0 { n - 1 } else { i - 1 }
}

/// How many steps up it is from `a` to `i`, of `n` circles.
#[inline]
pub fn offset(n: u8, a: u8, i: u8) -> u8
    requires a_below { a < n }
    requires i_below { i < n }
    ensures { result ≡ offset_of n a i }
{
    if a <= i { i - a } else { n - a + i }
}

/// Whether `i` is in the range from `a` up to `b`, mod `n`: met on the way up from `a`, `a` included,
/// before `b`.
pub fn in_range(n: u8, a: u8, b: u8, i: u8) -> bool
    requires a_below { a < n }
    requires b_below { b < n }
    requires i_below { i < n }
    requires proper { a ≢ b }
    ensures { result ≡ in_range_of n a b i }
{
    if a < b {
        a <= i && i < b
    } else {
        a <= i || i < b
    }
}

// Whether `i` is in the range from `a` up to `b`, and is not `a`.
pub(crate) fn is_inside(n: u8, a: u8, b: u8, i: u8) -> bool
    requires a_below { a < n }
    requires b_below { b < n }
    requires i_below { i < n }
    requires proper { a ≢ b }
    ensures { result ≡ is_inside_of n a b i }
{
    in_range(n, a, b, i) && i != a
}
