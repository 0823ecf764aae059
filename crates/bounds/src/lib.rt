// Bounds on the difference of two levels, as i64: by how much, at the most, the first is above the second.
#![tactic(auto)]

ghost use Rattle.std.specs.Prelude.{◌≡◌, ◌⊎◌, ℤ, ◌≤ℤ◌, Decides, int_lt};
ghost use Rattle.std.specs.Int.{int_min};
ghost use Rattle.theory.specs.Bound.{NoLarger, sum, sharper};
ghost use Rattle.bounds.specs.Meaning.{bound_of, total_sum, Moderate};

// Stands for no bound: zones are lent as plain i64, which leaves no room for an Option. It is the largest, so that numbers are
// ordered as the bounds that they stand for.
pub const NONE: i64 = i64::MAX;

// What two bounds, one after the other, say of the first level and the last. Where the exact sum does not fit, it gives
// the looser one that does: NONE above, the smallest i64 below.
// A closing adds one bound, `a`, to each of a row. The tests on `a` and the limits for `b`, which depend on `a` alone, are
// thus the same for the whole row, and the compiler takes them out of the loop: a comparison or two and an addition stay.
// With saturating_add, which tests the sum, a row took 1.6 to 1.8 times as long.
pub fn sum(a: i64, b: i64) -> i64
    ensures value { result ≡ total_sum a b }
    ensures never_sharper { NoLarger (sum (bound_of a) (bound_of b)) (bound_of result) }
    ensures exact { Moderate a → Moderate b → bound_of result ≡ sum (bound_of a) (bound_of b) }
    ensures commutes { result ≡ total_sum b a }
    ensures ordered { (c d : ℤ) → a ≤ℤ c → b ≤ℤ d → result ≤ℤ total_sum c d }
{
    if a == NONE {
        NONE
    } else if a < 0 {
        if b == NONE {
            NONE
        } else if b < i64::MIN - a {
            i64::MIN
        } else {
            a + b
        }
    } else if b >= NONE - a {
        NONE
    } else {
        a + b
    }
}

// The sharper of two bounds.
pub fn sharper(a: i64, b: i64) -> i64
    ensures value { result ≡ int_min a b }
    ensures means { bound_of result ≡ sharper (bound_of a) (bound_of b) }
    ensures one_of { (result ≡ a) ⊎ (result ≡ b) }
    ensures no_larger { NoLarger (bound_of result) (bound_of a) × NoLarger (bound_of result) (bound_of b) }
{
    a.min(b)
}

// Whether the first bound is sharper than the second.
pub fn is_sharper(a: i64, b: i64) -> bool
    ensures value { result ≡ int_lt a b }
    ensures means { Decides result (NoLarger (bound_of b) (bound_of a) → ⊥) }
{
    a < b
}

// Sums and comparisons at 0, at both ends and at none, worked out by hand.
#[cfg(test)]
mod tests {
    use super::{NONE, is_sharper, sharper, sum};
    use std::process::Abort;

    const MIN: i64 = i64::MIN;

    // Half of the way to the ends: two to the power of 62.
    const HALF: i64 = 4_611_686_018_427_387_904;

    // Each case is two bounds and their sum.
    fn check_sums(rt: &impl Abort, cases: &[(i64, i64, i64)]) {
        for &(a, b, total) in cases {
            assert_eq!(rt; sum(a, b), total);
            assert_eq!(rt; sum(b, a), total);
        }
    }

    #[test]
    fn small_sums_are_exact(rt: HostRuntime) {
        check_sums(
            &rt,
            &[
                (0, 0, 0),
                (0, 1, 1),
                (0, -1, -1),
                (1, -1, 0),
                (-1, -1, -2),
                (2, 3, 5),
                (-5, 3, -2),
            ],
        );
    }

    #[test]
    fn none_and_anything_is_none(rt: HostRuntime) {
        check_sums(
            &rt,
            &[
                (NONE, 0, NONE),
                (NONE, 1, NONE),
                (NONE, -1, NONE),
                (NONE, MIN, NONE),
                (NONE, MIN + 1, NONE),
                (NONE, NONE - 1, NONE),
                (NONE, NONE, NONE),
            ],
        );
    }

    #[test]
    fn sums_that_are_too_large_are_none(rt: HostRuntime) {
        check_sums(
            &rt,
            &[
                (NONE - 1, 0, 9_223_372_036_854_775_806),
                (NONE - 1, -1, 9_223_372_036_854_775_805),
                (NONE - 2, 1, 9_223_372_036_854_775_806),
                (HALF - 1, HALF - 1, 9_223_372_036_854_775_806),
                (NONE - 1, 1, NONE),
                (HALF, HALF - 1, NONE),
                (HALF, HALF, NONE),
                (NONE - 1, NONE - 1, NONE),
            ],
        );
    }

    #[test]
    fn sums_that_are_too_small_are_the_smallest(rt: HostRuntime) {
        check_sums(
            &rt,
            &[
                (MIN, 0, -9_223_372_036_854_775_808),
                (MIN, 1, -9_223_372_036_854_775_807),
                (MIN + 1, -1, -9_223_372_036_854_775_808),
                (-HALF, -HALF, -9_223_372_036_854_775_808),
                (MIN, -1, MIN),
                (MIN + 1, -2, MIN),
                (-HALF - 1, -HALF, MIN),
                (MIN, MIN, MIN),
            ],
        );
    }

    #[test]
    fn opposite_ends_add_up_to_small_sums(rt: HostRuntime) {
        check_sums(
            &rt,
            &[
                (MIN, NONE - 1, -2),
                (MIN + 1, NONE - 1, -1),
                (MIN + 2, NONE - 1, 0),
                (MIN, HALF, -HALF),
            ],
        );
    }

    #[test]
    fn the_sharper_is_the_smaller(rt: HostRuntime) {
        let cases = [
            (0, 0, 0),
            (1, -1, -1),
            (7, 9, 7),
            (NONE, 0, 0),
            (NONE - 1, NONE, NONE - 1),
            (NONE, NONE, NONE),
            (MIN + 1, MIN, MIN),
            (NONE, MIN, MIN),
        ];
        for (a, b, least) in cases {
            assert_eq!(rt; sharper(a, b), least);
            assert_eq!(rt; sharper(b, a), least);
        }
    }

    #[test]
    fn only_the_smaller_is_sharper(rt: HostRuntime) {
        for (a, b) in [
            (-1, 0),
            (0, 1),
            (NONE - 1, NONE),
            (MIN, MIN + 1),
            (MIN, NONE),
        ] {
            assert!(rt; is_sharper(a, b));
            assert!(rt; !is_sharper(b, a));
        }
        for a in [0, MIN, NONE - 1, NONE] {
            assert!(rt; !is_sharper(a, a));
        }
    }
}
