// The trace's operations on interval ends.
ghost use Rattle.std.specs.Prelude.{◌≡◌};
ghost use Rattle.intervals.specs.Interval.{exactly, lesser, greater, times, plus, minus, over, ends_finite, crossed};

use intervals::Interval;

pub(crate) fn exact(x: f64) -> Interval
    ensures { result ≡ exactly x }
{
    Interval { low: x, high: x }
}

// The first is kept on ties.
fn lesser_of(a: f64, b: f64) -> f64
    ensures { result ≡ lesser a b }
{
    if b < a { b } else { a }
}

#[tactic(auto, unfolding(intervals::specs::Interval::greater))]
fn greater_of(a: f64, b: f64) -> f64
    ensures { result ≡ greater a b }
{
    if a < b { b } else { a }
}

pub(crate) fn product(a: Interval, b: Interval) -> Interval
    ensures { result ≡ times a b }
{
    let p = a.low * b.low;
    let q = a.low * b.high;
    let r = a.high * b.low;
    let s = a.high * b.high;
    let low = lesser_of(lesser_of(lesser_of(p, q), r), s);
    let high = greater_of(greater_of(greater_of(p, q), r), s);
    Interval { low, high }
}

pub(crate) fn sum(a: Interval, b: Interval) -> Interval
    ensures { result ≡ plus a b }
{
    Interval {
        low: a.low + b.low,
        high: a.high + b.high,
    }
}

pub(crate) fn difference(a: Interval, b: Interval) -> Interval
    ensures { result ≡ minus a b }
{
    Interval {
        low: a.low - b.high,
        high: a.high - b.low,
    }
}

pub(crate) fn quotient(a: Interval, n: f64) -> Interval
    ensures { result ≡ over a n }
{
    Interval {
        low: a.low / n,
        high: a.high / n,
    }
}

#[tactic(auto, unfolding(intervals::specs::Interval::ends_finite))]
pub(crate) fn ends_finite(a: Interval) -> bool
    ensures { result ≡ ends_finite a }
{
    floats::is_finite(a.low) && floats::is_finite(a.high)
}

pub(crate) fn is_crossed(a: Interval) -> bool
    ensures { result ≡ crossed a }
{
    a.high < a.low
}
