// A trace within limits, written.
ghost use Rattle.std.specs.Prelude.{min};
ghost use Rattle.streams.specs.Output.{Puts};
ghost use Rattle.lensanswers.specs.Lens.{track_texts, ends_texts, all_ends_texts, limits_texts};

use answers::put_number;
use intervals::{Interval, TraceLimits};
use streams::output::Output;

// K least greatest T n {surface}
pub fn put_limits(output: &mut Output, traced: TraceLimits, count: usize)
    ensures { Puts output.old (limits_texts traced count) output.new }
{
    put_track(output, traced.track);
    put_number(output, b" T", count as u64);
    put_surfaces(output, traced, count);
    output.put(b"\n");
}

// K least greatest
fn put_track(output: &mut Output, track: Interval)
    ensures { Puts output.old (track_texts track) output.new }
{
    let row = [track.low, track.high];
    output.put(b" K");
    output.put_floats(&row);
}

// least-height greatest-height least-slope greatest-slope
fn put_surface(output: &mut Output, height: Interval, slope: Interval)
    ensures { Puts output.old (ends_texts height slope) output.new }
{
    let row = [height.low, height.high, slope.low, slope.high];
    output.put_floats(&row);
}

// The ends of each surface's height and slope. A loop of its own: they stand side by side in two arrays, and not in a list.
fn put_surfaces(output: &mut Output, traced: TraceLimits, count: usize)
    ensures { Puts output.old (all_ends_texts traced.heights traced.slopes (min count 16)) output.new }
{
    let heights = traced.heights;
    let slopes = traced.slopes;
    output.clip();
    for i in 0..count.min(16) {
        put_surface(output, heights[i], slopes[i]);
    }
}
