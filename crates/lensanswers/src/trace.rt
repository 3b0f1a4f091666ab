// A trace, written.
ghost use Rattle.streams.specs.Output.{Puts};
ghost use Rattle.lensanswers.specs.Lens.{failed_texts, traced_texts, paraxial_texts};

use answers::{put_all_there, put_kept, put_number};
use optics::{ParaxialProperties, ParaxialRay};
use streams::output::Output;

// failed
pub fn put_failed(output: &mut Output, is_kept: bool)
    ensures { Puts output.old (failed_texts is_kept) output.new }
{
    output.put(b" failed");
    put_kept(output, is_kept);
}

// ok T n {height slope}
pub fn put_traced(output: &mut Output, rays: [ParaxialRay; 16], count: usize)
    ensures { Puts output.old (traced_texts rays count) output.new }
{
    put_number(output, b" ok T", count as u64);
    put_all_there(output, &rays[..count.min(16)]);
}

// P efl bfl f-number
pub fn put_paraxial(output: &mut Output, q: ParaxialProperties)
    ensures { Puts output.old (paraxial_texts q) output.new }
{
    let row = [q.efl_mm, q.bfl_mm, q.f_number];
    output.put(b" P");
    output.put_floats(&row);
    output.put(b"\n");
}
