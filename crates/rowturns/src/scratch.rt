// Scratch at the end of a turn.
ghost use Rattle.std.specs.Prelude.{◌≡◌, ◌≤◌, length};
ghost use Rattle.normal.specs.Layout.{scratch_length};
ghost use Rattle.runs.specs.Cleared.{cleared};

// What a turn uses becomes +0.0, and the rest is untouched.
pub(crate) fn zero_first(scratch: &mut [f64])
    requires { scratch_length ≤ length scratch.old }
    ensures { scratch.new ≡ cleared scratch.old }
{
    scratch[..normal::SCRATCH].fill(0.0);
}
