// All quantities as a list.
ghost use Rattle.std.specs.Prelude.{◌≤◌, length};
ghost use Rattle.steps.specs.Inner.{AllListed};

// Lists all of `n` quantities in increasing number, each by its number less one. Words of `out` past them are free.
pub(crate) fn list(n: usize, out: &mut [usize])
    requires { n ≤ length out.old }
    ensures { AllListed n out.new }
{
    for (i, listed) in out[..n].iter_mut().enumerate() {
        *listed = i;
    }
}
