// The depths down to which cells are listed.
ghost use Rattle.std.specs.Prelude.{◌≡◌};
ghost use Rattle.model.specs.Answers.{answered};
ghost use Rattle.model.specs.Depths.{depth_fits, limit_unless, depth_fault};

use model::fault::DrawFault;

const MOST_DEPTH: u16 = 4096;

pub(crate) fn depth_fits(depth: u16) -> bool
    ensures { result ≡ depth_fits depth }
{
    (1..=MOST_DEPTH).contains(&depth)
}

pub(crate) fn limit_unless(fits: bool) -> Result<(), DrawFault>
    ensures { result ≡ answered (limit_unless fits) tt }
{
    if fits { Ok(()) } else { Err(DrawFault::Limit) }
}

// A depth is 1 to 4,096.
pub fn check_depth(depth: u16) -> Result<(), DrawFault>
    ensures { result ≡ answered (depth_fault depth) tt }
{
    limit_unless(depth_fits(depth))
}
