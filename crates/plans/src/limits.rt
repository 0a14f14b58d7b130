// The limits that every plan keeps.
ghost use Rattle.std.specs.Prelude.{◌≡◌};
ghost use Rattle.model.specs.Answers.{answered};
ghost use Rattle.plans.specs.Limits.{plan_fault};

use model::fault::DrawFault;

pub(crate) fn check_limits(size: u16, root: u16) -> Result<(), DrawFault>
    ensures { result ≡ answered (plan_fault size root) tt }
{
    if !(1..=1024).contains(&size) {
        return Err(DrawFault::Limit);
    }
    if root >= size {
        return Err(DrawFault::Root);
    }
    Ok(())
}
