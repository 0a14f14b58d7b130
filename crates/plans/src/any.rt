// One plan of either kind.
ghost use Rattle.plans.specs.Anys.{any_layout, any_sound};

use crate::complete::Complete;
use crate::table::Table;
use model::plan::Plan;

#[derive(Drop)]
pub enum AnyPlan {
    Complete(Complete),
    Table(Table),
}

impl Plan for AnyPlan {
    ghost layout = { any_layout };

    ghost sound = { any_sound };

    fn size(&self) -> u16 {
        match self {
            AnyPlan::Complete(plan) => plan.size(),
            AnyPlan::Table(plan) => plan.size(),
        }
    }

    fn root(&self) -> u16 {
        match self {
            AnyPlan::Complete(plan) => plan.root(),
            AnyPlan::Table(plan) => plan.root(),
        }
    }

    fn degree(&self, v: u16) -> u16 {
        match self {
            AnyPlan::Complete(plan) => plan.degree(v),
            AnyPlan::Table(plan) => plan.degree(v),
        }
    }

    fn target(&self, v: u16, port: u16) -> Option<u16> {
        match self {
            AnyPlan::Complete(plan) => plan.target(v, port),
            AnyPlan::Table(plan) => plan.target(v, port),
        }
    }
}
