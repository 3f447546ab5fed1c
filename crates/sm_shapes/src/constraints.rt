// Constraints: bounds, a pattern, and the values of an enum, as a table has them. The codec judges values by them.
ghost use Rattle.std.specs.Prelude.{◌≡◌};
ghost use Rattle.sm_shapes.specs.Broken.{is_between};
ghost use Rattle.sm_shapes.specs.Broken as broken;
ghost use Rattle.sm_shapes.specs.ConstraintView.{constraint_data};

pub use crate::enums::{Numbers, Texts};

/// What a value must keep (Smithy 2.0, "Constraint traits").
#[derive(Debug, Drop)]
pub struct Constraints {
    /// The least length, or the least number.
    pub min: Option<i64>,
    /// The greatest length, or the greatest number.
    pub max: Option<i64>,
    /// The number of a pattern in a store.
    pub pattern: Option<u32>,
    /// The values of an enum.
    pub texts: Texts,
    /// The values of an intEnum.
    pub numbers: Numbers,
}

impl Constraints {
    /// Whether a number, or a length, lies between the bounds. Both ends are in. No memory.
    pub fn is_between(&self, number: i64) -> bool
        ensures { result ≡ is_between (constraint_data self.now) number }
    {
        is_at_least(self.min, number) && is_at_most(self.max, number)
    }
}

fn is_at_least(least: Option<i64>, number: i64) -> bool
    ensures { result ≡ broken.is_at_least least number }
{
    match least {
        None => true,
        Some(least) => least <= number,
    }
}

fn is_at_most(most: Option<i64>, number: i64) -> bool
    ensures { result ≡ broken.is_at_most most number }
{
    match most {
        None => true,
        Some(most) => number <= most,
    }
}
