// Ranges of keys that a query needs from its sources.

ghost use Rattle.std.specs.Prelude.{◌≡◌, Some};
ghost use Rattle.std.specs.Option.{option_copied};
ghost use Rattle.tq_plan.specs.declared.plans.QueryPlan.{QueryPlan};
ghost use Rattle.tq_plan.specs.KeyRanges.{query_on, HasKeys, HasKeysOf};

use crate::plans::{Plan, QueryPlan, QuerySource};
use tq_base::KeyRange;

impl QueryPlan {
    /// A range that holds the keys of those rows of the source that are part of a row which passes the condition.
    /// `None` only if no row passes. The key of a row is the number in its first column, or 0 if that column holds texts.
    pub fn keys_of(&self, source: &QuerySource) -> Option<KeyRange>
        ensures { HasKeysOf self.now source.now result }
    {
        match &self.test {
            Some(test) if source.numbered => test.numbers_at(source.first),
            _ => Some(KeyRange::all()),
        }
    }

    /// `keys_of` for the source with this number; `None` if there is no such source.
    pub fn key_range(&self, source: u32) -> Option<KeyRange>
        ensures { HasKeys self.now source result }
    {
        self.keys_of(self.sources.get().get(source as usize)?)
    }
}

impl Plan {
    // The query of this side, if the plan has it.
    fn query_on(&self, side: u32) -> Option<&QueryPlan>
        ensures { option_copied result ≡ query_on self.now side }
    {
        match side {
            0 => Some(&self.left),
            1 => self.right.as_ref(),
            _ => None,
        }
    }

    /// `QueryPlan::key_range` for one side: 0 is the left query, 1 the right one. `None` if there is no such query.
    pub fn key_range(&self, side: u32, source: u32) -> Option<KeyRange>
        ensures { (query : QueryPlan) → query_on self.now side ≡ Some query → HasKeys query source result }
    {
        self.query_on(side)?.key_range(source)
    }
}
