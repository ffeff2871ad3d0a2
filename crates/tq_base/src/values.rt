//! The values of a row on its own.

ghost use Rattle.std.specs.Prelude.{◌≡◌, IfOk, refl};
ghost use Rattle.std.specs.Cmp.{partial_equiv_from_equiv, eq_by_cmp_equiv, partial_order_from_total};
ghost use Rattle.std.specs.Ordering.{eq_by_cmp, as_partial_cmp};
ghost use Rattle.tq_base.specs.ValueOrder.{values_cmp, values_total};

use crate::dense::push_copies;
use crate::value::Value;
use std::alloc::AllocError;
use std::cmp::Ordering;
use std::marker::Model;

/// The values of a row. Contracts see their list.
#[derive(Drop, Debug)]
pub struct Values {
    items: Vec<Value>,
}

impl Model for Values {
    ghost use Rattle.std.specs.Prelude.{List};
    ghost use Rattle.tq_base.specs.declared.value.Value.{Value as OneValue};

    ghost Value = { List OneValue };

    ghost view = { λ a. a.items.items };
}

impl Values {
    /// The values, moved in.
    pub fn of(items: Vec<Value>) -> Values
        ensures { result ≡ items.items }
    {
        Values { items }
    }

    /// The values, borrowed.
    pub fn get(&self) -> &[Value]
        ensures { result.now ≡ self.now }
    {
        self.items.as_slice()
    }

    /// Equal values. `AllocError` if an allocation failed.
    pub fn try_copy(&self) -> Result<Values, AllocError>
        ensures { IfOk result (λ v. v ≡ self.now) }
    {
        let mut items = Vec::new(*self.items.allocator());
        push_copies(&mut items, self.get())?;
        Ok(Values { items })
    }

    /// Compares at the first place at which the values differ; a proper prefix of a list is less.
    pub fn compare(&self, other: &Values) -> Ordering
        ensures { result ≡ values_cmp self.now other.now }
    {
        self.get().cmp(other.get())
    }
}

impl PartialEq for Values {
    ghost eq = { eq_by_cmp values_cmp };

    ghost laws = { partial_equiv_from_equiv (eq_by_cmp_equiv values_total) };

    fn eq(&self, other: &Values) -> bool {
        self.compare(other).is_eq()
    }
}

impl Eq for Values {
    ghost laws = { eq_by_cmp_equiv values_total };
}

impl PartialOrd for Values {
    ghost partial_cmp = { as_partial_cmp values_cmp };

    ghost laws = { partial_order_from_total values_total };

    fn partial_cmp(&self, other: &Values) -> Option<Ordering> {
        Some(self.compare(other))
    }
}

impl Ord for Values {
    ghost cmp = { values_cmp };

    ghost total = { values_total };

    ghost matches_partial_cmp = { λ x y. refl };

    ghost matches_eq = { λ x y. refl };

    fn cmp(&self, other: &Values) -> Ordering {
        self.compare(other)
    }
}
