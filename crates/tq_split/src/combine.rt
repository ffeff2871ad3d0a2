// How answers over parts are combined. The type has a module of its own because the definitions that contracts cite name it.

/// How the rows of the answers over all parts make the answer over the whole tables. `Merge`: they are its rows. `Add`: the
/// first `groups` values of a row name its group, and the others are counts and sums. Those of each group are added.
#[derive(Clone, Copy, Debug, PartialEq, Eq)]
pub enum Combine {
    Merge,
    Add { groups: u32 },
}
