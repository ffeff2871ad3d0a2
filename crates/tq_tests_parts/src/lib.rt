//! Tests of parts: records go to the parts of their values, and answers of parts are merged or added. They are run by `rt
//! test` and are not a script, because the writers of parts must know which bytes they are to take.
#![tactic(auto)]

#[cfg(test)]
mod dividing;
#[cfg(test)]
mod merging;
