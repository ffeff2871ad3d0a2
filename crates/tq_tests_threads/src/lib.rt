//! Tests of work in threads: each piece is run once, and results are in order, for any schedule. And of files loaded by
//! several workers: the tables and faults are those of one thread, for every number of workers. They are run by `rt
//! test` and are not a script, because a program with tests is proved twice.
#![tactic(auto)]

#[cfg(test)]
mod loading;
#[cfg(test)]
mod run;
