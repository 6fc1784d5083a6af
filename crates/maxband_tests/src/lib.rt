//! Tests of whole runs of `maxband` that are no cases of `run_cases`: of files that no memory holds, and of a search that is longer than
//! a program of the gate may take; and of the row of each command, which no contract can tell from another.
#![tactic(auto)]

#[cfg(test)]
mod long_files;
#[cfg(test)]
mod rows;
#[cfg(test)]
mod running;
#[cfg(test)]
mod tests;
