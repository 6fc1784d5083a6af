//! Tests of whole searches and their reports: `branch_tree`, `multi_band`, `diagram_print`, `cycle_sweep` and `whole_plan`, through what is public of
//! them.
#![tactic(auto)]

#[cfg(test)]
mod branch_tree_tests;
#[cfg(test)]
mod cycle_sweep_tests;
#[cfg(test)]
mod diagram_print_tests;
#[cfg(test)]
mod multi_band_tests;
#[cfg(test)]
mod whole_plan_tests;
