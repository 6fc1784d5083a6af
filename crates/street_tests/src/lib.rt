//! Tests of the edge, of streets and of timings: `outer_edge`, `artery_model`, `speed_steps`, `search_box`, `time_space`, `band_measure`, `half_integer`,
//! `second_plan`, `whole_offsets` and `diagram_draw`, through what is public of them.
#![tactic(auto)]

#[cfg(test)]
mod tests;
