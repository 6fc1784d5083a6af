//! The tests of each crate, in a module of its own.

mod artery_model_tests;
mod band_measure_tests;
mod diagram_draw_tests;
mod given;
mod half_integer_tests;
mod outer_edge_tests;
mod search_box_tests;
mod second_plan_tests;
mod speed_steps_tests;
mod time_space_tests;
mod whole_offsets_tests;
