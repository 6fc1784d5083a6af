//! The families of rows that a link certificate names.

ghost use Rattle.std.specs.Prelude.{◌≡◌, ◌<◌, ◌^◌, length};
ghost use Rattle.certificate_model.specs.Families.{table_of};
ghost use Rattle.link_proof.specs.LinkFamilies.{links};

use certificate_model::{
    CYCLE_HIGH, CYCLE_LOW, DROP_IN, DROP_OUT, EQUAL_HIGH, EQUAL_LOW, FAST_IN, FAST_OUT, LEAST_IN,
    LEAST_OUT, LOOP_HIGH, LOOP_LOW, RATIO, RISE_IN, RISE_OUT, SLOW_IN, SLOW_OUT, TURN_HIGH,
    TURN_LOW, WAIT_IN, WAIT_OUT,
};
use plan_text::FamilyName;

/// Those of an artery, and those of links, which have a row for each link and are numbered on from an artery's last.
const LINK_FAMILIES: [FamilyName; 30] = [
    WAIT_OUT,
    WAIT_IN,
    FAST_OUT,
    FAST_IN,
    SLOW_OUT,
    SLOW_IN,
    RISE_OUT,
    RISE_IN,
    DROP_OUT,
    DROP_IN,
    CYCLE_LOW,
    CYCLE_HIGH,
    RATIO,
    LOOP_LOW,
    LOOP_HIGH,
    TURN_LOW,
    TURN_HIGH,
    LEAST_OUT,
    LEAST_IN,
    EQUAL_LOW,
    EQUAL_HIGH,
    FamilyName {
        text: "near_out_a",
        is_lone: false,
    },
    FamilyName {
        text: "near_out_b",
        is_lone: false,
    },
    FamilyName {
        text: "far_out_a",
        is_lone: false,
    },
    FamilyName {
        text: "far_out_b",
        is_lone: false,
    },
    FamilyName {
        text: "near_in_a",
        is_lone: false,
    },
    FamilyName {
        text: "near_in_b",
        is_lone: false,
    },
    FamilyName {
        text: "far_in_a",
        is_lone: false,
    },
    FamilyName {
        text: "far_in_b",
        is_lone: false,
    },
    FamilyName {
        text: "link_ratio",
        is_lone: false,
    },
];

/// The families of link certificates, by their numbers from 1 on: those of an artery, and then those of links.
#[tactic(auto, unfolding(crate::specs::LinkFamilies::links))]
pub fn link_families() -> &'static [FamilyName]
    ensures table { table_of result.now ≡ links }
    ensures few { length result.now < 2 ^ 8 }
{
    &LINK_FAMILIES
}
