//! Texts that more than one crate of tests reads.

use std::alloc::{AllocError, Global};

/// The description of two signals half a kilometre apart.
pub static PLAIN_STREET: &str = "[artery]
units = \"metric\"
parts = 100
cycle = [\"100\", \"100\"]
ratio = \"1\"

[[signal]]
name = \"A\"
red = 50

[[signal]]
name = \"B\"
red = 50

[[link]]
distance_out = 500
distance_in = 500
speed_out = [\"36\", \"36\"]
speed_in = [\"36\", \"36\"]
";

/// A timing of two signals 500 metres apart, each with half of the cycle red, whose bands fill the greens; a part and a second have two
/// ticks, and there are 100 parts and seconds.
pub static WHOLE_GREEN: &str =
    "grid 2\nunit 2\npattern 1 1\nred 0 100\nrun_out 100\nrun_in 100\nfirst 100 200\nband 100 100\n";

/// Two signals 250 metres apart: half the cycle outbound and nothing inbound, in half seconds; runs of 25 seconds.
pub static HALF_BAND: &str =
    "grid 2\nunit 2\npattern 1 1\nred 0 50\nrun_out 50\nrun_in 50\nfirst 100 150\nband 100 0\n";

/// A split between the block sums 0 and 1.
pub static SPLIT: &str = "split loop 1 0\n";

/// The sum is b_out + b_in + w_out 1 + w_in 1 + s 1 <= 1/2 where the block sum is at most 0.
pub static LOW_LEAF: &str =
    "leaf 7\nwout 2 1\nwin 2 1\nfast_out 1 1\nfast_in 1 1\ncycle_low 50\nloop_hi 1 1\nturn_hi 2 1\n";

/// The sum is b_out + b_in + w_out 2 + w_in 2 + s 2 <= 1/2 where the block sum is at least 1.
pub static HIGH_LEAF: &str =
    "leaf 7\nwout 1 1\nwin 1 1\nslow_out 1 1\nslow_in 1 1\ncycle_high 50\nloop_lo 1 1\nturn_hi 1 1\n";

/// That timing, which is best, with the split and its two leaves.
pub fn worked_text(alloc: Global) -> Result<String, AllocError> {
    format!(in alloc;
        "maxband-certificate 1\nverdict best\nvalue 1/2\n{}tree\n{}{}{}end\n",
        HALF_BAND, SPLIT, LOW_LEAF, HIGH_LEAF
    )
}

/// That timing and a bound.
pub fn stopped_text(alloc: Global) -> Result<String, AllocError> {
    format!(in alloc;
        "maxband-certificate 1\nverdict open\nbound 3/4\nvalue 1/2\n{}tree\nleaf 0\nend\n",
        HALF_BAND
    )
}

/// The text of the best timing that lists its rows: its leaves name other rows of one list.
pub static WORKED_LISTED: &str = "maxband-certificate 2
verdict best
value 1/2
grid 2
unit 2
pattern 1 1
red 0 50
run_out 50
run_in 50
first 100 150
band 100 0
rows 14
wout 1
wout 2
win 1
win 2
fast_out 1
fast_in 1
slow_out 1
slow_in 1
cycle_low
cycle_high
loop_lo 1
loop_hi 1
turn_hi 1
turn_hi 2
tree
split loop 1 0
leaf 1 7
2 1
4 1
5 1
6 1
9 50
12 1
14 1
leaf 1 7
1 1
3 1
7 1
8 1
10 50
11 1
13 1
end
";
