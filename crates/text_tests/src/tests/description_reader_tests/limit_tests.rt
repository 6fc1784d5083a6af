//! Texts that are no numbers, and values outside their limits.

/// Texts that are no numbers.
pub static NUMBERS: [&str; 9] = [
    "4 cycle = ['1/0', 100] -> BadNumber artery.cycle[1]",
    "4 cycle = [100, '+1'] -> BadNumber artery.cycle[2]",
    "5 ratio = '1.' -> BadNumber artery.ratio",
    "5 ratio = '' -> BadNumber artery.ratio",
    "5 ratio = 'x' -> BadNumber artery.ratio",
    "18 speed_out = ['', 36] -> BadNumber link[1].speed_out[1]",
    "18 speed_out = [36, '1234567890123456789'] -> BadNumber link[1].speed_out[2]",
    "19 speed_in = ['.5', '.5'] -> BadNumber link[1].speed_in[1]",
    "19 speed_in = [36, '36 '] -> BadNumber link[1].speed_in[2]",
];

/// The same in changes of pace.
pub static CHANGE_NUMBERS: [&str; 4] = [
    "8 ratio = '3/-4' -> BadNumber artery.ratio",
    "37 change_out = ['--1', 1] -> BadNumber link[1].change_out[1]",
    "37 change_out = [1, '1/00'] -> BadNumber link[1].change_out[2]",
    "38 change_in = [0, '1e3'] -> BadNumber link[1].change_in[2]",
];

/// Values outside their limits, and one just inside.
pub static LIMITS: [&str; 27] = [
    // Those of a quantity are on its lowest terms.
    "5 ratio = '-1' -> OutOfRange artery.ratio",
    "5 ratio = '101' -> OutOfRange artery.ratio",
    "5 ratio = '99.999' -> described",
    "5 ratio = '99.9999' -> OutOfRange artery.ratio",
    "5 ratio = '1/1001' -> OutOfRange artery.ratio",
    "1 version = 3\n[artery] -> OutOfRange version",
    "1 version = 0\n[artery] -> OutOfRange version",
    "1 [artery]\nname = '' -> OutOfRange artery.name",
    "1 [artery]\nname = 'aaaaaaaaaaaaaaaaaaaaaaaaaaaaaaaaaaaaaaaaaaaaaaaaaaaaaaaaaaaaa' -> OutOfRange artery.name",
    "1 [artery]\nname = \"a\\u0007\" -> OutOfRange artery.name",
    "2 units = 'English' -> OutOfRange artery.units",
    "3 parts = 1 -> OutOfRange artery.parts",
    "3 parts = 3601 -> OutOfRange artery.parts",
    "4 cycle = ['-0', 100] -> OutOfRange artery.cycle[1]",
    "4 cycle = [100, 3601] -> OutOfRange artery.cycle[2]",
    "4 cycle = ['1.0001', 100] -> OutOfRange artery.cycle[1]",
    "4 cycle = [1, '1002/1001'] -> OutOfRange artery.cycle[2]",
    "4 cycle = [100, '100001/1000'] -> OutOfRange artery.cycle[2]",
    "8 name = '' -> OutOfRange signal[1].name",
    "12 name = \"\\u007f\" -> OutOfRange signal[2].name",
    "9 red = 0 -> OutOfRange signal[1].red",
    "9 red = 4294967346 -> OutOfRange signal[1].red",
    "13 red = 100 -> OutOfRange signal[2].red",
    "16 distance_out = 0 -> OutOfRange link[1].distance_out",
    "17 distance_in = 30001 -> OutOfRange link[1].distance_in",
    "18 speed_out = ['0.0001', '0.0001'] -> OutOfRange link[1].speed_out[1]",
    "19 speed_in = [301, '301'] -> OutOfRange link[1].speed_in[1]",
];

/// A cycle of as few parts as there may be.
pub static FEW_PARTS: [&str; 1] = ["3 parts = 2|9 red = 1|13 red = 1 -> described"];

/// Values at the ends of their limits, and names of letters that have two bytes.
pub static ENDS: [&str; 14] = [
    "3 parts = 3600 -> described",
    "4 cycle = [1, 3600] -> described",
    "5 ratio = 0 -> described",
    "5 ratio = 100 -> described",
    "5 ratio = '1/1000' -> described",
    "9 red = 99 -> described",
    "16 distance_out = 1 -> described",
    "17 distance_in = 30000 -> described",
    "18 speed_out = [1, 300] -> described",
    "18 speed_out = [1, 301] -> OutOfRange link[1].speed_out[2]",
    "8 name = ' ~' -> described",
    "8 name = \"a\\u001f\" -> OutOfRange signal[1].name",
    "8 name = 'éééééééééééééééééééééééééééééé' -> described",
    "8 name = 'ééééééééééééééééééééééééééééééé' -> OutOfRange signal[1].name",
];

/// The same of left turns, clearances, patterns and changes of pace.
pub static TURN_LIMITS: [&str; 19] = [
    // Left turns and clearances from 0 to one part less than all.
    "13 left_out = -1 -> OutOfRange signal[1].left_out",
    "13 left_out = 100 -> OutOfRange signal[1].left_out",
    "13 left_out = 4294967296 -> OutOfRange signal[1].left_out",
    "14 left_in = -1 -> OutOfRange signal[1].left_in",
    "27 left_in = 100 -> OutOfRange signal[3].left_in",
    "16 clear_out = -1 -> OutOfRange signal[1].clear_out",
    "29 clear_out = 100 -> OutOfRange signal[3].clear_out",
    "17 clear_in = -1 -> OutOfRange signal[1].clear_in",
    "30 clear_in = 100 -> OutOfRange signal[3].clear_in",
    "6 parts = 99 -> OutOfRange signal[3].clear_in",
    // Patterns from 1 to 4.
    "15 patterns = [1, 5] -> OutOfRange signal[1].patterns[2]",
    "28 patterns = [0] -> OutOfRange signal[3].patterns[1]",
    "15 patterns = [3, 3, -1] -> OutOfRange signal[1].patterns[3]",
    "15 patterns = [4294967297] -> OutOfRange signal[1].patterns[1]",
    // Changes of pace of at most 1000 either way.
    "37 change_out = [-1001, 0] -> OutOfRange link[1].change_out[1]",
    "37 change_out = [0, 1001] -> OutOfRange link[1].change_out[2]",
    "38 change_in = ['-2001/2', 0] -> OutOfRange link[1].change_in[1]",
    "38 change_in = [0, '1/1001'] -> OutOfRange link[1].change_in[2]",
    "37 change_out = [-1000, 1000] -> described",
];
