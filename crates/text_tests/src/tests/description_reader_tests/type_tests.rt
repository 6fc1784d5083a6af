//! Values of another type.

/// Values of another type.
pub static TYPES: [&str; 31] = [
    // Floats, dates and truth values are no numbers.
    "1 version = '1'\n[artery] -> WrongType version",
    "1 version = 1.0\n[artery] -> WrongType version",
    "1 [artery]\nname = 7 -> WrongType artery.name",
    "2 units = 1 -> WrongType artery.units",
    "3 parts = '100' -> WrongType artery.parts",
    "3 parts = true -> WrongType artery.parts",
    "4 cycle = 100 -> WrongType artery.cycle",
    "4 cycle = [] -> WrongType artery.cycle",
    "4 cycle = [1.5] -> WrongType artery.cycle",
    "4 cycle = [100, 100, 100] -> WrongType artery.cycle",
    "4 cycle = [1979-05-27, 100] -> WrongType artery.cycle[1]",
    "4 cycle = [100, 100.0] -> WrongType artery.cycle[2]",
    "5 ratio = 1.0 -> WrongType artery.ratio",
    "5 ratio = [1] -> WrongType artery.ratio",
    "8 name = 5 -> WrongType signal[1].name",
    "9 red = '50' -> WrongType signal[1].red",
    "13 red = 47.5 -> WrongType signal[2].red",
    "9 red = 50\nleft_out = 1.5 -> WrongType signal[1].left_out",
    "9 red = 50\nleft_in = '5' -> WrongType signal[1].left_in",
    "9 red = 50\npatterns = 1 -> WrongType signal[1].patterns",
    "9 red = 50\npatterns = [1, '2'] -> WrongType signal[1].patterns[2]",
    "9 red = 50\nclear_out = false -> WrongType signal[1].clear_out",
    "13 red = 50\nclear_in = [1] -> WrongType signal[2].clear_in",
    "16 distance_out = '500' -> WrongType link[1].distance_out",
    "17 distance_in = 500.0 -> WrongType link[1].distance_in",
    "18 speed_out = 36 -> WrongType link[1].speed_out",
    "18 speed_out = [{ a = 1 }, 36] -> WrongType link[1].speed_out[1]",
    "19 speed_in = [36] -> WrongType link[1].speed_in",
    "19 speed_in = ['x', true] -> WrongType link[1].speed_in[2]",
    // Changes of pace, in a link before the other.
    "15 [[link]]\nchange_out = [0]\ndistance_out = 5\ndistance_in = 5\nspeed_out = [5, 5]\nspeed_in = [5, 5]\n[[link]] -> WrongType link[1].change_out",
    "15 [[link]]\nchange_in = [0, 1.5]\ndistance_out = 5\ndistance_in = 5\nspeed_out = [5, 5]\nspeed_in = [5, 5]\n[[link]] -> WrongType link[1].change_in[2]",
];

/// The same of left turns, patterns and changes of pace.
pub static TURN_TYPES: [&str; 6] = [
    // An empty array of patterns has a right type, one of limits has not.
    "27 left_in = 0.0 -> WrongType signal[3].left_in",
    "15 patterns = '1' -> WrongType signal[1].patterns",
    "15 patterns = [1.0] -> WrongType signal[1].patterns[1]",
    "37 change_out = [] -> WrongType link[1].change_out",
    "37 change_out = [true, 1] -> WrongType link[1].change_out[1]",
    "38 change_in = [0, 1, 2] -> WrongType link[1].change_in",
];
