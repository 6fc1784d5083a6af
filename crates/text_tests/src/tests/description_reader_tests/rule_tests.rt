//! Rules between the values of a description.

/// A link too few, a name twice, and a greatest cycle below the least.
pub static RULES: [&str; 3] = [
    "14 [[signal]]\nname = 'C'\nred = 50 -> CountMismatch link",
    "12 name = 'A' -> RepeatedName signal[2].name",
    "4 cycle = ['36.0', '35.9'] -> LimitsCrossed artery.cycle",
];

/// Signals without a pattern or without green, and limits that cross.
pub static TURN_RULES: [&str; 9] = [
    // A signal without a pattern.
    "15 patterns = [] -> NoPattern signal[1].patterns",
    "28 patterns = [] -> NoPattern signal[3].patterns",
    // A red and a left turn that leave no green.
    "14 left_in = 60 -> NoGreen signal[1].left_in",
    "14 left_in = 59 -> described",
    "13 left_out = 60 -> NoGreen signal[1].left_out",
    "25 red = 31 -> NoGreen signal[3].left_out",
    // Limits that cross.
    "37 change_out = ['5', '-5'] -> LimitsCrossed link[1].change_out",
    "38 change_in = [0, '-1/1000'] -> LimitsCrossed link[1].change_in",
    "38 change_in = ['3.0', 3] -> described",
];
