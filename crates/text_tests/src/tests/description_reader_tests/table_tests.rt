//! Whole tables that are absent, that are no tables, and signals that are too few or too many.

/// Lines of `PLAIN_STREET` replaced or taken away.
pub static TABLES: [&str; 18] = [
    "1-5 -> Missing artery",
    "1 [artery]|7-13 -> Missing signal",
    "1 [artery]|15-19 -> Missing link",
    "1 artery = 5|2-5 -> WrongType artery",
    "1 signal = 5\n[artery]|7-13 -> WrongType signal",
    "1 signal = [{ name = 'A', red = 50 }, 7]\n[artery]|7-13 -> WrongType signal[2]",
    "1 link = 'x'\n[artery]|15-19 -> WrongType link",
    "1 link = [5]\n[artery]|15-19 -> WrongType link[1]",
    "1 [artery]|11-13 -> OutOfRange signal",
    "1 signal = []\n[artery]|7-13 -> OutOfRange signal",
    // Of two tables that are absent or no tables the first.
    "1-13 -> Missing artery",
    "7-19 -> Missing signal",
    "2|15-19 -> Missing link",
    "1 version = '1'\nartery = 5|2-5 -> WrongType version",
    "1 artery = 5\nsignal = 5|2-13 -> WrongType artery",
    "1 signal = 5\nlink = 5\n[artery]|7-19 -> WrongType signal",
    "1 signal = [{ name = 'A', red = 50 }, 7]\nlink = 5\n[artery]|7-19 -> WrongType signal[2]",
    "2 units = 1|1 link = [5]\n[artery]|15-19 -> WrongType link[1]",
];

/// Signals of one name: from 2 to 16 there may be.
pub static COUNTS: [&str; 4] = [
    "1 signal = [{ name = 'A', red = 1 }]\n[artery]|7-13 -> OutOfRange signal",
    "1 signal = [{ name = 'A', red = 1 }, { name = 'A', red = 1 }]\n[artery]|7-13 -> RepeatedName signal[2].name",
    "1 signal = [{ name = 'A', red = 1 }, { name = 'A', red = 1 }, { name = 'A', red = 1 }, { name = 'A', red = 1 }, { name = 'A', red = 1 }, { name = 'A', red = 1 }, { name = 'A', red = 1 }, { name = 'A', red = 1 }, { name = 'A', red = 1 }, { name = 'A', red = 1 }, { name = 'A', red = 1 }, { name = 'A', red = 1 }, { name = 'A', red = 1 }, { name = 'A', red = 1 }, { name = 'A', red = 1 }, { name = 'A', red = 1 }]\n[artery]|7-13 -> CountMismatch link",
    "1 signal = [{ name = 'A', red = 1 }, { name = 'A', red = 1 }, { name = 'A', red = 1 }, { name = 'A', red = 1 }, { name = 'A', red = 1 }, { name = 'A', red = 1 }, { name = 'A', red = 1 }, { name = 'A', red = 1 }, { name = 'A', red = 1 }, { name = 'A', red = 1 }, { name = 'A', red = 1 }, { name = 'A', red = 1 }, { name = 'A', red = 1 }, { name = 'A', red = 1 }, { name = 'A', red = 1 }, { name = 'A', red = 1 }, { name = 'A', red = 1 }]\n[artery]|7-13 -> OutOfRange signal",
];
