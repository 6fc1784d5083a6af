//! Texts that are no document, keys that no description has, and needed keys that are absent.

/// Texts that are no documents, unknown keys, and needed keys that are absent.
pub static KEYS: [&str; 26] = [
    // Not a document: a bracket is left open, a number beyond 64 bits, a key twice.
    "1 [artery -> NotToml file",
    "9 red = 99999999999999999999 -> NotToml file",
    "9 red = 50\nred = 50 -> NotToml file",
    // The least unknown key by its bytes is chosen, and then printed.
    "1 colour = 1\n[artery] -> UnknownKey colour",
    "1 'a b' = 1\n[artery] -> UnknownKey ?",
    "3 parts = 100\nlane = 2 -> UnknownKey artery.lane",
    "3 parts = 100\nzeta = 1\nalpha = 2 -> UnknownKey artery.alpha",
    "3 parts = 100\naaa = 1\n'' = 2 -> UnknownKey artery.?",
    "3 parts = 100\na1234567890123456789012345678901234567890 = 1 -> UnknownKey artery.?",
    "3 parts = 100\na123456789012345678901234567890123456789 = 1 -> UnknownKey artery.a123456789012345678901234567890123456789",
    "13 red = 50\nblue = 1 -> UnknownKey signal[2].blue",
    "9 red = 50\n'a.b' = 1 -> UnknownKey signal[1].?",
    "16 distance_out = 500\nspeed = 1 -> UnknownKey link[1].speed",
    "16 distance_out = 500\n'a/b' = 1 -> UnknownKey link[1].?",
    "16 distance_out = 500\nchange_out = [0, 1] -> UnknownKey link[1].change_out",
    "16 distance_out = 500\nchange_in = [0, 1] -> UnknownKey link[1].change_in",
    // Needed keys.
    "2 -> Missing artery.units",
    "3 -> Missing artery.parts",
    "4 -> Missing artery.cycle",
    "5 -> Missing artery.ratio",
    "8 -> Missing signal[1].name",
    "13 -> Missing signal[2].red",
    "16 -> Missing link[1].distance_out",
    "17 -> Missing link[1].distance_in",
    "18 -> Missing link[1].speed_out",
    "19 -> Missing link[1].speed_in",
];

/// Keys that stand where they have no meaning.
pub static PLACES: [&str; 5] = [
    // Nothing is changed, and nothing is wrong.
    "0 -> described",
    // Keys of other tables, and a change after the last link.
    "13 left = 10 -> UnknownKey signal[1].left",
    "8 ratio = 1\nred = 40 -> UnknownKey artery.red",
    "44 speed_in = [20, 45]\nchange_out = [0, 1] -> UnknownKey link[2].change_out",
    "44 speed_in = [20, 45]\nchange_in = [0, 1] -> UnknownKey link[2].change_in",
];

/// Two keys that no description has: the least by its bytes is named.
pub static TWO_UNKNOWN: [&str; 11] = [
    // Digits before capitals before `_` before small letters before letters of two bytes.
    "3 parts = 100\n9 = 1\n10 = 2 -> UnknownKey artery.10",
    "3 parts = 100\nA = 1\n9 = 2 -> UnknownKey artery.9",
    "3 parts = 100\n_ = 1\nB = 2 -> UnknownKey artery.B",
    "3 parts = 100\na = 1\n_ = 2 -> UnknownKey artery._",
    "3 parts = 100\n'é' = 1\nz = 2 -> UnknownKey artery.z",
    // A key before those that it begins, and `-` before `_`.
    "9 red = 50\naa = 1\na = 2 -> UnknownKey signal[1].a",
    "9 red = 50\nred_ = 1\nred- = 2 -> UnknownKey signal[1].red-",
    // A known key that comes before is passed over.
    "13 red = 50\nzz = 1\nrod = 2 -> UnknownKey signal[2].rod",
    "19 speed_in = [36, 36]\nspeed = 1\ndistance = 2 -> UnknownKey link[1].distance",
    // On the last link both limits of a change are unknown.
    "19 speed_in = [36, 36]\nchange_out = [0, 1]\nchange_in = [0, 1] -> UnknownKey link[1].change_in",
    // The one that is named is printed as `?`.
    "3 parts = 100\n'a b' = 1\nab = 2 -> UnknownKey artery.?",
];
