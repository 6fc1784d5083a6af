//! How wide texts are.

ghost use Rattle.std.specs.Prelude.{◌≡◌, ◌*◌, ◌<◌, ◌≤◌, ◌^◌};
ghost use Rattle.diagram_draw.specs.Widths.{byte_width, text_width, fitting};

/// The usual sizes of letters: of the street's name, of a plan's title, of what is measured and of the signals' names.
pub const TITLE_SIZE: u32 = 330;

pub const SUBTITLE_SIZE: u32 = 220;

pub const FACTS_SIZE: u32 = 165;

pub const NAME_SIZE: u32 = 150;

/// What stands between two words, and the letters that are as narrow as `r`.
const NARROW: &[u8] = b" !'(),-./:;I[\\]fijlrt|";

/// Those that are wider, up to the digits and `o`.
const MIDDLE: &[u8] = b"\"$*0123456789?FJLT_`abcdeghknopqsuvxyz{}";

/// And up to `Q` and `w`. What is left of ASCII is wider.
const BROAD: &[u8] = b"#&+<=>ABCDEGHKNOPQRSUVXYZ^w~";

/// How wide the letter is that a byte begins, in thousandths of its size: 0 where the byte goes on with one.
fn byte_width(byte: u8) -> u128
    ensures value { result ≡ byte_width byte }
    ensures most { result ≤ 1000 }
{
    if NARROW.contains(&byte) {
        420
    } else if MIDDLE.contains(&byte) {
        640
    } else if BROAD.contains(&byte) {
        840
    } else if 128 <= byte && byte <= 191 {
        0
    } else {
        1000
    }
}

/// How wide a text is, in thousandths of the size of its letters.
pub fn text_width(text: &[u8]) -> u128
    ensures value { result ≡ text_width text.now }
    ensures small { result < 2 ^ 80 }
{
    let mut width = 0;
    for byte in text {
        width += byte_width(*byte);
    }
    width
}

/// The size of letters in which a text of this width fits into so much room: the usual size, or a smaller one.
pub fn fitting(usual: u32, room: u32, width: u128) -> u32
    ensures { result ≡ fitting usual room width }
{
    let most = u128::from(room) * 1000 / width.max(1);
    most.min(u128::from(usual)) as u32
}
