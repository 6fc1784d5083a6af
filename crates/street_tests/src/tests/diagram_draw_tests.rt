//! A picture that was worked by `tests/second/draw.py`, of two signals with names that XML would read otherwise, a left turn and a
//! queue; and what is said in those of other timings, good and bad.

use super::given;
use artery_model::Artery;
use diagram_draw::draw;
use std::alloc::Global;
use std::test::Fail;
use test_bed::{
    SampleHead, SampleSignal, TextRecord, paced_link, plain_head, plain_signal, range, with_changes,
};
use time_space::Timing;

/// Its lines. One that stands there several times is written once, with how often and with how much greater each time the numbers
/// between `@` are.
static PICTURE: &str = "\
<svg xmlns=\"http://www.w3.org/2000/svg\" width=\"259.0mm\" height=\"147.2mm\" viewBox=\"0 0 14072 8000\" role=\"img\" aria-l\
abelledby=\"title desc\">\n\
<title id=\"title\">Time-space diagram: AM &lt;peak&gt;</title>\n\
<desc id=\"desc\">cycle 60.0 s &#183; outbound band 3.3 s = 5.6 % of the cycle &#183; inbound band 6.7 s = 11.1 % of the cycl\
e &#183; weighted band 0.167; signal 1, Oak &amp; Elm, offset 0.0 s; signal 2, &lt;High\u{fffd}&gt;, offset 6.7 s</desc>\n\
<style>\n\
text{font-family:Helvetica,Arial,'Liberation Sans',sans-serif;fill:#222}\n\
.title{font-weight:bold}.head,.head-end,.head-middle,.note{font-size:118px;fill:#555}.mark{font-size:100px}\n\
.number{font-size:140px}.axis,.key{font-size:125px;fill:#444}.number,.head-end{text-anchor:end}.axis,.head-middle{text-anchor\
:middle}\n\
.paper{fill:#fff}.plot{fill:#fbfbf9;stroke:#444;stroke-width:12}.second{stroke:#dcdcd8;stroke-width:8}.cycle{stroke:#777;stro\
ke-width:12;stroke-dasharray:60 50}.level{stroke:#bbb;stroke-width:8}\n\
.out{fill:#0072b2;fill-opacity:.3;stroke:#005a8e;stroke-width:14}.in{fill:#e69f00;fill-opacity:.38;stroke:#a86b00;stroke-widt\
h:14;stroke-dasharray:70 40}.out-line,.in-line{stroke:#005a8e;stroke-width:20;stroke-dasharray:140 70}.in-line{stroke:#a86b00\
}\n\
.ground{fill:#fff;stroke:#444;stroke-width:8}.red{fill:#3a0d12}.turn{fill:url(#turn)}.out-at{fill:#0072b2}.in-at{fill:#e69f00\
}.step{stroke:#222;stroke-width:30}\n\
</style>\n\
<defs>\n\
<pattern id=\"turn\" width=\"56\" height=\"56\" patternUnits=\"userSpaceOnUse\" patternTransform=\"rotate(45)\"><path fill=\"\
#f3d9d9\" d=\"M0,0H56V56H0z\"/><path fill=\"#3a0d12\" d=\"M0,0H28V56H0z\"/></pattern>\n\
<clipPath id=\"plot\"><rect x=\"2872\" y=\"1500\" width=\"9000\" height=\"5100\"/></clipPath>\n\
</defs>\n\
<path class=\"paper\" d=\"M0,0H14072V8000H0z\"/>\n\
<path class=\"plot\" d=\"M2872,1500H11872V6600H2872z\"/>\n\
13 times 750 apart: <line class=\"second\" x1=\"@2872@\" y1=\"1500\" x2=\"@2872@\" y2=\"6660\"/>\n\
3 times 4500 apart: <line class=\"cycle\" x1=\"@2872@\" y1=\"1440\" x2=\"@2872@\" y2=\"6600\"/>\n\
<line class=\"level\" x1=\"2872\" y1=\"6340\" x2=\"11872\" y2=\"6340\"/>\n\
<line class=\"level\" x1=\"2872\" y1=\"1760\" x2=\"11872\" y2=\"1760\"/>\n\
<g clip-path=\"url(#plot)\">\n\
<polygon class=\"out\" points=\"5122,6250 7622,1850 7872,1850 5372,6250\"/>\n\
<polygon class=\"out\" points=\"9622,6250 12122,1850 12372,1850 9872,6250\"/>\n\
<polygon class=\"out\" points=\"622,6250 3122,1850 3372,1850 872,6250\"/>\n\
3 times 4500 apart: <polygon class=\"in\" points=\"@2747@,1850 @5122@,6250 @5622@,6250 @3247@,1850\"/>\n\
<path class=\"ground\" d=\"M2872,6340H11872V6430H2872z\"/>\n\
3 times 4500 apart: <path class=\"out-at\" d=\"M@622@,6340H@872@V6430H@622@z\"/>\n\
3 times 4500 apart: <path class=\"red\" d=\"M@-1628@,6340H@622@V6430H@-1628@z\"/>\n\
<path class=\"ground\" d=\"M2872,6250H11872V6340H2872z\"/>\n\
3 times 4500 apart: <path class=\"in-at\" d=\"M@622@,6250H@1122@V6340H@622@z\"/>\n\
3 times 4500 apart: <path class=\"red\" d=\"M@-1628@,6250H@622@V6340H@-1628@z\"/>\n\
<path class=\"ground\" d=\"M2872,1760H11872V1850H2872z\"/>\n\
3 times 4500 apart: <path class=\"out-at\" d=\"M@-1528@,1760H@-1278@V1850H@-1528@z\"/>\n\
3 times 4500 apart: <path class=\"red\" d=\"M@-1128@,1760H@747@V1850H@-1128@z\"/>\n\
<path class=\"ground\" d=\"M2872,1670H11872V1760H2872z\"/>\n\
3 times 4500 apart: <path class=\"in-at\" d=\"M@2747@,1670H@3247@V1760H@2747@z\"/>\n\
3 times 4500 apart: <path class=\"red\" d=\"M@-1128@,1670H@747@V1760H@-1128@z\"/>\n\
3 times 4500 apart: <path class=\"turn\" d=\"M@747@,1670H@1122@V1760H@747@z\"/>\n\
</g>\n\
<g clip-path=\"url(#plot)\">\n\
<line class=\"step\" x1=\"2972\" y1=\"1865\" x2=\"3122\" y2=\"1865\"/>\n\
</g>\n\
<path class=\"ground\" d=\"M2872,7300H3272V7390H2872z\"/>\n\
<path class=\"red\" d=\"M2932,7300H3212V7390H2932z\"/>\n\
<path class=\"ground\" d=\"M4372,7300H4772V7390H4372z\"/>\n\
<path class=\"turn\" d=\"M4432,7300H4712V7390H4432z\"/>\n\
<path class=\"ground\" d=\"M2872,7550H3272V7640H2872z\"/>\n\
<path class=\"out-at\" d=\"M2932,7550H3212V7640H2932z\"/>\n\
<polygon class=\"out\" points=\"6972,7470 7172,7220 7392,7220 7192,7470\"/>\n\
<polygon class=\"in\" points=\"9372,7220 9572,7470 9792,7470 9592,7220\"/>\n\
<text class=\"title\" font-size=\"330\" x=\"220\" y=\"480\">Time-space diagram</text>\n\
<text class=\"facts\" font-size=\"165\" x=\"220\" y=\"1120\">cycle 60.0 s &#183; outbound band 3.3 s = 5.6 % of the cycle &#1\
83; inbound band 6.7 s = 11.1 % of the cycle &#183; weighted band 0.167</text>\n\
<text class=\"subtitle\" font-size=\"220\" x=\"220\" y=\"800\">AM &lt;peak&gt;</text>\n\
<text class=\"name\" font-size=\"150\" x=\"430\" y=\"6390\">Oak &amp; Elm</text>\n\
<text class=\"name\" font-size=\"150\" x=\"430\" y=\"1810\">&lt;High\u{fffd}&gt;</text>\n\
<text class=\"head\" x=\"430\" y=\"1410\">signal</text>\n\
<text class=\"head-end\" x=\"2112\" y=\"1410\">lefts out/in</text>\n\
<text class=\"head-end\" x=\"2702\" y=\"1410\">offset, s</text>\n\
<text class=\"head-end\" x=\"12752\" y=\"1410\">m out/in</text>\n\
<text class=\"head-end\" x=\"13352\" y=\"1410\">out km/h</text>\n\
<text class=\"head-end\" x=\"13932\" y=\"1410\">in km/h</text>\n\
<text class=\"head-middle\" x=\"7372\" y=\"1410\">1 cycle</text>\n\
<text class=\"head-middle\" x=\"11872\" y=\"1410\">2 cycles</text>\n\
<text class=\"number\" x=\"330\" y=\"6390\">1</text>\n\
<text class=\"number\" x=\"2112\" y=\"6390\">-</text>\n\
<text class=\"number\" x=\"2702\" y=\"6390\">0.0</text>\n\
<text class=\"number\" x=\"330\" y=\"1810\">2</text>\n\
<text class=\"number\" x=\"2112\" y=\"1810\">lead/-</text>\n\
<text class=\"number\" x=\"2702\" y=\"1810\">6.7</text>\n\
<text class=\"number\" x=\"12752\" y=\"4100\">400/410</text>\n\
<text class=\"number\" x=\"13352\" y=\"4100\">43.2</text>\n\
<text class=\"number\" x=\"13932\" y=\"4100\">46.6</text>\n\
<text class=\"mark\" x=\"2972\" y=\"1970\">2.0 s</text>\n\
<text class=\"axis\" x=\"2872\" y=\"6810\">0</text>\n\
<text class=\"axis\" x=\"3622\" y=\"6810\">10</text>\n\
<text class=\"axis\" x=\"4372\" y=\"6810\">20</text>\n\
<text class=\"axis\" x=\"5122\" y=\"6810\">30</text>\n\
<text class=\"axis\" x=\"5872\" y=\"6810\">40</text>\n\
<text class=\"axis\" x=\"6622\" y=\"6810\">50</text>\n\
<text class=\"axis\" x=\"7372\" y=\"6810\">60</text>\n\
<text class=\"axis\" x=\"8122\" y=\"6810\">70</text>\n\
<text class=\"axis\" x=\"8872\" y=\"6810\">80</text>\n\
<text class=\"axis\" x=\"9622\" y=\"6810\">90</text>\n\
<text class=\"axis\" x=\"10372\" y=\"6810\">100</text>\n\
<text class=\"axis\" x=\"11122\" y=\"6810\">110</text>\n\
<text class=\"axis\" x=\"11872\" y=\"6810\">120</text>\n\
<text class=\"key\" x=\"3352\" y=\"7385\">common red</text>\n\
<text class=\"key\" x=\"4852\" y=\"7385\">red for the opposing left turn</text>\n\
<text class=\"key\" x=\"7472\" y=\"7385\">outbound band, lower bars</text>\n\
<text class=\"key\" x=\"9872\" y=\"7385\">inbound band, upper bars</text>\n\
<text class=\"axis\" x=\"7372\" y=\"7020\">seconds after the start of the common red of signal 1</text>\n\
<text class=\"key\" x=\"3352\" y=\"7635\">on a bar: full colour is the band, white is green beside it</text>\n\
<text class=\"note\" x=\"2872\" y=\"7860\">Where queues are given time to clear, vehicles trail the band by the sum of the cl\
earances so far; a mark has the seconds at its signal.</text>\n\
</svg>\n\
";

fn head() -> SampleHead {
    SampleHead {
        parts: 60,
        cycle: range(60, 60),
        ..plain_head()
    }
}

fn far_signal() -> SampleSignal {
    SampleSignal {
        left_out: 5,
        clear_out: 2,
        ..plain_signal("<High\u{ffff}>", 25)
    }
}

fn artery(alloc: Global) -> Result<Artery, Fail> {
    let signals = [plain_signal("Oak & Elm", 30), far_signal()];
    given::street(alloc, head(), &signals, &[paced_link(400, 410, 20, 60)])
}

static TIMING: &str = "grid 3
unit 3
pattern 1 1
red 170 10
run_out 100
run_in 95
first 80 165
band 10 20
";

/// Changes of the timing, and what stands in its picture then, worked by hand. The cycle is 60 seconds, of which a tick is a third, or a
/// sixtieth where the grid is 60.
static CHANGES: [&str; 13] = [
    // 2 ticks are 0.667 seconds and 2 of 180 of the cycle, 1.11 %
    "band 2 20 -> outbound band 0.67 s = 1.1 % of the cycle",
    "band 3 20 -> outbound band 1.0 s = 1.7 % of the cycle",
    // with the ratio 1 both bands are 12 of 180 ticks, 0.0667
    "band 2 10 -> weighted band 0.067<",
    // the outbound line leaves a tick before the red of 90 ticks is over
    "first 79 165 -> no outbound band &#183; inbound band 6.7 s = 11.1 % of the cycle<",
    "first 80 164 -> outbound band 3.3 s = 5.6 % of the cycle &#183; no inbound band<",
    "first 79 164 -> cycle 60.0 s &#183; no outbound band &#183; no inbound band<",
    // 20 of 3 seconds, 6.667; 1 of 20 seconds, half way between two tenths; and 59.983, which is a whole cycle
    "red 170 10 -> offset 6.7 s</desc>",
    "grid 20|unit 20|red 1000 1001 -> offset 0.1 s</desc>",
    "grid 60|unit 60|red 3400 3399 -> offset 0.0 s</desc>",
    // 400 metres in 33.3 seconds are 43.2 km/h; in none there is no speed
    "run_out 100 -> y=\"4100\">43.2</text>",
    "run_out 0 -> y=\"4100\">-</text>",
    // the outbound left turn of signal 2 leads in pattern 1 and lags in pattern 2
    "pattern 1 1 -> y=\"1810\">lead/-</text>",
    "pattern 1 2 -> y=\"1810\">lag/-</text>",
];

fn some_timing(alloc: Global, text: &str) -> Result<Timing, Fail> {
    given::timing(alloc, TextRecord::new(text.as_bytes())?)
}

/// The picture, with nothing said of it: what `draw` says is a long term.
fn picture(
    alloc: Global,
    artery: &Artery,
    timing: &Timing,
    title: Option<&str>,
) -> Result<Vec<u8>, Fail> {
    if timing.count() != artery.count() {
        return Err("another number of signals".into());
    }
    Ok(draw(alloc, artery, timing, title)?)
}

/// How often a row stands in the picture, how much greater its numbers are each time, and its text.
fn parts(row: &str) -> (&str, &str, &str) {
    let (times, rest) = row.split_once(" times ").unwrap_or(("1", row));
    let (step, text) = rest.split_once(" apart: ").unwrap_or(("0", rest));
    (times, step, text)
}

fn number(word: &str) -> Result<i64, Fail> {
    match word.parse::<i64>() {
        Ok(number) => Ok(number),
        Err(_) => Err("no number".into()),
    }
}

/// A number that is greater by so much.
fn greater(alloc: Global, piece: &str, by: i64) -> Result<String, Fail> {
    let number = number(piece)?.wrapping_add(by);
    Ok(format!(in alloc; "{number}")?)
}

fn push_number(alloc: Global, out: &mut String, piece: &str, by: i64) -> Result<(), Fail> {
    let greater = greater(alloc, piece, by)?;
    Ok(out.push_str(greater.as_str())?)
}

fn push_piece(
    alloc: Global,
    out: &mut String,
    is_number: bool,
    piece: &str,
    by: i64,
) -> Result<(), Fail> {
    if is_number {
        return push_number(alloc, out, piece, by);
    }
    Ok(out.push_str(piece)?)
}

/// Adds a line whose numbers between `@` are greater by so much.
fn push_line(alloc: Global, out: &mut String, text: &str, by: i64) -> Result<(), Fail> {
    for (index, piece) in text.split('@').enumerate() {
        push_piece(alloc, out, index % 2 == 1, piece, by)?;
    }
    Ok(out.push_str("\n")?)
}

/// Adds a row as often as it stands in the picture.
fn push_row(alloc: Global, out: &mut String, row: &str) -> Result<(), Fail> {
    let (times, step, text) = parts(row);
    let (times, step) = (number(times)?, number(step)?);
    for time in 0..times {
        push_line(alloc, out, text, time.wrapping_mul(step))?;
    }
    Ok(())
}

fn push_rows(alloc: Global, out: &mut String) -> Result<(), Fail> {
    for row in PICTURE.lines() {
        push_row(alloc, out, row)?;
    }
    Ok(())
}

/// The picture as one text.
fn expected(alloc: Global) -> Result<String, Fail> {
    let mut out = String::new(alloc);
    push_rows(alloc, &mut out)?;
    Ok(out)
}

#[test]
fn a_small_street_is_drawn(rt: HostRuntime) -> Result<(), Fail> {
    let alloc = rt.alloc();
    let artery = artery(alloc)?;
    let timing = some_timing(alloc, TIMING)?;
    let found = picture(alloc, &artery, &timing, Some("AM <peak>"))?;
    assert!(rt; found.as_slice() == expected(alloc)?.as_bytes());
    Ok(())
}

/// Whether the picture of a changed timing has these words.
fn shows(alloc: Global, artery: &Artery, changes: &str, words: &str) -> Result<bool, Fail> {
    let text = with_changes(alloc, TIMING, changes)?;
    let timing = some_timing(alloc, text.as_str())?;
    let found = picture(alloc, artery, &timing, None)?;
    Ok(
        std::str::from_utf8(found.as_slice())
            .unwrap_or("")
            .contains(words),
    )
}

/// Fails at the first case whose words the picture doesn't have.
fn all_shown(alloc: Global, artery: &Artery, cases: &[&str]) -> Result<(), Fail> {
    for case in cases {
        let (changes, words) = case.split_once(" -> ").unwrap_or((case, ""));
        if !shows(alloc, artery, changes, words)? {
            return Err(Fail::new(format_args!("not so: {case}")));
        }
    }
    Ok(())
}

#[test]
fn each_timing_is_drawn_as_it_is(rt: HostRuntime) -> Result<(), Fail> {
    let alloc = rt.alloc();
    all_shown(alloc, &artery(alloc)?, &CHANGES)
}
