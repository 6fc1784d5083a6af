//! Where the bands of the links aren't green.

ghost use Rattle.std.specs.Prelude.{◌≡◌, ◌+◌, ◌*◌, ◌<◌, ◌^◌, ℕ, MatchOption, IfSome, unsigned_abs};
ghost use Rattle.progression.specs.{Street.{count, HasLink, HasSignal}, Lines.{line_at}};
ghost use Rattle.artery_model.specs.Bounds.{most_signals};
ghost use Rattle.link_theory.specs.{LinkRecord.{lines, half, link_base}, GoodLinks.{IsGreenAround}};
ghost use Rattle.link_space.specs.LinkGreens.{IsEnd, ends, edge, IsBlockedAfter, IsBlockedEnd, IsFirstBlockedEnd, IsGreenLink, IsFirstBlockedLink};
ghost use Rattle.time_space.specs.Timing.{IsFor};

use crate::timing::LinkTiming;
use artery_model::Artery;
use progression::Dir;
use time_space::{crossing_from, first_red};

/// The tick at which a direction's line crosses a signal.
fn line_at(artery: &Artery, timing: &LinkTiming, dir: Dir, signal: u32) -> i128
    requires signal { HasSignal artery.now signal }
    requires shape { IsFor artery.now (link_base timing.now) }
    ensures value { result ≡ line_at artery.now (lines timing.now) dir signal }
    ensures near { unsigned_abs result < 2 ^ 98 }
{
    let place = match dir {
        Dir::Outbound => signal - 1,
        Dir::Inbound => artery.count() - signal,
    };
    crossing_from(artery, timing.base(), dir, timing.first(dir), place)
}

/// The tick at which a link's band begins at one of the link's signals.
fn edge(artery: &Artery, timing: &LinkTiming, dir: Dir, link: u32, signal: u32) -> i128
    requires link { HasLink artery.now link }
    requires end { IsEnd link signal }
    requires shape { IsFor artery.now (link_base timing.now) }
    ensures value { result ≡ edge artery.now timing.now dir link signal }
    ensures near { unsigned_abs result < 2 ^ 99 }
{
    line_at(artery, timing, dir, signal) - timing.half(dir, link) as i128
}

/// How many ticks after its beginning a link's band first meets a red at one of the link's signals.
fn blocked_after(
    artery: &Artery,
    timing: &LinkTiming,
    dir: Dir,
    link: u32,
    signal: u32,
    from: i128,
) -> Option<u128>
    requires link { HasLink artery.now link }
    requires end { IsEnd link signal }
    requires shape { IsFor artery.now (link_base timing.now) }
    requires here { from ≡ edge artery.now timing.now dir link signal }
    requires near { unsigned_abs from < 2 ^ 99 }
    ensures found { MatchOption result (IsGreenAround artery.now timing.now dir signal (half timing.now dir link))
        (λ after. IsBlockedAfter artery.now timing.now dir link signal after) }
    ensures small { IfSome result (λ after. after < 2 ^ 81) }
{
    let base = timing.base();
    let start = base.red_start(artery, dir, signal);
    let red = base.red_ticks(artery, dir, signal);
    first_red(
        base.cycle(artery),
        start,
        red,
        from,
        2 * timing.half(dir, link),
    )
}

/// The first tick of a link's band at one of the link's signals that isn't green.
fn blocked_at(
    artery: &Artery,
    timing: &LinkTiming,
    dir: Dir,
    link: u32,
    signal: u32,
) -> Option<i128>
    requires link { HasLink artery.now link }
    requires end { IsEnd link signal }
    requires shape { IsFor artery.now (link_base timing.now) }
    ensures { MatchOption result (IsGreenAround artery.now timing.now dir signal (half timing.now dir link))
        (λ tick. IsBlockedEnd artery.now timing.now dir link signal tick) }
{
    let from = edge(artery, timing, dir, link, signal);
    let after = blocked_after(artery, timing, dir, link, signal, from)?;
    Some(from + after as i128)
}

/// The signals of a link in travel order.
fn ends(dir: Dir, link: u32) -> (u32, u32)
    requires { link < most_signals }
    ensures { result ≡ ends dir link }
{
    match dir {
        Dir::Outbound => (link, link + 1),
        Dir::Inbound => (link + 1, link),
    }
}

/// The first of a link's signals in travel order where its band isn't green, and the first tick there that isn't.
fn blocked_on(artery: &Artery, timing: &LinkTiming, dir: Dir, link: u32) -> Option<(u32, i128)>
    requires link { HasLink artery.now link }
    requires small { link < most_signals }
    requires shape { IsFor artery.now (link_base timing.now) }
    ensures { MatchOption result (IsGreenLink artery.now timing.now dir link)
        (λ at. IsFirstBlockedEnd artery.now timing.now dir link at.0 at.1) }
{
    let (entry, exit) = ends(dir, link);
    if let Some(tick) = blocked_at(artery, timing, dir, link, entry) {
        return Some((entry, tick));
    }
    let tick = blocked_at(artery, timing, dir, link, exit)?;
    Some((exit, tick))
}

/// Where a link's band isn't green: the first tick at the signal that isn't.
#[derive(Clone, Copy)]
pub struct Blocked {
    pub link: u32,
    pub signal: u32,
    pub tick: i128,
}

/// The least link whose band in a direction isn't green, the first of its signals in travel order where that is so, and the first
/// tick there.
pub fn first_blocked(artery: &Artery, timing: &LinkTiming, dir: Dir) -> Option<Blocked>
    requires shape { IsFor artery.now (link_base timing.now) }
    ensures { MatchOption result ((i : ℕ) → HasLink artery.now i → IsGreenLink artery.now timing.now dir i)
        (λ at. IsFirstBlockedLink artery.now timing.now dir at.link at.signal at.tick) }
{
    for link in 1..artery.count() {
        if let Some((signal, tick)) = blocked_on(artery, timing, dir, link) {
            return Some(Blocked { link, signal, tick });
        }
    }
    None
}
