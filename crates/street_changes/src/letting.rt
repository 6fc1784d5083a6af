//! One limit, let out.

ghost use Rattle.std.specs.Prelude.{◌≡◌, ◌+◌, ◌-◌, ◌*◌, ◌≤◌, ◌<◌, ◌^◌, ◌*ℤ◌, ◌-ℤ◌, option_map, unsigned_abs, pos, if◌then◌else◌};
ghost use Rattle.rational_theory.specs.Rational.{whole, ◌+ℚ◌, ◌-ℚ◌};
ghost use Rattle.artery_model.specs.{Bounds.{least_share, most_share, least_cycle, most_cycle}, Valid.{IsQuantity, IsPair, IsSpeeds, IsChange, IsLink}};
ghost use Rattle.street_changes.specs.Changed.{one, hundredth, hundredth_less, least_down, most_up, let_signal, let_link, let_street};

use crate::limits::{LinkLimit, SignalLimit, StreetLimit};
use artery_model::{Head, Link, Pair, Signal};
use narrow_fraction::Frac;

#[tactic(auto, using(crate::proofs::Numbers::one_more_is))]
fn one_more(value: Frac) -> Frac
    requires num { unsigned_abs value.num ≤ 100000 }
    requires den { value.den ≤ 1000 }
    ensures { result ≡ value +ℚ one }
{
    Frac::reduced(value.num() + value.den(), value.den() as u128)
}

#[tactic(auto, using(crate::proofs::Numbers::one_less_is))]
fn one_less(value: Frac) -> Frac
    requires num { unsigned_abs value.num ≤ 100000 }
    requires den { value.den ≤ 1000 }
    ensures { result ≡ value -ℚ one }
{
    Frac::reduced(value.num() - value.den(), value.den() as u128)
}

/// The numerator of a hundredth less, over a hundred times the denominator.
fn top_less(value: Frac) -> i128
    requires num { unsigned_abs value.num ≤ 100000 }
    requires den { value.den ≤ 1000 }
    ensures value { result ≡ pos 100 *ℤ value.num -ℤ pos value.den }
    ensures size { unsigned_abs result < 2 ^ 127 }
{
    100 * value.num() - value.den()
}

fn bottom_less(value: Frac) -> u128
    requires { value.den ≤ 1000 }
    ensures value { result ≡ 100 * value.den }
    ensures above { 0 < result }
    ensures size { result < 2 ^ 127 }
{
    100 * value.den() as u128
}

#[tactic(auto, using(crate::proofs::Numbers::less_hundredth_is))]
fn less_hundredth(value: Frac) -> Frac
    requires num { unsigned_abs value.num ≤ 100000 }
    requires den { value.den ≤ 1000 }
    ensures { result ≡ value -ℚ hundredth }
{
    Frac::reduced(top_less(value), bottom_less(value))
}

/// A hundredth less, and 0 of what isn't more than that.
fn hundredth_less(value: Frac) -> Frac
    requires num { unsigned_abs value.num ≤ 100000 }
    requires den { value.den ≤ 1000 }
    ensures { result ≡ hundredth_less value }
{
    let small = value <= Frac::reduced(1, 100);
    zero_or_less(small, value)
}

/// 0, or a hundredth less.
fn zero_or_less(small: bool, value: Frac) -> Frac
    requires num { unsigned_abs value.num ≤ 100000 }
    requires den { value.den ≤ 1000 }
    ensures { result ≡ if small then whole (pos 0) else value -ℚ hundredth }
{
    if small {
        Frac::whole(0)
    } else {
        less_hundredth(value)
    }
}

fn least_down(pair: Pair) -> Pair
    requires num { unsigned_abs pair.least.num ≤ 100000 }
    requires den { pair.least.den ≤ 1000 }
    ensures { result ≡ least_down pair }
{
    Pair {
        least: one_less(pair.least),
        most: pair.most,
    }
}

fn most_up(pair: Pair) -> Pair
    requires num { unsigned_abs pair.most.num ≤ 100000 }
    requires den { pair.most.den ≤ 1000 }
    ensures { result ≡ most_up pair }
{
    Pair {
        least: pair.least,
        most: one_more(pair.most),
    }
}

fn least_speed_down(pair: Pair) -> Pair
    requires { IsSpeeds pair }
    ensures { result ≡ least_down pair }
{
    least_down(pair)
}

fn most_speed_up(pair: Pair) -> Pair
    requires { IsSpeeds pair }
    ensures { result ≡ most_up pair }
{
    most_up(pair)
}

fn least_change_down(pair: Option<Pair>) -> Option<Pair>
    requires { IsChange pair }
    ensures { result ≡ option_map least_down pair }
{
    match pair {
        Some(pair) => Some(least_down(pair)),
        None => None,
    }
}

fn most_change_up(pair: Option<Pair>) -> Option<Pair>
    requires { IsChange pair }
    ensures { result ≡ option_map most_up pair }
{
    match pair {
        Some(pair) => Some(most_up(pair)),
        None => None,
    }
}

/// Lets out a limit of a signal.
pub(crate) fn let_signal(signal: &mut Signal, limit: SignalLimit)
    ensures { signal.new ≡ let_signal limit signal.old }
{
    match limit {
        SignalLimit::Red => signal.red = signal.red.saturating_sub(1),
        SignalLimit::LeftOut => signal.left_out = signal.left_out.saturating_sub(1),
        SignalLimit::LeftIn => signal.left_in = signal.left_in.saturating_sub(1),
        SignalLimit::ClearOut => signal.clear_out = signal.clear_out.saturating_sub(1),
        SignalLimit::ClearIn => signal.clear_in = signal.clear_in.saturating_sub(1),
        SignalLimit::Patterns => signal.patterns = [true, true, true, true],
    }
}

/// Lets out a limit of a link.
pub(crate) fn let_link(link: &mut Link, limit: LinkLimit)
    requires { IsLink link.old }
    ensures { link.new ≡ let_link limit link.old }
{
    match limit {
        LinkLimit::MostSpeedOut => link.speed_out = most_speed_up(link.speed_out),
        LinkLimit::MostSpeedIn => link.speed_in = most_speed_up(link.speed_in),
        LinkLimit::LeastSpeedOut => link.speed_out = least_speed_down(link.speed_out),
        LinkLimit::LeastSpeedIn => link.speed_in = least_speed_down(link.speed_in),
        LinkLimit::LeastChangeOut => link.change_out = least_change_down(link.change_out),
        LinkLimit::MostChangeOut => link.change_out = most_change_up(link.change_out),
        LinkLimit::LeastChangeIn => link.change_in = least_change_down(link.change_in),
        LinkLimit::MostChangeIn => link.change_in = most_change_up(link.change_in),
    }
}

/// Lets out a limit of the whole street.
pub(crate) fn let_street(head: &mut Head, limit: StreetLimit)
    requires cycle { IsPair least_cycle most_cycle head.old.cycle }
    requires least_out { IsQuantity least_share most_share head.old.least_out }
    requires least_in { IsQuantity least_share most_share head.old.least_in }
    ensures { head.new ≡ let_street limit head.old }
{
    match limit {
        StreetLimit::LeastCycle => head.cycle = least_down(head.cycle),
        StreetLimit::MostCycle => head.cycle = most_up(head.cycle),
        StreetLimit::LeastOut => head.least_out = hundredth_less(head.least_out),
        StreetLimit::LeastIn => head.least_in = hundredth_less(head.least_in),
    }
}
