//! The search of anything that is sought.

ghost use Rattle.std.specs.Prelude.{IfOk, IfSome};
ghost use Rattle.work_meter.specs.Work.{IsBelow};
ghost use Rattle.box_search.specs.{Meaning.{rules_from}, SiteNames.{EndsAt}};
ghost use Rattle.box_search.specs.Told.{IsAnswered, TellsOf, IsCertifiableIn};
ghost use Rattle.box_search.specs.Enough.{enough_for, IsWithin};

use crate::found::FoundOf;
use crate::relaxed::Relaxed;
use crate::sought::Sought;
use branch_and_bound as engine;
use narrow_fraction::Memory;
use std::alloc::Global;

/// Searches for the best timing of what is sought: the root box is opened first, and then, while a waiting box has a bound of more
/// than the best value, the one with the greatest bound is split and its two parts are opened.
///
/// A unit of work is a box that is opened or a pivot. The search stops where all units of the limit are spent and one more is
/// wanted, or at the first number that leaves 128 bits. A limit, where there is one, is at least 1; without a limit, or with
/// one that is enough, no search stops by work. The error is want of memory.
pub fn search_sought<S: Sought>(
    alloc: Global,
    sought: &S,
    limit: Option<u64>,
) -> Result<FoundOf<S::Timing>, Memory>
    requires limit { IsBelow 0 limit }
    ensures answer { IfOk result (λ found. IsAnswered (rules_from (S.program sought.now) (S.meaning sought.now)) (S.kind sought.now).objective.worth limit found) }
    ensures good { IfOk result (λ found. IfSome found.timing (λ timing. (S.kind sought.now).objective.IsGood timing)) }
    ensures tells { IfOk result (λ found. TellsOf (S.kind sought.now).objective.worth found.timing found.bound found.verdict) }
    ensures certifiable { IfOk result (λ found. IsCertifiableIn (S.kind sought.now).names found) }
    ensures site { IfOk result (λ found. EndsAt (S.kind sought.now).IsSite found.verdict) }
    ensures enough { IfOk result (λ found. IsWithin (enough_for (S.meaning sought.now).root (S.kind sought.now).sets) limit found.verdict) }
{
    // its contract says that its timings are what is sought
    sought.known_program();
    let relaxed = Relaxed { sought };
    engine::law_enough(&relaxed);
    let mut room = sought.make_room(alloc)?;
    engine::search(alloc, &relaxed, &mut room, limit)
}
