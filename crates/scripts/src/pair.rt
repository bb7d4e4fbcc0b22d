// Two texts checked: each by itself, the sheet's first, then what is lent, then their headers.
ghost use Rattle.std.specs.Prelude.{◌≡◌, ◌≤◌};
ghost use Rattle.rules.specs.declared.paper.Paper.TheVariants.{Sheet, Script};
ghost use Rattle.rules.specs.Limits.{max_quantities};
ghost use Rattle.reading.specs.Reading.{check_text, checked_of};
ghost use Rattle.scripts.specs.Inner.{first_checks, checked_pair};

use crate::reply::{PaperRefusal, Subject, about};
use crate::room;
use crate::room::Lengths;
use reading::check;
use reading::check::Passed;
use rules::paper::Paper;
use rules::refusal::Refusal;
use tables::reply::Reply;

// Two texts that passed, with one n and one hidden set.
#[derive(Clone, Copy, PartialEq, Eq, Debug)]
pub struct Pair {
    pub sheet: Passed,
    pub script: Passed,
}

pub type PairChecked = Result<Pair, PaperRefusal>;

// The first refusal of two texts that are fine by themselves, or done: what is lent for the sheet's n, then a script whose n or hidden set is not the sheet's.
#[tactic(auto, using(crate::proofs::Rooms::room_refused, crate::proofs::Rooms::headers_same, crate::proofs::Rooms::headers_other))]
pub(crate) fn check_fit(sheet: Passed, script: Passed, lent: Lengths) -> Reply
    requires { (1 ≤ sheet.quantities) × (sheet.quantities ≤ max_quantities) }
    ensures { result ≡ first_checks sheet.quantities sheet.hidden script.quantities script.hidden lent }
{
    room::check_room(sheet.quantities, lent)?;
    if sheet.quantities == script.quantities && sheet.hidden == script.hidden {
        Ok(())
    } else {
        Err(Refusal::Mismatch)
    }
}

// Checks two texts and what is lent for them; the first check that fails refuses them.
pub(crate) fn check_pair(sheet: &[u8], script: &[u8], lent: Lengths) -> PairChecked
    ensures { result ≡ checked_pair (checked_of (check_text Sheet sheet.now))
        (checked_of (check_text Script script.now)) lent }
{
    let sheet = about(Subject::Sheet, check::check(sheet, Paper::Sheet))?;
    let script = about(Subject::Script, check::check(script, Paper::Script))?;
    about(Subject::Both, check_fit(sheet, script, lent))?;
    Ok(Pair { sheet, script })
}
