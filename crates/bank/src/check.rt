// A text checked as a bank sheet: its size and its lines as ordinary reading has them, and the order of its rules.
ghost use Rattle.bank.specs.Promises.{BankChecked};

use reading::check;
use reading::check::Checked;
use rules::paper;
use rules::paper::Paper;

// Checks a text as a bank sheet: its size and the three lines of its header, then its rules, which are to be in place order.
pub fn check(s: &[u8]) -> Checked
    ensures { BankChecked s.now result }
{
    let header = check::check_header(s)?;
    let limit = paper::bound_limit(Paper::Sheet, header.quantities, header.hidden) as u64;
    let mut none = [0; 0];
    check::check_rules(s, true, header, limit, &mut none)
}
