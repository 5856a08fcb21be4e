//! A run from an opening into a first term, whose history is built from the calls' contracts.
ghost use Rattle.std.specs.Prelude.{◌≡◌, IfSome};
ghost use Rattle.account.specs.FirstTerm.{Ran};
ghost use Rattle.account.specs.Laws.{billed_months};
ghost use Rattle.account.specs.Worked.{Worked, worked_term};

use crate::{Account, Draft, Opening, Reading};
use designs::{Hour, RateDesign};
use reconciliation::Cents;

/// Opens an account, makes every kind of call and reads it: a filing is withdrawn, a second is taken into force after two closings,
/// then all the hours are billed, and a startup cost entered. `None` where a call that the next ones rest on was refused, of which
/// nothing more is promised.
pub fn first_term<D: RateDesign + Drop>(
    account: &mut Account<D>,
    opening: Opening<D>,
    draft: Draft,
    again: Draft,
    design: D,
    amount: Cents,
    held: &[Hour],
) -> Option<Reading>
    ensures { IfSome result (λ reading. Ran D.RateDesign.meaning opening (record { draft = draft; again = again; design = design; amount = amount.0; held = held.now }) account.new.figures reading) }
{
    account.open(opening).ok()?;
    let first = account.file(draft).ok()?;
    let _ = account.withdraw(first);
    let second = account.file(again).ok()?;
    let _ = account.close();
    let _ = account.close();
    // No `?`: the filing that is handed back has to be withdrawn.
    if let Err((filing, _)) = account.force(second, design) {
        let _ = account.withdraw(filing);
        return None;
    }
    account.bill(held, 0, held.len()).ok()?;
    account.cost(1, amount).ok()?;
    Some(account.reading())
}

/// How many billed months the term worked by hand has; to its sums the definitions that the laws speak of are held.
#[tactic(auto, using(crate::proofs::ByHand::by_hand))]
pub fn worked_months() -> u32
    ensures worked { Worked }
    ensures months { result ≡ billed_months worked_term }
{
    2
}
