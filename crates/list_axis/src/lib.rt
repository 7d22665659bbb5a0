// The list axis keeps the bounds alone, no table, and works lengths out when asked.
#![tactic(auto)]

ghost use Rattle.ledger.specs.Means.{Standing};

use ledger::Ledger;

mod calls;
mod lengths;
mod passes;

#[derive(Drop)]
pub struct ListAxis {
    ledger: Ledger,
    ghost standing: { Standing ledger },
}
