// The matrix axis keeps all shortest lengths: it answers by one look, and mends them after each bound.
#![tactic(auto)]

ghost use Rattle.ledger.specs.Means.{Standing};
ghost use Rattle.matrix_axis.specs.Cells.{Kept};

use ledger::Ledger;
use table::Table;

mod calls;
mod mending;
mod over;
mod rebuilding;
mod table;

#[derive(Drop)]
pub struct MatrixAxis {
    ledger: Ledger,
    table: Table,
    ghost standing: { Standing ledger },
    ghost kept: { Kept table.rows ledger },
}
