// The lines and the standing bounds of an axis, with the questions that are answered from them alone: what every axis keeps.
#![tactic(auto)]

use axis::{Bound, Range};
use held::Held;
use std::marker::Model;

mod asks;
mod changes;

// Kept in the clauses of its calls that it is sound: those who hold a ledger see what it means and not its invariant, and need the fact.
#[derive(Drop)]
pub struct Ledger {
    ranges: Held<Range, 12>,
    bounds: Held<Bound, 90>,
}

// A clause sees what an axis with these ranges and bounds means.
impl Model for Ledger {
    ghost use Rattle.axis.specs.Meaning.{Meaning};
    ghost use Rattle.ledger.specs.Means.{meaning, Sound};

    ghost Value = { Meaning };

    ghost view = { λ l. meaning l.ranges l.bounds };

    ghost invariant = { λ l. Sound (meaning l.ranges l.bounds) };
}
