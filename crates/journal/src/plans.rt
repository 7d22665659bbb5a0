// What the plans of a journal are.
ghost use Rattle.journal.specs.Plans.{PlansTell};

// Placements of both axes without overlap are just the places that keep windows, platform and entries without overlap: the gate asks
// for its proof here.
pub fn plans_tell() -> bool
    ensures { PlansTell }
{
    true
}
