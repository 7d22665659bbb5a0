// What the worked calls are answered.
ghost use Rattle.worked_cases.specs.Cases.{WorkedCases};

// Each worked call has its worked reply, one after the other: the gate asks for its proof here.
pub fn worked_cases() -> bool
    ensures { WorkedCases }
{
    true
}
