// What a printed text tells its reader.
ghost use Rattle.text.specs.Tells.{PlanTextTells};

// Two plans with the same text are the same plan.
pub fn plan_text_tells() -> bool
    ensures { PlanTextTells }
{
    true
}
