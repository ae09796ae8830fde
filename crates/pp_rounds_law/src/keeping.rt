// What is come to is kept.
ghost use Rattle.pp_rounds_law.specs.Coming.{ComingKeeps};

/// Calls that add happenings to the log keep what stands, where those come to it, over phases that are done.
pub fn what_is_come_to_is_kept()
    ensures keeps { ComingKeeps }
{}
