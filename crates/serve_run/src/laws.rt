ghost use Rattle.serve_run.specs.Ending.{EachGrantEnds};

/// In a legal book in which nothing is live each Grant has exactly one later Purge or Back of its
/// number.
pub fn law_each_grant_ends()
    ensures { EachGrantEnds }
{}
