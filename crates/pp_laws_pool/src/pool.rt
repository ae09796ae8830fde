// The critical mark.
ghost use Rattle.pp_laws_bounds.specs.Bounds.{Always};
ghost use Rattle.pp_laws_pool.specs.Pool.{IsWithinMark};

/// At each moment of each lawful log at most as many chunks are used as the critical mark says.
pub fn chunks_are_within_the_mark()
    ensures within { Always IsWithinMark }
{}
