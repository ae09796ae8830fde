// Data of a response.
ghost use Rattle.pp_reads_law.specs.Data.{DataComeAsTheLaws};

/// They join an instance, and are passed.
pub fn data_come_as_the_laws()
    ensures came { DataComeAsTheLaws }
{}
