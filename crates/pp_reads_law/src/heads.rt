// The final head of a response.
ghost use Rattle.pp_reads_law.specs.Heads.{HeadsComeAsTheLaws};

use pp_answers_law::final_heads_are_the_laws;

/// It answers the first exchange of its line, beside the row that is kept of its key, or is refused.
pub fn heads_come_as_the_laws()
    ensures heads { HeadsComeAsTheLaws }
{
    final_heads_are_the_laws();
}
