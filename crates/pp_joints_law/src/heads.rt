// What heads and data of responses leave to be noted.
ghost use Rattle.pp_joints_law.specs.DataTies.{DataTie, NoMoreAreUsed};
ghost use Rattle.pp_joints_law.specs.EndsTie.{BadBodiesTie, BadHeadsTie, WholesTie};
ghost use Rattle.pp_joints_law.specs.HeadsNote.{
  FillingHeadsForget,
  FillingHeadsNote,
  HeadsNoteFew,
  HeadsTie,
  NamingHeadsNote,
  OwnHeadsForget,
  OwnHeadsNote,
  PartHeadsNote,
  PassedHeadsNote,
  RefusedHeadsTie,
  RowsNoteFew,
};
ghost use Rattle.pp_joints_law.specs.ReadsNoteFew.{PlacesAreFew, ThereIsRoomForAll, UnsafeOnesGoAlone};

use pp_answers_law::{final_heads_are_the_laws, part_heads_are_the_laws};

/// Behind the head of a response to a Fetch or Validate, to the ask of a follower, and of one that is passed, with the places that it names.
pub fn heads_note_what_they_clear()
    ensures own { OwnHeadsNote }
    ensures passed { PassedHeadsNote }
    ensures naming { NamingHeadsNote }
    ensures part { PartHeadsNote }
    ensures filling { FillingHeadsNote }
{
    part_heads_are_the_laws();
}

/// With one for each row that is in memory no head adds many names.
pub fn heads_note_few()
    ensures heads { HeadsNoteFew }
    ensures rows { RowsNoteFew }
{}

/// So all heads of one read note fewer than there is room for: a head that was read names few places, and who asked for a change goes alone.
pub fn reads_note_few()
    ensures places { PlacesAreFew }
    ensures alone { UnsafeOnesGoAlone }
    ensures room { ThereIsRoomForAll }
{}

/// What has to leave memory for a row that a head makes is the same in both.
pub fn heads_forget_as_the_law()
    ensures own { OwnHeadsForget }
    ensures filling { FillingHeadsForget }
{}

/// Both, of a head that is taken on a connection.
pub fn heads_tie_as_they_come()
    ensures tie { HeadsTie }
    ensures refused { RefusedHeadsTie }
{
    final_heads_are_the_laws();
    part_heads_are_the_laws();
}

/// Data that come, too.
pub fn data_tie_as_they_come()
    ensures tie { DataTie }
{}

/// And where a response is whole, or is none.
pub fn ends_tie_as_they_come()
    ensures wholes { WholesTie }
    ensures bodies { BadBodiesTie }
    ensures heads { BadHeadsTie }
{}

/// All else that a read brings uses no more chunks.
pub fn no_more_are_used_in_reads()
    ensures used { NoMoreAreUsed }
{}
