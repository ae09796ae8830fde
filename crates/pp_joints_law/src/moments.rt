// From moment to moment of a read.
ghost use Rattle.pp_joints_law.specs.MomentsNote.{HeadsNoteOn, NotedOnesAreKept, PiecesNoteOn};
ghost use Rattle.pp_joints_law.specs.ReadsBegin.{ReadsBeginNoted, WaitsLeaveEnough};
ghost use Rattle.pp_joints_law.specs.ReadsCome.{ReadsComeBehind, ReadsNoteAmid};
ghost use Rattle.pp_joints_law.specs.ReadsNoteAll.{ReadsNoteAll, ReadsNoteBehind};

use pp_answers_law::{final_heads_are_the_laws, part_heads_are_the_laws};

/// What is noted, and what has to leave memory, are the same in both behind a head that came, and behind a piece of a body; and so is what is kept.
pub fn moments_note_what_they_clear()
    ensures heads { HeadsNoteOn }
    ensures pieces { PiecesNoteOn }
    ensures kept { NotedOnesAreKept }
{
    final_heads_are_the_laws();
    part_heads_are_the_laws();
}

/// So it is at each moment of a read, as there is room for what all its heads note, and behind the read.
pub fn reads_note_what_they_clear()
    ensures all { ReadsNoteAll }
    ensures behind { ReadsNoteBehind }
{
    final_heads_are_the_laws();
    part_heads_are_the_laws();
}

/// And it is so where a read begins behind a wait, from as few chunks as a turn leaves.
pub fn reads_begin_noted()
    ensures begins { ReadsBeginNoted }
    ensures enough { WaitsLeaveEnough }
{}

/// So it is from the wait on at each moment of a read, and behind all of it, where memory may be left.
pub fn reads_come_with_what_they_clear()
    ensures amid { ReadsNoteAmid }
    ensures behind { ReadsComeBehind }
{
    final_heads_are_the_laws();
    part_heads_are_the_laws();
}
