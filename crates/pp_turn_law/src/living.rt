// A whole life, and what its log means.
ghost use Rattle.pp_turn_law.specs.Ended.{EarlyEndsAreLawful};
ghost use Rattle.pp_turn_law.specs.Headline.{LawfulLogsHaveTheHeadline, ServedLivesHaveTheHeadline};
ghost use Rattle.pp_turn_law.specs.Lives.{ServedLivesAreLawful, WokenOnesHaveFewNames};
ghost use Rattle.pp_turn_law.specs.Waking.{FirstLivesWake, LaterLivesWake};

use crate::lives_go_on;
use pp_laws_sent::{passed_is_one_whole_response, sent_stands_in_the_log};

/// The first life wakes to files none of which is an entry, each later one behind a log that obeys the law, to what a crash leaves of it.
pub fn lives_wake()
    ensures first { FirstLivesWake }
    ensures later { LaterLivesWake }
{}

/// Where the log before a life is told and obeys the law, and the life serves and does not go astray, the log behind it obeys the law, and may end
/// there. Whatever it wakes to, no more of its names have the form of an entry's than are looked at.
pub fn served_lives_are_lawful()
    ensures names { WokenOnesHaveFewNames }
    ensures lawful { ServedLivesAreLawful }
{
    lives_go_on();
}

/// So what the laws say of each lawful log holds of the log behind it.
pub fn served_lives_have_the_headline()
    ensures laws { LawfulLogsHaveTheHeadline }
    ensures served { ServedLivesHaveTheHeadline }
{
    served_lives_are_lawful();
    sent_stands_in_the_log();
    passed_is_one_whole_response();
}

/// So is the log of one that does not come to serve, whatever the reason, or that shows the demo.
pub fn early_ends_are_lawful()
    ensures ends { EarlyEndsAreLawful }
{}
