// What was sent, in the log.
ghost use Rattle.pp_laws_sent.specs.Coming.{BodiesAreLess};
ghost use Rattle.pp_laws_sent.specs.Relayed.{PassedStandsInTheLog};
ghost use Rattle.pp_laws_sent.specs.Stands.{AsksGoToTheirHosts, SentStandsInTheLog};
ghost use Rattle.pp_laws_sent.specs.Whole.{PassedIsOneSoFar, PassedIsOneWhole, SeenIsJustBefore};

/// What an origin sent is data of a response that came on a connection.
pub fn sent_stands_in_the_log()
    ensures stands { SentStandsInTheLog }
{}

/// Where an exchange stood in the line of a connection, that connection was dialled to the host and port of its key.
pub fn asks_go_to_their_hosts()
    ensures dialled { AsksGoToTheirHosts }
{}

/// While a client is in the midst of a reply that is passed, what came on the connection of its exchange ends with
/// the response whose head it was told.
pub fn passed_stands_in_the_log()
    ensures relayed { PassedStandsInTheLog }
{}

/// What a client is told in a reply that is passed is the one response to the exchange of that very request, as far as it came; and
/// where the reply is over, all of that response, from its head to the end of its body.
pub fn passed_is_one_whole_response()
    ensures so_far { PassedIsOneSoFar }
    ensures whole { PassedIsOneWhole }
    ensures seen { SeenIsJustBefore }
{}

/// Of the response that comes on a connection less came than on the connection, as its head came before.
pub fn bodies_are_less_than_came()
    ensures less { BodiesAreLess }
{}
