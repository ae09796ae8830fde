// Events of clients.
ghost use Rattle.pp_comes_law.specs.Clients.{ClientReadsCome};
ghost use Rattle.pp_comes_law.specs.ClientWrites.{ClientLoadsCome, ClientWritesCome, WrittenOnesWake};

/// A client that can be read is read as the law has it.
pub fn clients_are_read_as_by_the_law()
    ensures { ClientReadsCome }
{}

/// A client that can be written to is written to as the law has it, or the chunk of its next byte cannot be read back.
pub fn clients_are_written_to_as_by_the_law()
    ensures says { ClientWritesCome }
    ensures loads { ClientLoadsCome }
    ensures wakes { WrittenOnesWake }
{}
