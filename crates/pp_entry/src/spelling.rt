// One spelling for each entry.
ghost use Rattle.pp_entry.specs.Spelling.{HasOneSpelling, IsReadAgain, IsReadBack};

/// What is written of an entry is read back as that entry, its names in lower case and asked for when the
/// response came; and a head block that is read as an entry is how that entry is written.
pub fn entries_have_one_spelling()
    ensures read_back { IsReadBack }
    ensures read_again { IsReadAgain }
    ensures one_spelling { HasOneSpelling }
{}
