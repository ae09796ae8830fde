// What the promises on the disk outlast.
ghost use Rattle.pp_store.specs.Lasting.{OutlastCrashes, OutlastOthers, OutlastSending};

/// What a store promises of the disk holds on while more is sent, and whatever else happens than
/// operations and reads of files that fail. Behind a crash each entry that was kept is found, with just the
/// bytes that were kept.
pub fn promises_last()
    ensures sending { OutlastSending }
    ensures others { OutlastOthers }
    ensures crashes { OutlastCrashes }
{}
