// The disk of the law.
ghost use Rattle.pp_shelf_law.specs.Folder.{DisksAreTheLogs, FilesAreTheLogs};

/// It is what the log tells of the folder, and what stands under a name on which nothing failed is the same in both.
pub fn the_disk_is_the_logs()
    ensures disks { DisksAreTheLogs }
    ensures files { FilesAreTheLogs }
{}
