// Where the operator's log of replies is written.
ghost use Rattle.std.specs.Prelude.{◌≡◌, string_bytes};
ghost use Rattle.pp_conf.specs.Logs.{log_place, shown_place};

use crate::conf::Conf;
use pp_world::AccessLog;

impl Conf {
    /// Where the operator's log of replies is written.
    pub fn log_place(&self) -> AccessLog<'_>
        ensures { shown_place result ≡ log_place (string_bytes self.now.access_log) }
    {
        let name = self.access_log.as_str();
        if name.as_bytes() == b"".as_slice() {
            AccessLog::Nowhere
        } else if name.as_bytes() == b"-".as_slice() {
            AccessLog::Console
        } else {
            AccessLog::File(name)
        }
    }
}
