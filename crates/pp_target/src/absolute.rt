// The parts of an absolute target, as http_uri reads them.
ghost use Rattle.std.specs.Prelude.{◌≡◌, IfOk, IfErr};
ghost use Rattle.pp_target.specs.Absolute.{absolute_at, HasUriGrammar};
ghost use Rattle.pp_target.specs.Parsed.{parts_of, IsUnparsed};

use crate::target::TargetFault;
use http_uri::{Uri, UriError};
use std::alloc::Global;

/// The target as a URI, which may have no scheme.
pub fn parse(alloc: Global, target: &[u8]) -> Result<Uri, TargetFault>
    ensures ok { IfOk result (λ uri. parts_of uri ≡ absolute_at target.now) }
    ensures err { IfErr result (IsUnparsed target.now) }
    ensures grammar { HasUriGrammar target.now }
{
    match Uri::from_bytes(alloc, target) {
        Ok(uri) => Ok(uri),
        Err(UriError::OutOfMemory) => Err(TargetFault::OutOfMemory),
        Err(UriError::Invalid(_)) => Err(TargetFault::NotAbsolute),
    }
}
