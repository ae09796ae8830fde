// The file name of a key.
ghost use Rattle.std.specs.Prelude.{◌≡◌};
ghost use Rattle.pp_target.specs.Name.{name_of};

use md5::{Digest, Md5};

/// The name of a key's file: the 32 lower hexadecimal digits of its MD5 digest (RFC 1321).
///
/// Two keys may have one name, so a file says which key it is of.
#[tactic(auto, unfolding(crate::specs::Name::name_of))]
pub fn file_name(key: &[u8]) -> [u8; 32]
    ensures { result ≡ name_of key.now }
{
    let digest = Md5::digest(key);
    let mut name = [0; 32];
    let _written = hex::encode_to_slice(digest, &mut name);
    name
}
