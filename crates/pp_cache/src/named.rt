// The keys that Location and Content-Location name (RFC 2616, sections 13.10, 14.14 and 14.30).
ghost use Rattle.std.specs.Prelude.{◌≡◌, IfOk, bytes_eq};
ghost use Rattle.pp_cache.specs.Named.{is_spelled_at, key_named, path_named, site_of, some_if};
ghost use Rattle.pp_target.specs.Key.{IsPlaceIn, key_in};

use arrayvec::ArrayVec;
use pp_target::{KEY_ROOM, Place, TargetFault, key};
use pp_text::OutOfMemory;
use std::alloc::Global;

/// Writes the key that a text names of a site, which is how its keys begin: scheme, host and port. The text is a
/// URL, or a path from the root. False where it names none of the site's.
pub fn write_named(
    alloc: Global,
    site: &[u8],
    text: &[u8],
    out: &mut ArrayVec<u8, KEY_ROOM>,
) -> Result<bool, OutOfMemory>
    ensures { IfOk result (λ is_named. some_if is_named out.new.items ≡ key_named site.now text.now) }
{
    match key(alloc, text, out) {
        Ok(place) => Ok(is_of_site(out.as_slice(), &place, site)),
        Err(TargetFault::OutOfMemory) => Err(OutOfMemory),
        Err(
            TargetFault::NotAbsolute
            | TargetFault::NotHttp
            | TargetFault::BadHost
            | TargetFault::BadPort
            | TargetFault::TooLong,
        ) => Ok(write_path(site, text, out)),
    }
}

#[tactic(auto, using(crate::proofs::SiteLemmas::site_of_place))]
fn is_of_site(key: &[u8], place: &Place, site: &[u8]) -> bool
    requires { IsPlaceIn key.now place.now }
    ensures { result ≡ bytes_eq (site_of (key_in key.now place.now)) site.now }
{
    &key[..place.path] == site
}

fn write_path(site: &[u8], text: &[u8], out: &mut ArrayVec<u8, KEY_ROOM>) -> bool
    ensures { some_if result out.new.items ≡ path_named site.now text.now }
{
    out.clear();
    text.first() == Some(&b'/')
        && out.try_extend_from_slice(site).is_ok()
        && out.try_extend_from_slice(text).is_ok()
}

/// Whether the text stands for a key of the site as it is spelled.
pub fn is_spelled_at(site: &[u8], text: &[u8]) -> bool
    ensures { result ≡ is_spelled_at site.now text.now }
{
    text.starts_with(site) && text.get(site.len()) == Some(&b'/')
}
