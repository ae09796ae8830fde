// Content codings (RFC 2616, sections 3.5, 14.3 and 14.11).
ghost use Rattle.std.specs.Prelude.{◌≡◌};
ghost use Rattle.std.specs.List.{list_all};
ghost use Rattle.pp_valid.specs.Codings.{accepts_only_identity, is_coded, is_identity};

use pp_text::{FieldItems, Fields, same};

/// Whether the request has no Accept-Encoding, or one that names `identity` alone, without a
/// quality.
pub fn accepts_only_identity(request: &Fields<'_, '_>) -> bool
    ensures { result ≡ accepts_only_identity request.now }
{
    are_identity(request.items(b"accept-encoding"))
}

/// Whether the response has a content coding other than `identity`.
pub(crate) fn is_coded(fields: &Fields<'_, '_>) -> bool
    ensures { result ≡ is_coded fields.now }
{
    !are_identity(fields.items(b"content-encoding"))
}

fn are_identity(mut codings: FieldItems<'_, '_, '_>) -> bool
    ensures { result ≡ list_all is_identity codings.entry }
{
    codings.all(is_identity)
}

fn is_identity(coding: &[u8]) -> bool
    ensures { result ≡ is_identity coding.now }
{
    same(b"identity", coding)
}
