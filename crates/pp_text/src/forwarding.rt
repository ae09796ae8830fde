// Fields that a proxy does not forward (RFC 2616, sections 13.5.1 and 14.10).
ghost use Rattle.std.specs.Prelude.{◌≡◌, ◌<◌, [], not, length, nat_eq, codes};
ghost use Rattle.std.specs.List.{list_any, starts_with};
ghost use Rattle.pp_text.specs.Bytes.{is_same, lower};
ghost use Rattle.pp_text.specs.Fields.{field_at, is_named, list_items};
ghost use Rattle.pp_text.specs.Forwarding.{hop_names, is_hop_by_hop};

use crate::ascii::same;
use crate::fields::Fields;

/// The fields that are for one connection, but for those that Connection names.
const HOP_NAMES: [&[u8]; 9] = [
    b"connection",
    b"keep-alive",
    b"proxy-authenticate",
    b"proxy-authorization",
    b"proxy-connection",
    b"te",
    b"trailer",
    b"transfer-encoding",
    b"upgrade",
];

const PRIVATE_PREFIX: &[u8] = b"x-polipo-";

/// Whether the field at this place goes on with the message: it is not for the connection that it
/// came on (sections 13.5.1 and 14.10), and not one of this proxy's own, `x-polipo-`.
pub fn is_forwarded(fields: &Fields<'_, '_>, index: usize) -> bool
    requires { index < length fields.now }
    ensures { result ≡ not (is_hop_by_hop fields.now (field_at fields.now index)) }
{
    let name = fields.name(index);
    let is_hop = is_hop_name(name) || fields.has_item(b"connection", name);
    !(is_hop || is_private(name))
}

fn is_hop_name(name: &[u8]) -> bool
    ensures { result ≡ list_any (λ hop. is_named hop (name.now, [])) hop_names }
{
    is_among(name, &HOP_NAMES)
}

fn is_among(name: &[u8], names: &[&[u8]]) -> bool
    ensures { result ≡ list_any (λ other. is_same other.now name.now) names.now }
{
    names.iter().any(|other| same(other, name))
}

fn is_private(name: &[u8]) -> bool
    ensures { result ≡ starts_with nat_eq (lower name.now) (codes "x-polipo-") }
{
    let len = PRIVATE_PREFIX.len();
    name.len() >= len && same(PRIVATE_PREFIX, &name[..len])
}
