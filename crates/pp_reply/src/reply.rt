// The kinds of replies, and the text that each begins with.
ghost use Rattle.std.specs.Prelude.{◌≡◌, ◌≤◌, length, option_map};
ghost use Rattle.pp_head.specs.Shown.{shown_response};
ghost use Rattle.pp_reply.specs.Texts.{reply_text, CanWrite};

use crate::lines::TEXT_LEN;
use crate::page::put_page;
use crate::passed::{Asker, put_passed_head};
use arrayvec::ArrayVec;
use pp_framing::BodyRule;
use pp_head::ResponseHead;

/// What is replied to a request.
#[derive(Clone, Copy, Debug, PartialEq, Eq)]
pub enum ReplyKind {
    /// A page with this status: whether the client asked HEAD.
    Refusal(u16, bool),
    /// A response that is passed, and whose body is delimited so: the minor version of the client's
    /// request, and whether it asked HEAD.
    Passed(BodyRule, u8, bool),
}

/// Writes what stands before the body of a reply, over what `out` holds: of a refusal the whole
/// page. The name is that of this proxy, and `keep` whether the client's connection may go on.
///
/// A page that is the last of its connection, and a reply whose end its client cannot know, say
/// `close` all the same.
pub fn write_reply(
    reply: &ReplyKind,
    response: Option<&ResponseHead<'_, '_>>,
    name: &[u8],
    keep: bool,
    out: &mut ArrayVec<u8, TEXT_LEN>,
)
    requires shown { CanWrite reply.now (option_map (λ r. shown_response r.now) response) }
    requires name { length name.now ≤ 64 }
    ensures { out.new.items ≡ reply_text reply.now (option_map (λ r. shown_response r.now) response.entry) name.now keep }
{
    out.clear();
    match *reply {
        ReplyKind::Refusal(status, head_asked) => put_page(status, head_asked, keep, out),
        ReplyKind::Passed(rule, minor, head_asked) => {
            if let Some(response) = response {
                let asker = Asker {
                    minor,
                    head_asked,
                    keep,
                };
                put_passed_head(response, rule, asker, name, out);
            }
        }
    }
}
