// What an origin is asked for a request, and how that is written.
ghost use Rattle.std.specs.Prelude.{◌≡◌, ℕ, List};
ghost use Rattle.pp_ask.specs.Texts.{ask_text};
ghost use Rattle.pp_head.specs.Request.{Request};
ghost use Rattle.pp_head.specs.Shown.{shown_request};
ghost use Rattle.pp_plan.specs.Fetch.{fetch_range};
ghost use Rattle.pp_seats.specs.Fetches.{asked_as, fetch_by};
ghost use Rattle.pp_target.specs.Key.{Key};

use pp_ask::AskKind;
use pp_flow::Kind;
use pp_head::RequestHead;
use pp_plan::fetch_range;

/// What is asked first where nothing is known.
pub fn fetch_of(head: &RequestHead<'_, '_>) -> Kind
    ensures { result ≡ fetch_by (fetch_range (shown_request head.now).fields) }
{
    match fetch_range(head) {
        None => Kind::Whole,
        Some((first, last)) => Kind::Range(first, last),
    }
}

/// As the ask that is written.
pub fn as_ask(kind: &Kind) -> AskKind<'_>
    ensures { (request : Request) (key : Key) (name : List ℕ) → ask_text result request key name ≡ ask_text (asked_as kind.now) request key name }
{
    match kind {
        Kind::Whole => AskKind::Whole,
        Kind::Range(first, last) => AskKind::Range(*first, *last),
        Kind::Hole(first, last, tag) => AskKind::Hole(*first, *last, tag),
        Kind::Check(tag) => AskKind::Check(tag),
        Kind::Pass => AskKind::Pass,
    }
}
