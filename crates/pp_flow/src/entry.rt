// An exchange, what it asks, its key and its text.
ghost use Rattle.std.specs.Prelude.{◌≡◌, ◌==◌, ◌≤◌, length};
ghost use Rattle.pp_flow.specs.Entries.{begun_with, bound_to, moved, moved_by, nobodys, to_come, with_place, IsInSpan, IsToCome};

use crate::errand::Errand;
use arrayvec::ArrayVec;
use pp_ask::ASK_LEN;
use pp_objects::ObjectId;
use pp_target::KEY_ROOM;
use pp_valid::Version;

/// What an exchange is for.
#[derive(Clone, Copy, Debug, PartialEq, Eq)]
pub enum Aim {
    /// To fetch or validate for the cache.
    Own,
    /// To fill a hole of this version: a half-open span of offsets.
    Hole(Version, u64, u64),
    /// To pass a request and its response.
    Pass,
}

/// A request of this proxy to an origin, and its response.
#[derive(Clone, Copy, Debug, PartialEq, Eq)]
pub struct Exchange {
    /// Rises with each exchange.
    pub number: u64,
    /// The client whose current request asks it. None once that request left it: then it is nobody's.
    pub asker: Option<u64>,
    pub aim: Aim,
    /// Its connection.
    pub place: Option<u64>,
    /// Whether its final head came.
    pub headed: bool,
    /// The instance that its body belongs to, the half-open span that is still to come, and whether all of it is
    /// waited for, however far ahead: that of an origin which gives no ranges.
    pub bound: Option<(ObjectId, u64, u64, bool)>,
}

/// An exchange with what it asks, the key that it asks for, and the text that it asks it with.
#[derive(Drop)]
pub struct Entry {
    pub exchange: Exchange,
    pub errand: Errand,
    pub key: ArrayVec<u8, KEY_ROOM>,
    pub text: ArrayVec<u8, ASK_LEN>,
}

impl Entry {
    /// Room for an exchange.
    pub(crate) fn empty() -> Entry {
        Entry {
            exchange: Exchange {
                number: 0,
                asker: None,
                aim: Aim::Own,
                place: None,
                headed: false,
                bound: None,
            },
            errand: Errand::empty(),
            key: ArrayVec::new(),
            text: ArrayVec::new(),
        }
    }

    /// An exchange begins here.
    pub(crate) fn begin(
        &mut self,
        number: u64,
        client: u64,
        key: &[u8],
        aim: Aim,
        errand: &Errand,
        text: &[u8],
    )
        requires short { length key.now ≤ 8192 }
        requires fits { length text.now ≤ ASK_LEN }
        ensures { self.new ≡ begun_with number client key.now aim errand.now text.now }
    {
        self.exchange = Exchange {
            number,
            asker: Some(client),
            aim,
            place: None,
            headed: false,
            bound: None,
        };
        self.errand = *errand;
        self.key.clear();
        let _ = self.key.try_extend_from_slice(key);
        self.text.clear();
        let _ = self.text.try_extend_from_slice(text);
    }

    /// Its text was asked whole, and its response may come.
    pub fn is_outstanding(&self) -> bool
        ensures { result ≡ (self.now.errand.asked == length self.now.text.items) }
    {
        self.errand.asked == self.text.len()
    }

    pub(crate) fn set_place(&mut self, place: Option<u64>)
        ensures { self.new ≡ with_place place self.old }
    {
        self.exchange.place = place;
    }

    /// Its request leaves it.
    pub(crate) fn leave(&mut self)
        ensures { self.new ≡ nobodys self.old }
    {
        self.exchange.asker = None;
    }

    /// Its final head came, and its body belongs there.
    pub(crate) fn bind(&mut self, to: Option<(ObjectId, u64, u64, bool)>)
        ensures { self.new ≡ bound_to to self.old }
    {
        self.exchange.headed = true;
        self.exchange.bound = to;
    }

    /// The bytes of its span that are still to come.
    pub(crate) fn to_come(&self) -> Option<u64>
        ensures { result ≡ to_come self.now }
    {
        let (_, from, to, _) = self.exchange.bound?;
        to.checked_sub(from)
    }

    /// So many bytes of its span came.
    pub(crate) fn came(&mut self, n: u64)
        requires { IsToCome n self.old }
        ensures { self.new ≡ moved_by n self.old }
    {
        self.exchange.bound = moved(self.exchange.bound, n);
    }
}

/// What is still to come of a span, when so many bytes of it came.
fn moved(bound: Option<(ObjectId, u64, u64, bool)>, n: u64) -> Option<(ObjectId, u64, u64, bool)>
    requires { IsInSpan n bound }
    ensures { result ≡ moved n bound }
{
    let (id, from, to, all) = bound?;
    Some((id, from + n, to, all))
}
