// Where the readers of an instance stand (ours).
ghost use Rattle.std.specs.Prelude.{◌≡◌, max};
ghost use Rattle.pp_state.specs.Readers.{at_of, furthest, next_at, of_both};

use crate::state::State;
use crate::unseen::is_same;
use pp_objects::ObjectId;
use pp_seats::Next;

impl State {
    /// Who is silent has none.
    pub fn next_at(&self, i: usize) -> Option<Next>
        ensures { result ≡ next_at self.entry.now.seats.items i }
    {
        self.seats.get(i)?.next()
    }

    /// Where the furthest of the instance's followers stands.
    pub(crate) fn furthest(&self, id: ObjectId) -> Option<u64>
        ensures { result ≡ furthest id self.entry.now.awake.items self.entry.now.seats.items }
    {
        let mut furthest: Option<u64> = None;
        for i in self.awake.iter() {
            furthest = further(furthest, self.at_of(*i, id));
        }
        furthest
    }

    /// Where the client at this place stands, if it follows that.
    fn at_of(&self, i: usize, id: ObjectId) -> Option<u64>
        ensures { result ≡ at_of id (next_at self.entry.now.seats.items i) }
    {
        let next = self.next_at(i)?;
        if is_same(next.source, id) {
            Some(next.at)
        } else {
            None
        }
    }
}

/// The further of the two, of those that are there.
pub fn further(furthest: Option<u64>, at: Option<u64>) -> Option<u64>
    ensures { result ≡ of_both max furthest at }
{
    match (furthest, at) {
        (_, None) => furthest,
        (None, Some(at)) => Some(at),
        (Some(furthest), Some(at)) => Some(furthest.max(at)),
    }
}
