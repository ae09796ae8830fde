// The room for another row: the one that is next leaves memory (ours).
ghost use Rattle.std.specs.Prelude.{◌≡◌, ◌++◌, false, true, take, slice_get, option_and_then, IfSome};
ghost use Rattle.pp_state.specs.Pins.{is_for_memory, bound_of, busy_row, busy_rows, exchanges_of, forgotten_row, idle_row, with_room};
ghost use Rattle.std.specs.Option.{option_to_list};
ghost use Rattle.pp_cache.specs.Notes.{noted_by};
ghost use Rattle.pp_objects.specs.Instances.{in_slot, is_there};

use crate::state::State;
use arrayvec::ArrayVec;
use pp_cache::{Cache, Noted};
use pp_objects::ObjectId;
use pp_world::Decision;

impl State {
    /// Where there is no room for another row, the one that is next leaves memory.
    pub fn make_room_for_row(&mut self)
        ensures { self.new ≡ with_room self.old }
    {
        if self.cache.is_full() {
            self.forget_idle_row();
        }
    }

    fn forget_idle_row(&mut self)
        ensures { self.new ≡ forgotten_row (idle_row self.old) self.old }
    {
        let busy = self.busy_rows();
        if let Some(id) = self.cache.idle_row(&busy) {
            note_key_of(&self.cache, id, &mut self.forgotten);
            self.cache.forget(id);
        }
    }

    /// The instances that exchanges are bound to.
    pub fn busy_rows(&self) -> ArrayVec<ObjectId, 64>
        ensures { result.items ≡ busy_rows self.entry.now.flow }
    {
        let mut busy = ArrayVec::new();
        for index in 0..self.flow.len() {
            note_busy(&mut busy, self.busy_at(index));
        }
        busy
    }

    /// What the exchange at this place is bound to.
    pub fn bound_at(&self, index: usize) -> Option<(ObjectId, u64, u64, bool)>
        ensures { result ≡ option_and_then bound_of (slice_get (exchanges_of self.entry.now.flow) index) }
    {
        self.flow.at(index)?.exchange.bound
    }

    /// And the instance.
    fn busy_at(&self, index: usize) -> Option<ObjectId>
        ensures { result ≡ option_and_then busy_row (slice_get (exchanges_of self.entry.now.flow) index) }
    {
        let (id, _, _, _) = self.bound_at(index)?;
        Some(id)
    }
}

/// Whether memory is refused for the request.
pub fn is_for_memory(decision: Decision) -> bool
    ensures { result ≡ is_for_memory decision }
{
    matches!(decision, Decision::Refuse(500))
}

/// The key of the instance is to be noted.
fn note_key_of(cache: &Cache, id: ObjectId, forgotten: &mut Noted)
    ensures there { is_there id cache.now.instances ≡ true → IfSome (in_slot id.slot cache.now.instances) (λ i. forgotten.new ≡ noted_by i.key forgotten.old) }
    ensures gone { is_there id cache.now.instances ≡ false → forgotten.new ≡ forgotten.old }
{
    let Some(row) = cache.row(id) else {
        return;
    };
    forgotten.note(row.key);
}

fn note_busy(busy: &mut ArrayVec<ObjectId, 64>, id: Option<ObjectId>)
    ensures { busy.new.items ≡ take 64 (busy.old.items ++ option_to_list id) }
{
    if busy.len() < 64 {
        match id {
            None => {}
            Some(id) => busy.push(id),
        }
    }
}
