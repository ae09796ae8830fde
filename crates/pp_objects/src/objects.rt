// The instances by slot, and the slots in the order of use.
ghost use Rattle.std.specs.Prelude.{◌≡◌, ◌<◌, ◌≤◌, ◌+◌, ◌/◌, ◌%◌, ◌++◌, ◌∷◌, ◌↔◌, [], length, None, Some, IfOk, OnOk, OnErr, IfSome, IsNone, IsSome, IsSomeAnd, ℕ, true, false, drop, nat_le, option_map, count_by, vec_capacity};
ghost use Rattle.std.specs.List.{filter, find, list_any};
ghost use Rattle.pp_pool.specs.Chunks.{is_not};
ghost use Rattle.pp_holes.specs.Places.{shown, bytes_at, without, touched, without_owner};
ghost use Rattle.pp_holes.specs.Adding.{added};
ghost use Rattle.pp_holes.specs.Cells.{cell_of, filled_of, is_in_memory};
ghost use Rattle.pp_holes.specs.Holes.{IsFirstHole};
ghost use Rattle.pp_objects.specs.Inside.{instance_at, IsNew, IsAside};
ghost use Rattle.pp_objects.specs.Instances.{id_of, in_slot, is_there, is_row, row_of, is_idle, is_same_id, followers_of, cells_at, total_at, table_at, fields_at};
ghost use Rattle.pp_objects.specs.Changes.{changed_in, without_slot, marked, refreshed, followed, left, retired, new_row, set_aside, settled, retired_from, is_last, left_from, given_back, given_back_by, faces};
ghost use Rattle.pp_objects.specs.Agreement.{AllAgree};
ghost use Rattle.pp_objects.specs.Bounds.{AreLow, AreWithin};
ghost use Rattle.pp_objects.specs.Kept.{has_room, kept_of};
ghost use Rattle.pp_objects.specs.Views.{ShowsRow};

use crate::id::ObjectId;
use crate::index::{Index, leave_index, put, slot_of_key};
use crate::kept::KeptFields;
use crate::room::has_room;
use crate::row::Row;
use arrayvec::ArrayVec;
use pp_fresh::Times;
use pp_holes::{Added, Cells};
use pp_pool::Pool;
use pp_text::{Fields, Octets, OutOfMemory};
use pp_valid::Version;
use slab::Slab;
use std::alloc::Global;
use std::collections::BTreeMap;
use std::marker::Model;

/// Instances that there may be at once: 1,025 rows and 320 retired versions.
const INSTANCES: usize = 1345;

const NOTHING_ADDED: Added = Added {
    joined: 0,
    ignored: 0,
    need_chunk: false,
};

/// The instances in memory. Contracts see them in the order of use, the least recently used first.
#[derive(Drop)]
pub struct Objects {
    rows: Slab<Row>,
    order: Vec<u32>,
    index: Index,
    lives: u64,
}

impl Model for Objects {
    ghost use Rattle.pp_objects.specs.Instances.{Rows};

    ghost Value = { Rows };

    ghost use Rattle.pp_objects.specs.Inside.{rows_in, IsWhole};

    ghost view = { rows_in };

    ghost invariant = { IsWhole };
}

/// What is known of an instance.
#[derive(Drop)]
pub struct RowView<'a> {
    pub key: &'a [u8],
    pub version: &'a Version,
    /// The fields that are kept of the responses of this version.
    pub fields: Fields<'a, 'a>,
    pub times: Times,
    pub retired: bool,
    /// How many clients read from it.
    pub followers: u32,
}

impl Objects {
    /// No instances, and the room for all that there may be.
    pub fn new(alloc: Global) -> Result<Objects, OutOfMemory>
        ensures { IfOk result (λ o. o ≡ record { instances = []; lives = 0 }) }
    {
        let rows = Slab::with_capacity(alloc, INSTANCES)?;
        let order = Vec::with_capacity(alloc, INSTANCES)?;
        Ok(Objects {
            rows,
            order,
            index: BTreeMap::new(alloc),
            lives: 0,
        })
    }

    /// How many rows there are, the retired instances not counted.
    pub fn rows(&self) -> u32
        ensures { result ≡ count_by is_row self.now.instances }
    {
        count_rows(&self.rows, &self.order) as u32
    }

    /// Whether there is no room for another instance.
    pub fn is_full(&self) -> bool
        ensures { result ≡ nat_le 1345 (length self.now.instances) }
    {
        self.order.len() >= INSTANCES
    }

    /// Each instance stands in one of 1,345 slots, and nothing is in memory behind its end. It does nothing.
    pub fn bounds(&self)
        ensures slots { AreLow self.now.instances }
        ensures ends { AreWithin self.now.instances }
    {
        let _ = &self.order;
    }

    /// The row of a key. `None` exactly where the key has no row.
    pub fn current(&self, key: &[u8]) -> Option<ObjectId>
        ensures current { result ≡ option_map id_of (row_of key.now self.now.instances) }
        ensures there { IfSome result (λ id. in_slot id.slot self.now.instances ≡ row_of key.now self.now.instances) }
    {
        let slot = slot_of_key(&self.index, key)?;
        Some(id_in(&self.rows, slot))
    }

    /// The least recently used row without follower that is not busy. `None` exactly where every row has a
    /// follower or is busy.
    pub fn idle_row(&self, busy: &ArrayVec<ObjectId, 64>) -> Option<ObjectId>
        ensures idle { result ≡ option_map id_of (find (is_idle busy.now.items) self.now.instances) }
        ensures there { IfSome result (λ id. in_slot id.slot self.now.instances ≡ find (is_idle busy.now.items) self.now.instances) }
    {
        for slot in &self.order {
            if is_idle_in(&self.rows, *slot, busy) {
                return Some(id_in(&self.rows, *slot));
            }
        }
        None
    }

    /// The instance in a slot. `None` exactly where there is none.
    pub fn owner(&self, slot: u32) -> Option<ObjectId>
        ensures owner { result ≡ option_map id_of (in_slot slot self.now.instances) }
        ensures slot { IfSome result (λ id. id.slot ≡ slot) }
        ensures there { IfSome result (λ id. is_there id self.now.instances ≡ true) }
    {
        let row = self.rows.get(slot as usize)?;
        Some(ObjectId {
            slot,
            life: row.life,
        })
    }

    /// What is known of an instance. `None` exactly where the id is gone.
    pub fn row(&self, id: ObjectId) -> Option<RowView<'_>>
        ensures none { IsNone result ↔ (is_there id self.now.instances ≡ false) }
        ensures shows { IfSome result (λ view. IsSomeAnd (in_slot id.slot self.now.instances) (ShowsRow view)) }
    {
        let row = self.rows.get(id.slot as usize)?;
        if row.life != id.life {
            return None;
        }
        Some(RowView {
            key: row.key.as_slice(),
            version: &row.version,
            fields: row.fields.fields(),
            times: row.times,
            retired: row.is_retired,
            followers: row.followers,
        })
    }

    /// Whether what a response renews fits the 2,048 bytes of room for it.
    pub fn has_room(&self, id: ObjectId, fields: &Fields<'_, '_>, times: Times) -> bool
        requires { is_there id self.now.instances ≡ true }
        ensures { result ≡ has_room (fields_at id.slot self.now.instances) fields.now times }
    {
        match self.rows.get(id.slot as usize) {
            Some(row) => has_room(&row.fields.fields(), fields, times),
            None => false,
        }
    }

    /// Makes the instance the most recently used.
    pub fn mark(&mut self, id: ObjectId)
        requires { is_there id self.old.instances ≡ true }
        ensures marked { self.new ≡ record self.old { instances = marked id.slot self.old.instances } }
        ensures cells { (slot : ℕ) → cells_at slot self.new.instances ≡ cells_at slot self.old.instances }
    {
        leave_order(&mut self.order, id.slot);
        self.order.push_reserved(id.slot);
    }

    /// One client more reads from the instance.
    pub fn follow(&mut self, id: ObjectId)
        requires there { is_there id self.old.instances ≡ true }
        requires few { followers_of (in_slot id.slot self.old.instances) < 256 }
        ensures followed { self.new ≡ record self.old { instances = changed_in id.slot followed self.old.instances } }
        ensures cells { (slot : ℕ) → cells_at slot self.new.instances ≡ cells_at slot self.old.instances }
    {
        let Some(row) = self.rows.get_mut(id.slot as usize) else {
            return;
        };
        row.add_follower();
    }

    /// Renews what a later response of the instance's version says anew, in the room that `settle` took, and
    /// makes the instance the most recently used.
    pub fn refresh(&mut self, id: ObjectId, fields: &Fields<'_, '_>, times: Times)
        requires there { is_there id self.old.instances ≡ true }
        requires room { has_room (fields_at id.slot self.old.instances) fields.now times ≡ true }
        ensures refreshed { self.new ≡ record self.old { instances = marked id.slot (changed_in id.slot (refreshed fields.now times) self.old.instances) } }
        ensures cells { (slot : ℕ) → cells_at slot self.new.instances ≡ cells_at slot self.old.instances }
    {
        self.renew(id, fields, times);
        self.mark(id);
    }

    /// Makes a new row of a key, with nothing in memory, as the most recently used. A former row of the key is
    /// retired. All memory is taken before anything changes. After 2^64 - 1 lives there is no memory for a row.
    pub fn settle(
        &mut self,
        alloc: Global,
        pool: &mut Pool,
        key: &[u8],
        version: &Version,
        fields: &Fields<'_, '_>,
        times: Times,
    ) -> Result<ObjectId, OutOfMemory>
        requires few { length self.old.instances < 1345 }
        requires long { version.now.length ≤ 1073741824 }
        requires agrees { AllAgree self.old.instances pool.old.used }
        ensures agrees { AllAgree self.new.instances pool.new.used }
        ensures refused { OnErr result (self.new ≡ self.old) }
        ensures untouched { OnErr result (pool.new ≡ pool.old) }
        ensures vacant { IfOk result (λ id. in_slot id.slot self.old.instances ≡ None) }
        ensures life { IfOk result (λ id. id.life ≡ self.old.lives) }
        ensures low { IfOk result (λ id. id.slot < 1345) }
        ensures lives { OnOk result (self.new.lives ≡ self.old.lives + 1) }
        ensures there { IfOk result (λ id. is_there id self.new.instances ≡ true) }
        ensures settled { IfOk result (λ id. self.new.instances ≡ settled id key.now version.now (kept_of fields.now times) times self.old.instances) }
        ensures size { pool.new.size ≡ pool.old.size }
        ensures given { OnOk result (shown pool.new.used ≡ given_back_by (row_of key.now self.old.instances) (shown pool.old.used)) }
    {
        let former = self.current(key);
        let id = self.make_row(alloc, former, key, version, fields, times)?;
        if let Some(former) = former {
            self.retire_id(pool, former);
        }
        Ok(id)
    }

    /// Retires the row of a key: it is out at once where nobody follows it. Nothing changes where the key has
    /// no row.
    pub fn retire(&mut self, pool: &mut Pool, key: &[u8])
        requires agrees { AllAgree self.old.instances pool.old.used }
        ensures agrees { AllAgree self.new.instances pool.new.used }
        ensures lives { self.new.lives ≡ self.old.lives }
        ensures retired { self.new.instances ≡ retired_from (row_of key.now self.old.instances) self.old.instances }
        ensures size { pool.new.size ≡ pool.old.size }
        ensures given { shown pool.new.used ≡ given_back_by (row_of key.now self.old.instances) (shown pool.old.used) }
    {
        if let Some(id) = self.current(key) {
            self.retire_id(pool, id);
        }
    }

    /// The instance leaves memory, and its chunks are given back.
    pub fn forget(&mut self, pool: &mut Pool, id: ObjectId)
        requires there { is_there id self.old.instances ≡ true }
        requires unfollowed { followers_of (in_slot id.slot self.old.instances) ≡ 0 }
        requires agrees { AllAgree self.old.instances pool.old.used }
        ensures agrees { AllAgree self.new.instances pool.new.used }
        ensures forgotten { self.new ≡ record self.old { instances = without_slot id.slot self.old.instances } }
        ensures size { pool.new.size ≡ pool.old.size }
        ensures given { shown pool.new.used ≡ without_owner id.slot (shown pool.old.used) }
    {
        self.remove(pool, id.slot);
    }

    /// One client less reads from the instance. A retired one leaves memory with its last follower.
    pub fn leave(&mut self, pool: &mut Pool, id: ObjectId)
        requires there { is_there id self.old.instances ≡ true }
        requires followed { 0 < followers_of (in_slot id.slot self.old.instances) }
        requires agrees { AllAgree self.old.instances pool.old.used }
        ensures agrees { AllAgree self.new.instances pool.new.used }
        ensures lives { self.new.lives ≡ self.old.lives }
        ensures left { self.new.instances ≡ left_from id.slot (in_slot id.slot self.old.instances) self.old.instances }
        ensures size { pool.new.size ≡ pool.old.size }
        ensures given { shown pool.new.used ≡ given_back (is_last (in_slot id.slot self.old.instances)) id.slot (shown pool.old.used) }
    {
        if is_last_follower(&self.rows, id.slot) {
            self.remove(pool, id.slot);
        } else {
            self.unfollow(id);
        }
    }

    /// Adds bytes of the instance's version from an offset on. A byte joins where its offset is not in memory,
    /// and begins a chunk or follows an offset in memory; the others are passed over.
    pub fn add(&mut self, pool: &mut Pool, id: ObjectId, at: u64, bytes: &[u8]) -> Added
        requires there { is_there id self.old.instances ≡ true }
        requires within { at + length bytes.now ≤ total_at id.slot self.old.instances }
        requires agrees { AllAgree self.old.instances pool.old.used }
        ensures agrees { AllAgree self.new.instances pool.new.used }
        ensures lives { self.new.lives ≡ self.old.lives }
        ensures faces { faces self.new.instances ≡ faces self.old.instances }
        ensures size { pool.new.size ≡ pool.old.size }
        ensures chunks { shown pool.new.used ≡ (added pool.old.size id.slot at bytes.now (shown pool.old.used)).chunks }
        ensures joined { result.joined ≡ (added pool.old.size id.slot at bytes.now (shown pool.old.used)).joined }
        ensures ignored { result.ignored ≡ (added pool.old.size id.slot at bytes.now (shown pool.old.used)).ignored }
        ensures need_chunk { result.need_chunk ≡ (added pool.old.size id.slot at bytes.now (shown pool.old.used)).need_chunk }
    {
        let Some(row) = self.rows.get_mut(id.slot as usize) else {
            return NOTHING_ADDED;
        };
        row.cells.add(pool, at, bytes)
    }

    /// Gives a chunk of the instance back to the pool. Nothing changes where it is not in memory.
    pub fn drop_chunk(&mut self, pool: &mut Pool, id: ObjectId, index: u32)
        requires there { is_there id self.old.instances ≡ true }
        requires agrees { AllAgree self.old.instances pool.old.used }
        ensures agrees { AllAgree self.new.instances pool.new.used }
        ensures lives { self.new.lives ≡ self.old.lives }
        ensures faces { faces self.new.instances ≡ faces self.old.instances }
        ensures size { pool.new.size ≡ pool.old.size }
        ensures dropped { shown pool.new.used ≡ without (id.slot, index) (shown pool.old.used) }
    {
        let Some(row) = self.rows.get_mut(id.slot as usize) else {
            return;
        };
        row.cells.drop_chunk(pool, index);
    }

    /// Makes a chunk of the instance the most recently used.
    pub fn touch(&self, pool: &mut Pool, id: ObjectId, index: u32)
        requires there { is_there id self.now.instances ≡ true }
        requires in_memory { 0 < filled_of (cell_of (cells_at id.slot self.now.instances) index) }
        requires agrees { AllAgree self.now.instances pool.old.used }
        ensures agrees { AllAgree self.now.instances pool.new.used }
        ensures size { pool.new.size ≡ pool.old.size }
        ensures touched { shown pool.new.used ≡ touched (id.slot, index) (shown pool.old.used) }
    {
        let Some(row) = self.rows.get(id.slot as usize) else {
            return;
        };
        row.cells.touch(pool, index);
    }

    /// The bytes of the instance from `at` to the end of what its chunk holds, lent from the pool. Empty
    /// exactly where `at` is not in memory.
    pub fn piece<'p>(&self, pool: &'p Pool, id: ObjectId, at: u64) -> &'p [u8]
        requires there { is_there id self.now.instances ≡ true }
        requires agrees { AllAgree self.now.instances pool.now.used }
        ensures piece { result.now ≡ drop (at % 4096) (bytes_at (id.slot, at / 4096) (shown pool.now.used)) }
        ensures empty { (result.now ≡ []) ↔ (is_in_memory (cells_at id.slot self.now.instances) at ≡ false) }
    {
        match self.rows.get(id.slot as usize) {
            Some(row) => row.cells.piece(pool, at),
            None => &[],
        }
    }

    /// The first span of the instance from `at` on that is not in memory, half-open, up to the next chunk that
    /// holds a byte. Where there is none it is empty and stands at the length.
    pub fn next_hole(&self, id: ObjectId, at: u64) -> (u64, u64)
        requires { is_there id self.now.instances ≡ true }
        ensures { IsFirstHole (table_at id.slot self.now.instances) at result }
    {
        match self.rows.get(id.slot as usize) {
            Some(row) => row.cells.next_hole(at),
            None => (0, 0),
        }
    }
}

impl Objects {
    /// Makes a new row of a key, with nothing in memory, as the most recently used, and sets the former one
    /// aside: it counts as retired. All memory is taken before anything changes.
    fn make_row(
        &mut self,
        alloc: Global,
        former: Option<ObjectId>,
        key: &[u8],
        version: &Version,
        fields: &Fields<'_, '_>,
        times: Times,
    ) -> Result<ObjectId, OutOfMemory>
        requires few { length self.old.instances < 1345 }
        requires long { version.now.length ≤ 1073741824 }
        requires former { former ≡ option_map id_of (row_of key.now self.old.instances) }
        ensures refused { OnErr result (self.new ≡ self.old) }
        ensures vacant { IfOk result (λ id. in_slot id.slot self.old.instances ≡ None) }
        ensures life { IfOk result (λ id. id.life ≡ self.old.lives) }
        ensures low { IfOk result (λ id. id.slot < 1345) }
        ensures lives { OnOk result (self.new.lives ≡ self.old.lives + 1) }
        ensures made { IfOk result (λ id. self.new.instances ≡ set_aside (row_of key.now self.old.instances) (self.old.instances ++ new_row id key.now version.now (kept_of fields.now times) times ∷ [])) }
    {
        let life = self.lives;
        if life == u64::MAX {
            return Err(OutOfMemory);
        }
        let slot = slot_of(self.rows.vacant_key())?;
        let row = new_row(alloc, slot, life, key, version, fields, times)?;
        put(&mut self.index, alloc, key, slot)?;
        self.rows.insert_reserved(row);
        self.order.push_reserved(slot);
        self.lives += 1;
        put_aside(&mut self.rows, former);
        Ok(ObjectId { slot, life })
    }

    /// Retires an instance: it is out at once where nobody follows it.
    fn retire_id(&mut self, pool: &mut Pool, id: ObjectId)
        requires there { is_there id self.old.instances ≡ true }
        requires agrees { AllAgree self.old.instances pool.old.used }
        ensures agrees { AllAgree self.new.instances pool.new.used }
        ensures lives { self.new.lives ≡ self.old.lives }
        ensures retired { self.new.instances ≡ retired_from (in_slot id.slot self.old.instances) self.old.instances }
        ensures size { pool.new.size ≡ pool.old.size }
        ensures given { shown pool.new.used ≡ given_back_by (in_slot id.slot self.old.instances) (shown pool.old.used) }
    {
        if followers_in(&self.rows, id.slot) == 0 {
            self.remove(pool, id.slot);
        } else {
            self.set_retired(id);
        }
    }

    fn renew(&mut self, id: ObjectId, fields: &Fields<'_, '_>, times: Times)
        requires there { is_there id self.old.instances ≡ true }
        requires room { has_room (fields_at id.slot self.old.instances) fields.now times ≡ true }
        ensures refreshed { self.new ≡ record self.old { instances = changed_in id.slot (refreshed fields.now times) self.old.instances } }
        ensures cells { (slot : ℕ) → cells_at slot self.new.instances ≡ cells_at slot self.old.instances }
        ensures there { is_there id self.new.instances ≡ true }
    {
        let Some(row) = self.rows.get_mut(id.slot as usize) else {
            return;
        };
        row.refresh(fields, times);
    }

    fn set_retired(&mut self, id: ObjectId)
        requires { is_there id self.old.instances ≡ true }
        ensures retired { self.new ≡ record self.old { instances = changed_in id.slot retired self.old.instances } }
        ensures cells { (slot : ℕ) → cells_at slot self.new.instances ≡ cells_at slot self.old.instances }
    {
        let Some(row) = self.rows.get_mut(id.slot as usize) else {
            return;
        };
        leave_index(&mut self.index, row);
        row.retire();
    }

    fn unfollow(&mut self, id: ObjectId)
        requires there { is_there id self.old.instances ≡ true }
        requires followed { 0 < followers_of (in_slot id.slot self.old.instances) }
        ensures left { self.new ≡ record self.old { instances = changed_in id.slot left self.old.instances } }
        ensures cells { (slot : ℕ) → cells_at slot self.new.instances ≡ cells_at slot self.old.instances }
    {
        let Some(row) = self.rows.get_mut(id.slot as usize) else {
            return;
        };
        row.remove_follower();
    }

    /// Takes an instance out of its slot, and gives its chunks back.
    fn remove(&mut self, pool: &mut Pool, slot: u32)
        requires there { IsSome (in_slot slot self.old.instances) }
        requires agrees { AllAgree self.old.instances pool.old.used }
        ensures agrees { AllAgree self.new.instances pool.new.used }
        ensures removed { self.new ≡ record self.old { instances = without_slot slot self.old.instances } }
        ensures size { pool.new.size ≡ pool.old.size }
        ensures given { shown pool.new.used ≡ without_owner slot (shown pool.old.used) }
    {
        let Some(mut row) = self.rows.try_remove(slot as usize) else {
            return;
        };
        leave_index(&mut self.index, &row);
        leave_order(&mut self.order, slot);
        row.cells.drop_all(pool);
    }
}

/// A row with nothing in memory.
fn new_row(
    alloc: Global,
    slot: u32,
    life: u64,
    key: &[u8],
    version: &Version,
    fields: &Fields<'_, '_>,
    times: Times,
) -> Result<Row, OutOfMemory>
    requires { version.now.length ≤ 1073741824 }
    ensures { IfOk result (λ row. IsNew row slot life key.now version.now (kept_of fields.now times) times) }
{
    Ok(Row {
        life,
        key: Octets::copy(alloc, key)?,
        version: *version,
        fields: KeptFields::of(alloc, fields, times)?,
        times,
        is_retired: false,
        followers: 0,
        cells: Cells::new(alloc, slot, version.length)?,
    })
}

/// The former row of a key is retired where it stands.
fn put_aside(rows: &mut Slab<Row>, former: Option<ObjectId>)
    ensures { IsAside rows.old rows.new former }
{
    let Some(id) = former else {
        return;
    };
    let Some(row) = rows.get_mut(id.slot as usize) else {
        return;
    };
    row.retire();
}

/// Slots are numbered below 1,345; past them there is no memory for a row.
fn slot_of(key: usize) -> Result<u32, OutOfMemory>
    ensures slot { IfOk result (λ slot. slot ≡ key) }
    ensures low { IfOk result (λ slot. slot < 1345) }
{
    if key < INSTANCES {
        Ok(key as u32)
    } else {
        Err(OutOfMemory)
    }
}

fn followers_in(rows: &Slab<Row>, slot: u32) -> u32
    ensures { result ≡ (instance_at rows.now.slots slot).followers }
{
    match rows.get(slot as usize) {
        Some(row) => row.followers,
        None => 0,
    }
}

fn is_last_follower(rows: &Slab<Row>, slot: u32) -> bool
    ensures { result ≡ is_last (Some (instance_at rows.now.slots slot)) }
{
    match rows.get(slot as usize) {
        Some(row) => row.is_retired && row.followers == 1,
        None => false,
    }
}

fn id_in(rows: &Slab<Row>, slot: u32) -> ObjectId
    ensures { result ≡ id_of (instance_at rows.now.slots slot) }
{
    match rows.get(slot as usize) {
        Some(row) => ObjectId {
            slot,
            life: row.life,
        },
        None => ObjectId { slot, life: 0 },
    }
}

fn count_rows(rows: &Slab<Row>, order: &[u32]) -> usize
    ensures count { result ≡ count_by (λ slot. is_row (instance_at rows.now.slots slot)) order.now }
    ensures within { result ≤ length order.now }
{
    order.iter().filter(|slot| is_row_in(rows, **slot)).count()
}

fn is_row_in(rows: &Slab<Row>, slot: u32) -> bool
    ensures { result ≡ is_row (instance_at rows.now.slots slot) }
{
    match rows.get(slot as usize) {
        Some(row) => !row.is_retired,
        None => false,
    }
}

fn is_idle_in(rows: &Slab<Row>, slot: u32, busy: &ArrayVec<ObjectId, 64>) -> bool
    ensures { result ≡ is_idle busy.now.items (instance_at rows.now.slots slot) }
{
    match rows.get(slot as usize) {
        Some(row) => !row.is_retired
            && (row.followers == 0
                && !is_busy(
                    busy,
                    ObjectId {
                        slot,
                        life: row.life,
                    },
                )),
        None => false,
    }
}

fn is_busy(busy: &ArrayVec<ObjectId, 64>, id: ObjectId) -> bool
    ensures { result ≡ list_any (is_same_id id) busy.now.items }
{
    busy.iter()
        .any(|other| id.slot == other.slot && id.life == other.life)
}

/// Takes a slot out of the order.
fn leave_order(order: &mut Vec<u32>, slot: u32)
    ensures items { order.new.items ≡ filter (is_not slot) order.old.items }
    ensures capacity { vec_capacity order.new ≡ vec_capacity order.old }
{
    order.retain(|other| *other != slot);
}
