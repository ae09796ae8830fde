// One instance, as it is kept in its slot.
ghost use Rattle.std.specs.Prelude.{◌≡◌, ◌<◌, ◌+◌, ◌-◌, true};
ghost use Rattle.pp_objects.specs.Kept.{has_room, refreshed_of};

use crate::kept::KeptFields;
use pp_fresh::Times;
use pp_holes::Cells;
use pp_text::{Fields, Octets};
use pp_valid::Version;

#[derive(Drop)]
pub(crate) struct Row {
    pub(crate) life: u64,
    pub(crate) key: Octets,
    pub(crate) version: Version,
    pub(crate) fields: KeptFields,
    pub(crate) times: Times,
    pub(crate) is_retired: bool,
    pub(crate) followers: u32,
    pub(crate) cells: Cells,
}

impl Row {
    pub(crate) fn add_follower(&mut self)
        requires { self.old.followers < 256 }
        ensures { self.new ≡ record self.old { followers = self.old.followers + 1 } }
    {
        self.followers += 1;
    }

    pub(crate) fn remove_follower(&mut self)
        requires { 0 < self.old.followers }
        ensures { self.new ≡ record self.old { followers = self.old.followers - 1 } }
    {
        self.followers -= 1;
    }

    pub(crate) fn refresh(&mut self, fields: &Fields<'_, '_>, times: Times)
        requires { has_room self.old.fields fields.now times ≡ true }
        ensures { self.new ≡ record self.old { fields = refreshed_of self.old.fields fields.now times; times = times } }
    {
        self.fields.refresh(fields, times);
        self.times = times;
    }

    pub(crate) fn retire(&mut self)
        ensures { self.new ≡ record self.old { is_retired = true } }
    {
        self.is_retired = true;
    }
}
