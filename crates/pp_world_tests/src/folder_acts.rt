// Two programs over real folders, and what is done to these by hand, act by act.
use crate::calls::{Call, Gives, is_given};
use crate::outcome::Unlike;
use crate::turns::wants;
use pp_net::{NetFault, NetWorld};
use pp_world::{Event, Wire};
use std::fs;
use std::os::unix::fs::PermissionsExt;

/// What happens to a folder. Paths begin with its name.
#[derive(Clone, Copy)]
pub enum Act<'a> {
    /// What a call of the program gives.
    Call(Call<'a>, Gives<'a>),
    /// What a call of a second program gives.
    Second(Call<'a>, Gives<'a>),
    /// The first program ends.
    Ends,
    /// A second begins, in which the program looks after its folder.
    Tick,
    /// By hand: the file of this path has these bytes.
    Put(&'a str, &'a [u8]),
    /// By hand: a folder is made.
    Make(&'a str),
    /// By hand: the one has the name of the other from now on.
    Move(&'a str, &'a str),
    /// By hand: a folder goes, with all that is in it.
    Clear(&'a str),
    /// The file of this path has these bytes.
    Has(&'a str, &'a [u8]),
    /// Who may do what with the file or folder of this path.
    Mode(&'a str, u32),
}

pub struct Course<'a> {
    pub name: &'a str,
    pub acts: &'a [Act<'a>],
}

/// Two programs.
#[derive(Drop)]
struct Programs {
    rt: HostRuntime,
    first: NetWorld<HostRuntime>,
    second: NetWorld<HostRuntime>,
}

impl Programs {
    fn new(rt: &HostRuntime) -> Result<Programs, NetFault> {
        Ok(Programs {
            rt: *rt,
            first: NetWorld::new(*rt)?,
            second: NetWorld::new(*rt)?,
        })
    }

    fn first_unmet(&mut self, acts: &[Act<'_>]) -> Option<usize> {
        for (place, act) in acts.iter().enumerate() {
            if !self.is_met(*act) {
                return Some(place);
            }
        }
        None
    }

    fn is_met(&mut self, act: Act<'_>) -> bool {
        match act {
            Act::Call(call, wanted) => is_given(&mut self.first, self.rt.alloc(), call, wanted),
            Act::Second(call, wanted) => is_given(&mut self.second, self.rt.alloc(), call, wanted),
            Act::Ends => self.ends(),
            Act::Tick => ticks(&mut self.first),
            Act::Put(path, bytes) => fs::write(&self.rt, path, bytes).is_ok(),
            Act::Make(path) => fs::create_dir(&self.rt, path).is_ok(),
            Act::Move(from, to) => fs::rename(&self.rt, from, to).is_ok(),
            Act::Clear(path) => fs::remove_dir_all(&self.rt, path).is_ok(),
            Act::Has(path, bytes) => has(&self.rt, path, bytes),
            Act::Mode(path, mode) => mode_of(&self.rt, path) == Some(mode),
        }
    }

    fn ends(&mut self) -> bool {
        match NetWorld::new(self.rt) {
            Ok(next) => {
                self.first = next;
                true
            }
            Err(_) => false,
        }
    }
}

fn ticks(program: &mut NetWorld<HostRuntime>) -> bool {
    matches!(program.next(&wants(false, &[], &[])), Event::Tick(_))
}

fn has(rt: &HostRuntime, path: &str, bytes: &[u8]) -> bool {
    match fs::read(rt, path) {
        Ok(file) => file.as_slice() == bytes,
        Err(_) => false,
    }
}

fn mode_of(rt: &HostRuntime, path: &str) -> Option<u32> {
    match fs::metadata(rt, path) {
        Ok(found) => Some(found.permissions().mode() & 0o777),
        Err(_) => None,
    }
}

/// The first of these courses that goes otherwise than it is written down.
pub fn unlike<'a>(rt: &HostRuntime, courses: &[Course<'a>]) -> Option<Unlike<'a>> {
    for course in courses {
        if let Some((part, place)) = part_unlike(rt, course.acts) {
            return Some(Unlike {
                course: course.name,
                part,
                place,
            });
        }
    }
    None
}

fn part_unlike(rt: &HostRuntime, acts: &[Act<'_>]) -> Option<(&'static str, usize)> {
    match Programs::new(rt) {
        Ok(mut programs) => Some(("act", programs.first_unmet(acts)?)),
        Err(_) => Some(("begin", 0)),
    }
}
