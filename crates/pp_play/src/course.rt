// What the log tells of one connection.
use crate::playing::Played;
use pp_text::OutOfMemory;
use pp_world::{Cause, Decision, Happening, Remark};
use std::alloc::AllocError;

/// A step in the course of a connection. What is said or asked in one go counts as one step, however
/// it was cut, with the sum of its bytes; what is read is left out.
#[derive(Clone, Copy, Debug, PartialEq, Eq)]
pub enum Step {
    Opened,
    HungUp,
    Taken(u64, Decision),
    Said(u64),
    Cut(Cause),
    Shut,
    Dialled(u16),
    Reached,
    Asked(u64),
    Ended,
    Broke,
    Dropped,
    /// The program is to end: a step of every connection.
    Stopped,
}

impl Played {
    /// The course of this connection.
    pub fn course(&self, id: u64) -> Result<Vec<Step>, OutOfMemory> {
        let mut course = Vec::new(self.alloc());
        for happening in self.log() {
            if let Some(step) = step_of(happening, id) {
                join(step, &mut course)?;
            }
        }
        Ok(course)
    }

    /// How often this step happened, of all connections.
    pub fn count(&self, wanted: Step) -> u64 {
        let mut count: u64 = 0;
        for happening in self.log() {
            if let Some((_, step)) = named_step(happening) {
                if step == wanted {
                    count = count.saturating_add(1);
                }
            }
        }
        count
    }
}

impl Played {
    /// How many connections at most had this step, and not yet that other one.
    pub fn most_open(&self, opens: Step, closes: Step) -> u64 {
        let mut count: u64 = 0;
        let mut most: u64 = 0;
        for happening in self.log() {
            match named_step(happening) {
                Some((_, step)) if step == opens => count = count.saturating_add(1),
                Some((_, step)) if step == closes => count = count.saturating_sub(1),
                Some(_) | None => {}
            }
            most = most.max(count);
        }
        most
    }

    /// How many bytes at most were read, and not yet written.
    pub fn most_held(&self) -> usize {
        let mut held: usize = 0;
        let mut most: usize = 0;
        for happening in self.log() {
            held = held_behind(held, happening);
            most = most.max(held);
        }
        most
    }
}

/// How many bytes are held behind this, where so many were before.
fn held_behind(held: usize, happening: &Happening) -> usize {
    match happening {
        Happening::Got(_, bytes) | Happening::Heard(_, bytes) => held.saturating_add(
            bytes.as_slice().len(),
        ),
        Happening::Said(_, _, bytes) | Happening::Asked(_, bytes) => held.saturating_sub(
            bytes.as_slice().len(),
        ),
        _ => held,
    }
}

/// Adds a step, to the last one where that went on.
fn join(step: Step, course: &mut Vec<Step>) -> Result<(), OutOfMemory> {
    let joined = match (course.last().copied(), step) {
        (Some(Step::Said(sum)), Step::Said(more)) => Step::Said(sum.saturating_add(more)),
        (Some(Step::Asked(sum)), Step::Asked(more)) => Step::Asked(sum.saturating_add(more)),
        (_, _) => {
            course.push(step).map_err(AllocError::from)?;
            return Ok(());
        }
    };
    if let Some(last) = course.last_mut() {
        *last = joined;
    }
    Ok(())
}

/// The step that this is of this connection, if it is one.
fn step_of(happening: &Happening, id: u64) -> Option<Step> {
    if let Happening::Stopped = happening {
        return Some(Step::Stopped);
    }
    match named_step(happening) {
        Some((number, step)) if number == id => Some(step),
        Some(_) | None => None,
    }
}

/// The step that this is, and the number of its connection.
pub fn named_step(happening: &Happening) -> Option<(u64, Step)> {
    match happening {
        Happening::Opened(c) => Some((*c, Step::Opened)),
        Happening::HungUp(c) => Some((*c, Step::HungUp)),
        Happening::Said(c, _, bytes) => Some((*c, Step::Said(bytes.as_slice().len() as u64))),
        Happening::Shut(c) => Some((*c, Step::Shut)),
        Happening::Noted(Remark::Taken(c, request, decision)) => {
            Some((*c, Step::Taken(*request, *decision)))
        }
        Happening::Noted(Remark::Cut(c, cause)) => Some((*c, Step::Cut(*cause))),
        other => named_origin_step(other),
    }
}

fn named_origin_step(happening: &Happening) -> Option<(u64, Step)> {
    match happening {
        Happening::Dialled(k, _, port) => Some((*k, Step::Dialled(*port))),
        Happening::Reached(k) => Some((*k, Step::Reached)),
        Happening::Asked(k, bytes) => Some((*k, Step::Asked(bytes.as_slice().len() as u64))),
        Happening::Ended(k) => Some((*k, Step::Ended)),
        Happening::Broke(k) => Some((*k, Step::Broke)),
        Happening::Dropped(k) => Some((*k, Step::Dropped)),
        _ => None,
    }
}
