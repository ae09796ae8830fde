// What the log tells of the folder.
use crate::playing::Played;
use pp_text::OutOfMemory;
use pp_world::{DiskOp, Happening, Remark};
use std::alloc::AllocError;

/// An operation on a file.
#[derive(Clone, Copy, Debug, PartialEq, Eq)]
pub enum Op {
    /// A draft of so many bytes.
    Draft(u64),
    SyncDraft,
    Publish,
    /// From this offset on so many bytes.
    Write(u64, u64),
    Sync,
    Remove,
}

/// A step in the course of the folder.
#[derive(Clone, Copy, Debug, PartialEq, Eq)]
pub enum Filed {
    /// A life begins, over a folder with a file or without one.
    Woke(bool),
    /// Nothing is told of how this operation went.
    Began(Op),
    Did(Op),
    Failed(Op),
    /// A file could not be read.
    Unread,
    /// Of a body of so many bytes so many are kept.
    Kept(u64, u64),
    Gone,
    /// The chunk of this number was read back.
    Loaded(u64),
}

impl Played {
    /// The course of the folder, through all lives.
    pub fn filed(&self) -> Result<Vec<Filed>, OutOfMemory> {
        let mut course = Vec::new(self.alloc());
        for happening in self.log() {
            if let Some(step) = filed_step(happening) {
                put(step, &mut course)?;
            }
        }
        Ok(course)
    }
}

/// Adds a step: the end of an operation in the place of its begin.
fn put(step: Filed, course: &mut Vec<Filed>) -> Result<(), OutOfMemory> {
    if let (Some(Filed::Began(begun)), Some(ended)) = (course.last().copied(), ended_by(step)) {
        if begun == ended {
            if let Some(last) = course.last_mut() {
                *last = step;
            }
            return Ok(());
        }
    }
    course.push(step).map_err(AllocError::from)?;
    Ok(())
}

/// The operation that ends with this.
fn ended_by(step: Filed) -> Option<Op> {
    match step {
        Filed::Did(op) | Filed::Failed(op) => Some(op),
        _ => None,
    }
}

fn filed_step(happening: &Happening) -> Option<Filed> {
    match happening {
        Happening::Woke(image) => Some(Filed::Woke(image.next_name(None).is_some())),
        Happening::Began(op) => Some(Filed::Began(op_of(op))),
        Happening::Did(op, true) => Some(Filed::Did(op_of(op))),
        Happening::Did(op, false) => Some(Filed::Failed(op_of(op))),
        Happening::Unread(_) => Some(Filed::Unread),
        Happening::Noted(remark) => noted_step(remark),
        _ => None,
    }
}

fn noted_step(remark: &Remark) -> Option<Filed> {
    match remark {
        Remark::Kept(_, _, length, extent) => Some(Filed::Kept(*length, *extent)),
        Remark::Gone(_) => Some(Filed::Gone),
        Remark::Loaded(_, _, _, index) => Some(Filed::Loaded(*index)),
        _ => None,
    }
}

/// The operation that this is, on any file.
pub fn op_of(op: &DiskOp) -> Op {
    match op {
        DiskOp::Draft(file) => Op::Draft(file.as_slice().len() as u64),
        DiskOp::SyncDraft => Op::SyncDraft,
        DiskOp::Publish(_) => Op::Publish,
        DiskOp::Write(_, at, bytes) => Op::Write(*at, bytes.as_slice().len() as u64),
        DiskOp::Sync(_) => Op::Sync,
        DiskOp::Remove(_) => Op::Remove,
    }
}
