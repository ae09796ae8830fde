// Courses: what is done with a client, and what is to come of each act.
use crate::cache::Cache;
use crate::parts::{Part, written};
use crate::pipelined::{Pieces, are_answered};
use crate::talk::{Reply, Talk};
use pp_text::OutOfMemory;
use std::alloc::Global;

/// What is done with a client and a cache, and what is to come of it.
pub enum Act<'a> {
    /// Another client takes the place of the one before.
    Anew,
    /// The client sends these bytes.
    Hear(&'a [u8]),
    /// It sends them so many times.
    HearTimes(usize, &'a [u8]),
    /// For how many more bytes there is room.
    Room(usize),
    /// A request for this target is current, whose framing is not refused.
    At(&'a [u8]),
    /// The status of a refusal, 200 at a request, 1 where the head is to come, and 0 where nothing was heard.
    Status(u16),
    /// The bytes of its body that are lent.
    Body(&'a [u8]),
    /// How many these are.
    BodyLen(usize),
    TakeBody(usize),
    DropBody,
    /// Of so many pieces of a body so many bytes are taken in all.
    Stream(u32, u64),
    /// Thirty requests that come in these pieces are answered in their order, and nothing is left.
    Pipelined(Pieces<'a>),
    /// The same where they are cut in two at the number that is tried.
    PipelinedInTwo,
    /// The same where they come in pieces of as many bytes as is tried.
    PipelinedBy,
    /// A row of so many bytes, none of them in memory.
    Settle(u64),
    /// These bytes of it join at this offset.
    Join(u64, Part<'a>),
    Interim,
    /// The reply begins: its head, and what is behind it.
    Begin(&'a [u8], Reply),
    HasBegun(bool),
    /// The offset of the row that is to be said next.
    Next(Option<u64>),
    /// The client takes at most so many bytes of what is at hand: how many it gets.
    Say(usize, usize),
    /// It takes all that is at hand, in pieces of so many bytes.
    SayAll(usize),
    /// In pieces of as many bytes as is tried.
    SayBy,
    /// What was said since this was last asked.
    Said(&'a [Part<'a>]),
    /// A page is the whole reply, and said.
    Answer,
    /// The pipe starts, in the chunked coding or not.
    Pass(bool),
    Put(Part<'a>),
    Finish,
    /// The client takes no byte.
    TakeNone,
}

/// One course of acts, with a client and a cache of its own.
pub struct Course<'a> {
    pub name: &'a str,
    pub acts: &'a [Act<'a>],
}

/// Acts that are played for each number of a range, behind others.
pub struct Trial<'a> {
    pub name: &'a str,
    /// The first number, and the one behind the last.
    pub from: usize,
    pub to: usize,
    pub before: &'a [Act<'a>],
    pub acts: &'a [Act<'a>],
}

/// Where these courses go otherwise than wanted: nothing is said where none does.
pub fn unlike(alloc: Global, courses: &[Course<'_>]) -> Result<String, OutOfMemory> {
    for course in courses {
        let mut scene = Scene::new(alloc)?;
        if let Some(place) = scene.first_unlike(course.acts)? {
            return Ok(format!(in alloc; "{}: act {place}", course.name)?);
        }
    }
    Ok(String::new(alloc))
}

/// The same of trials.
pub fn unlike_in_trials(alloc: Global, trials: &[Trial<'_>]) -> Result<String, OutOfMemory> {
    for trial in trials {
        if let Some((number, place)) = first_trial_unlike(alloc, trial)? {
            return Ok(format!(in alloc; "{}: at {number}, act {place}", trial.name)?);
        }
    }
    Ok(String::new(alloc))
}

/// The number and the act at which this trial goes otherwise. The acts before it are told as those of number 0.
fn first_trial_unlike(
    alloc: Global,
    trial: &Trial<'_>,
) -> Result<Option<(usize, usize)>, OutOfMemory> {
    let mut scene = Scene::new(alloc)?;
    if let Some(place) = scene.first_unlike(trial.before)? {
        return Ok(Some((0, place)));
    }
    for number in trial.from..trial.to {
        scene.number = number;
        if let Some(place) = scene.first_unlike(trial.acts)? {
            return Ok(Some((number, place)));
        }
    }
    Ok(None)
}

/// A client, a cache, and the number that is tried.
#[derive(Drop)]
struct Scene {
    alloc: Global,
    cache: Cache,
    talk: Talk,
    number: usize,
}

impl Scene {
    fn new(alloc: Global) -> Result<Scene, OutOfMemory> {
        Ok(Scene {
            alloc,
            cache: Cache::new(alloc)?,
            talk: Talk::new(alloc)?,
            number: 0,
        })
    }

    fn first_unlike(&mut self, acts: &[Act<'_>]) -> Result<Option<usize>, OutOfMemory> {
        for (place, act) in acts.iter().enumerate() {
            if !self.is_met(act)? {
                return Ok(Some(place));
            }
        }
        Ok(None)
    }

    /// Whether what is wanted comes of this act.
    fn is_met(&mut self, act: &Act<'_>) -> Result<bool, OutOfMemory> {
        match act {
            Act::Anew => Ok(self.talk.renew(self.alloc)),
            Act::Settle(length) => Ok(self.cache.settle(*length)),
            Act::Join(at, part) => self.joins(*at, *part),
            Act::Put(part) => self.puts(*part),
            Act::Said(parts) => self.has_said(parts),
            Act::PipelinedInTwo => Ok(self.is_answered(Pieces::Two(self.number))),
            Act::PipelinedBy => Ok(self.is_answered(Pieces::Sizes(&[self.number]))),
            Act::Pipelined(pieces) => Ok(self.is_answered(*pieces)),
            Act::Hear(bytes) => Ok(self.talk.hear(bytes)),
            Act::HearTimes(times, bytes) => Ok(self.talk.hear_times(*times, bytes)),
            Act::Room(room) => Ok(self.talk.room() == *room),
            Act::At(target) => Ok(self.talk.is_at(target)),
            Act::Status(status) => Ok(self.talk.status() == *status),
            Act::Body(bytes) => Ok(self.talk.body() == *bytes),
            Act::BodyLen(len) => Ok(self.talk.body().len() == *len),
            Act::TakeBody(n) => Ok(self.talk.take_body(*n)),
            Act::DropBody => Ok(self.talk.drop_body()),
            Act::Stream(pieces, taken) => Ok(self.talk.stream(*pieces) == Some(*taken)),
            Act::Interim => Ok(self.talk.interim()),
            Act::Begin(head, reply) => Ok(self.talk.begin(&self.cache, head, *reply)),
            Act::HasBegun(has_begun) => Ok(self.talk.has_begun() == *has_begun),
            Act::Next(next) => Ok(self.talk.is_next(&self.cache, *next)),
            Act::Say(most, n) => Ok(self.talk.say(&self.cache, *most) == Some(*n)),
            Act::SayAll(most) => Ok(self.talk.say_all(&self.cache, *most)),
            Act::SayBy => Ok(self.talk.say_all(&self.cache, self.number)),
            Act::Answer => Ok(self.talk.answer(&self.cache)),
            Act::Pass(is_chunked) => Ok(self.talk.pass(*is_chunked)),
            Act::Finish => Ok(self.talk.finish()),
            Act::TakeNone => Ok(self.talk.take_none()),
        }
    }

    fn joins(&mut self, at: u64, part: Part<'_>) -> Result<bool, OutOfMemory> {
        let bytes = written(self.alloc, &[part])?;
        Ok(self.cache.join(at, bytes.as_slice()))
    }

    fn puts(&mut self, part: Part<'_>) -> Result<bool, OutOfMemory> {
        let bytes = written(self.alloc, &[part])?;
        Ok(self.talk.put(bytes.as_slice()))
    }

    fn has_said(&mut self, parts: &[Part<'_>]) -> Result<bool, OutOfMemory> {
        let wanted = written(self.alloc, parts)?;
        Ok(self.talk.has_said(wanted.as_slice()))
    }

    fn is_answered(&mut self, pieces: Pieces<'_>) -> bool {
        are_answered(&mut self.talk, &self.cache, pieces)
    }
}
