// A log again, happening by happening.
ghost use Rattle.std.specs.Prelude.{◌≡◌, ◌++◌, ◌∷◌, [], IsTrue, IfOk, OnOk};
ghost use Rattle.std.specs.List.{list_all};
ghost use Rattle.pp_memworld.specs.Folder.{is_sound};

use crate::image;
use crate::telling::copy_both;
use pp_text::{Octets, OutOfMemory};
use pp_world::{DiskOp, Happening, Remark};
use std::alloc::{AllocError, Global};

/// The same log.
pub(crate) fn log_again(alloc: Global, log: &[Happening]) -> Result<Vec<Happening>, OutOfMemory>
    requires { IsTrue (list_all is_sound log.now) }
    ensures { IfOk result (λ l. l.items ≡ log.now) }
{
    let mut copied = Vec::new(alloc);
    for happening in log {
        push(&mut copied, happening_again(alloc, happening)?)?;
    }
    Ok(copied)
}

fn push(log: &mut Vec<Happening>, happening: Happening) -> Result<(), OutOfMemory>
    ensures { OnOk result (log.new.items ≡ log.old.items ++ happening ∷ []) }
{
    log.push(happening).map_err(AllocError::from)?;
    Ok(())
}

fn happening_again(alloc: Global, happening: &Happening) -> Result<Happening, OutOfMemory>
    requires { IsTrue (is_sound happening.now) }
    ensures { IfOk result (λ h. h ≡ happening.now) }
{
    Ok(match happening {
        Happening::Woke(files) => Happening::Woke(image::copy_of(alloc, files)?),
        Happening::Waits(wants) => Happening::Waits(wants.copy()),
        Happening::Clock(seconds) => Happening::Clock(*seconds),
        Happening::Opened(id) => Happening::Opened(*id),
        Happening::CanRead(id) => Happening::CanRead(*id),
        Happening::CanWrite(id) => Happening::CanWrite(*id),
        Happening::Heard(id, bytes) => Happening::Heard(*id, again(alloc, bytes)?),
        Happening::HungUp(id) => Happening::HungUp(*id),
        Happening::Said(id, offered, bytes) => {
            Happening::Said(*id, *offered, again(alloc, bytes)?)
        }
        Happening::Shut(id) => Happening::Shut(*id),
        Happening::Dialled(id, host, port) => {
            Happening::Dialled(*id, again(alloc, host)?, *port)
        }
        Happening::Undialled(host, port) => Happening::Undialled(again(alloc, host)?, *port),
        Happening::Reached(id) => Happening::Reached(*id),
        Happening::Ended(id) => Happening::Ended(*id),
        Happening::Broke(id) => Happening::Broke(*id),
        Happening::Asked(id, bytes) => Happening::Asked(*id, again(alloc, bytes)?),
        Happening::Got(id, bytes) => Happening::Got(*id, again(alloc, bytes)?),
        Happening::Dropped(id) => Happening::Dropped(*id),
        Happening::NoneYet(id) => Happening::NoneYet(*id),
        Happening::Began(op) => Happening::Began(op_again(alloc, op)?),
        Happening::Did(op, is_done) => Happening::Did(op_again(alloc, op)?, *is_done),
        Happening::Unread(name) => Happening::Unread(*name),
        Happening::Noted(remark) => Happening::Noted(remark_again(alloc, remark)?),
        Happening::Rooted(folder) => Happening::Rooted(again(alloc, folder)?),
        Happening::Listed(is_listed) => Happening::Listed(*is_listed),
        Happening::Listens(port, is_listening) => Happening::Listens(*port, *is_listening),
        Happening::Configured(name, text) => {
            Happening::Configured(again(alloc, name)?, text_again(alloc, text)?)
        }
        Happening::Printed(bytes) => Happening::Printed(again(alloc, bytes)?),
        Happening::Stopped => Happening::Stopped,
    })
}

fn again(alloc: Global, bytes: &Octets) -> Result<Octets, OutOfMemory>
    ensures { IfOk result (λ o. o ≡ bytes.now) }
{
    Octets::copy(alloc, bytes.as_slice())
}

fn text_again(alloc: Global, text: &Option<Octets>) -> Result<Option<Octets>, OutOfMemory>
    ensures { IfOk result (λ t. t ≡ text.now) }
{
    match text {
        Some(bytes) => Ok(Some(again(alloc, bytes)?)),
        None => Ok(None),
    }
}

fn op_again(alloc: Global, op: &DiskOp) -> Result<DiskOp, OutOfMemory>
    ensures { IfOk result (λ o. o ≡ op.now) }
{
    Ok(match op {
        DiskOp::Draft(bytes) => DiskOp::Draft(again(alloc, bytes)?),
        DiskOp::SyncDraft => DiskOp::SyncDraft,
        DiskOp::Publish(name) => DiskOp::Publish(*name),
        DiskOp::Write(name, at, bytes) => DiskOp::Write(*name, *at, again(alloc, bytes)?),
        DiskOp::Sync(name) => DiskOp::Sync(*name),
        DiskOp::Remove(name) => DiskOp::Remove(*name),
    })
}

fn remark_again(alloc: Global, remark: &Remark) -> Result<Remark, OutOfMemory>
    ensures { IfOk result (λ r. r ≡ remark.now) }
{
    Ok(match remark {
        Remark::Taken(client, request, decision) => Remark::Taken(*client, *request, *decision),
        Remark::Cut(client, cause) => Remark::Cut(*client, *cause),
        Remark::Kept(key, tag, len, extent) => {
            let (key, tag) = copy_both(alloc, key.as_slice(), tag.as_slice())?;
            Remark::Kept(key, tag, *len, *extent)
        }
        Remark::Gone(key) => Remark::Gone(again(alloc, key)?),
        Remark::Forgotten(key) => Remark::Forgotten(again(alloc, key)?),
        Remark::Evicted(key, tag, len, chunk) => {
            let (key, tag) = copy_both(alloc, key.as_slice(), tag.as_slice())?;
            Remark::Evicted(key, tag, *len, *chunk)
        }
        Remark::Loaded(key, tag, len, chunk) => {
            let (key, tag) = copy_both(alloc, key.as_slice(), tag.as_slice())?;
            Remark::Loaded(key, tag, *len, *chunk)
        }
    })
}
