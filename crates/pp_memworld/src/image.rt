// The files that a life woke to, one after another.
ghost use Rattle.std.specs.Prelude.{◌≡◌, filter, map, IfOk, OnErr, OnOk};
ghost use Rattle.std.specs.Option.{option_copied, option_map};
ghost use Rattle.pp_world.specs.Files.{is_above, with_file};
ghost use Rattle.pp_memworld.specs.Images.{first_file};
ghost use Rattle.pp_memworld.specs.Slots.{AreListed, rested};

use crate::file::File;
use crate::slot::Slot;
use crate::slots::{Slots, put};
use pp_text::{Octets, OutOfMemory};
use pp_world::{Image, Name};
use std::alloc::Global;
use std::collections::BTreeMap;

/// Sets the file of one name, in a folder that lists its names in order.
pub fn put_file(image: &mut Image, name: Name, file: Octets) -> Result<(), OutOfMemory>
    requires listed { AreListed image.old }
    ensures ok { OnOk result (image.new ≡ with_file name file image.old) }
    ensures err { OnErr result (image.new ≡ image.old) }
    ensures listed { AreListed image.new }
{
    image.put(name, file)
}

/// The first file with a name above `after`, or the first of all without one.
fn next_file<'a>(image: &'a Image, after: Option<&Name>) -> Option<(&'a Name, &'a Octets)>
    requires { AreListed image.now }
    ensures { option_map (λ file. (file.0.now, file.1.now)) result ≡ first_file (filter (λ file. is_above (option_copied after.entry) file.0) image.now) }
{
    let name = image.next_name(after)?;
    let file = image.get(name)?;
    Some((name, file))
}

/// The same files.
pub(crate) fn copy_of(alloc: Global, image: &Image) -> Result<Image, OutOfMemory>
    requires { AreListed image.now }
    ensures { IfOk result (λ copy. copy ≡ image.now) }
{
    let mut copy = Image::new(alloc);
    let mut after: Option<Name> = None;
    while let Some((name, file)) = next_file(image, after.as_ref()) {
        copy.put(*name, Octets::copy(alloc, file.as_slice())?)?;
        after = Some(*name);
    }
    Ok(copy)
}

/// The files at rest, by name.
pub(crate) fn rest(alloc: Global, image: &Image) -> Result<Slots, OutOfMemory>
    requires { AreListed image.now }
    ensures { IfOk result (λ slots. slots.entries ≡ map rested image.now) }
{
    let mut slots = BTreeMap::new(alloc);
    let mut after: Option<Name> = None;
    while let Some((name, file)) = next_file(image, after.as_ref()) {
        let file = File::settled(alloc, file.as_slice())?;
        let slot = Slot::of(alloc, Some(file));
        put(&mut slots, name, slot)?;
        after = Some(*name);
    }
    Ok(slots)
}
