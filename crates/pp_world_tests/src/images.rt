// The files of a folder: a finite map, in the order of names.
use pp_text::{Octets, OutOfMemory};
use pp_world::{Image, Name};
use std::alloc::Global;

fn name_of(last: u8) -> Name {
    let mut name = [b'0'; 32];
    name[31] = last;
    name
}

/// Files that are put into an image, one behind the other.
const PUT: &[(u8, &[u8])] = &[(b'c', b"3"), (b'a', b"1"), (b'b', b"2"), (b'a', b"4")];

const FILES: &[(u8, Option<&[u8]>)] = &[
    (b'a', Some(b"4")),
    (b'b', Some(b"2")),
    (b'c', Some(b"3")),
    (b'd', None),
    (b'A', None),
];

/// The name behind another, or the first.
const STEPS: &[(Option<u8>, Option<u8>)] = &[
    (None, Some(b'a')),
    (Some(b'A'), Some(b'a')),
    (Some(b'a'), Some(b'b')),
    (Some(b'b'), Some(b'c')),
    (Some(b'c'), None),
    (Some(b'z'), None),
];

fn image_of(alloc: Global, files: &[(u8, &[u8])]) -> Result<Image, OutOfMemory> {
    let mut image = Image::new(alloc);
    for (name, bytes) in files {
        image.put(name_of(*name), Octets::copy(alloc, bytes)?)?;
    }
    Ok(image)
}

fn has_files(image: &Image, files: &[(u8, Option<&[u8]>)]) -> bool {
    for (name, wanted) in files {
        if !is_file(image, *name, *wanted) {
            return false;
        }
    }
    true
}

fn is_file(image: &Image, name: u8, wanted: Option<&[u8]>) -> bool {
    match (image.get(&name_of(name)), wanted) {
        (Some(file), Some(bytes)) => file.as_slice() == bytes,
        (None, None) => true,
        (Some(_), None) | (None, Some(_)) => false,
    }
}

fn goes_so(image: &Image, steps: &[(Option<u8>, Option<u8>)]) -> bool {
    for (after, wanted) in steps {
        if next_of(image, *after) != *wanted {
            return false;
        }
    }
    true
}

fn next_of(image: &Image, after: Option<u8>) -> Option<u8> {
    let next = match after {
        Some(name) => image.next_name(Some(&name_of(name)))?,
        None => image.next_name(None)?,
    };
    Some(next[31])
}

fn is_map(alloc: Global) -> Result<bool, OutOfMemory> {
    let image = image_of(alloc, PUT)?;
    Ok(has_files(&image, FILES) && goes_so(&image, STEPS))
}

#[test]
fn an_image_is_a_finite_map_in_the_order_of_names(rt: HostRuntime) {
    assert!(rt; Image::new(rt.alloc()).next_name(None).is_none());
    assert_eq!(rt; is_map(rt.alloc()), Ok(true));
}
