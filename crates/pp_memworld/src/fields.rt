// The fields of an ask, while a page answers it (RFC 2616, section 4.2).
use http_header::{
    HeaderMap, HeaderMapError, HeaderName, HeaderNameError, HeaderValue, HeaderValueError,
};
use pp_text::OutOfMemory;
use std::alloc::Global;

/// The fields of this head, behind its first line. What is no field is passed over.
pub(crate) fn fields_of(alloc: Global, head: &[u8]) -> Result<HeaderMap, OutOfMemory> {
    let mut fields = HeaderMap::new(alloc);
    for line in head.split(|b| *b == b'\n').skip(1) {
        if let Some(colon) = line.iter().position(|b| *b == b':') {
            let value = line[colon + 1..].trim_ascii();
            put(alloc, &mut fields, &line[..colon], value)?;
        }
    }
    Ok(fields)
}

fn put(
    alloc: Global,
    fields: &mut HeaderMap,
    name: &[u8],
    value: &[u8],
) -> Result<(), OutOfMemory> {
    let name = match HeaderName::from_bytes(alloc, name) {
        Ok(name) => name,
        Err(HeaderNameError::Invalid) => return Ok(()),
        Err(HeaderNameError::OutOfMemory) => return Err(OutOfMemory),
    };
    let value = match HeaderValue::from_bytes(alloc, value) {
        Ok(value) => value,
        Err(HeaderValueError::Invalid) => return Ok(()),
        Err(HeaderValueError::OutOfMemory) => return Err(OutOfMemory),
    };
    match fields.append(name, value) {
        Ok(_) | Err(HeaderMapError::MaxSizeReached) => Ok(()),
        Err(HeaderMapError::OutOfMemory) => Err(OutOfMemory),
    }
}

/// The value of the first field of this name.
pub(crate) fn field<'a>(fields: &'a HeaderMap, name: &str) -> Option<&'a [u8]> {
    Some(fields.get(name)?.as_bytes())
}
