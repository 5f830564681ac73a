//! The real files that are open to be read: one for each name, whoever reads it.

use std::alloc::{AllocError, Global};
use std::collections::BTreeMap;
use std::fs;
use std::fs::{Metadata, OpenFile};
use std::os::unix::fs::MetadataExt;
use std::rt::Files;
use std::sync::Arc;

/// A regular file that is open, with the length that was found last.
#[derive(Drop)]
pub(crate) struct Input<F> {
    file: Arc<F, Global>,
    // what tells it from each other file
    device: u64,
    number: u64,
    size: u64,
}

/// By names.
pub(crate) type Inputs<F> = BTreeMap<String, Input<F>>;

impl<F: Drop> Input<F> {
    // Whether this is what is told of the file. What tells no number is taken as another file.
    fn is(&self, there: &Metadata) -> bool {
        there.ino() > 0 && there.ino() == self.number && there.dev() == self.device
    }
}

// What has the name, where that is a regular file.
fn regular<R: Files>(rt: &R, name: &str) -> Option<Metadata> {
    match fs::metadata(rt, name) {
        Ok(there) if there.is_file() => Some(there),
        _ => None,
    }
}

// Opens what has the name, where that is a regular file. Nothing else is opened: a pipe has no length, and its opening waits.
fn open_input<R: Files>(
    alloc: Global,
    rt: &R,
    name: &str,
) -> Result<Option<Input<R::File>>, AllocError> {
    let Ok(file) = fs::open(rt, name) else {
        return Ok(None);
    };
    match file.metadata() {
        Ok(there) if there.is_file() => Ok(Some(Input {
            file: Arc::new(alloc, file)?,
            device: there.dev(),
            number: there.ino(),
            size: there.len(),
        })),
        _ => Ok(None),
    }
}

/// Has the file of this name open: the one that is open already, where it still has the name. Where the name has no
/// regular file that can be read, nothing is open under it.
pub(crate) fn have_input<R: Files>(
    inputs: &mut Inputs<R::File>,
    alloc: Global,
    rt: &R,
    name: &str,
) -> Result<(), AllocError> {
    let Some(there) = regular(rt, name) else {
        inputs.remove(name);
        return Ok(());
    };
    if let Some(input) = inputs.get_mut(name) {
        if input.is(&there) {
            input.size = there.len();
            return Ok(());
        }
    }
    let key = String::from_str(alloc, name)?;
    match open_input(alloc, rt, name)? {
        Some(input) => inputs.insert(key, input)?,
        None => inputs.remove(name),
    };
    Ok(())
}

/// Has the files of these names open, each that can be read.
pub(crate) fn have_inputs<R: Files>(
    inputs: &mut Inputs<R::File>,
    alloc: Global,
    rt: &R,
    names: &[String],
) -> Result<(), AllocError> {
    for name in names {
        have_input(inputs, alloc, rt, name.as_str())?;
    }
    Ok(())
}

/// The file that is open under this name, with its length.
pub(crate) fn find_input<F: Drop>(inputs: &Inputs<F>, name: &str) -> Option<(Arc<F, Global>, u64)> {
    let input = inputs.get(name)?;
    let file = Arc::try_clone(&input.file).ok()?;
    Some((file, input.size))
}
