// What the files in memory do to lists of files.
ghost use Rattle.std.specs.Prelude.{◌≡◌, IfOk, min, length, option_map, take};
ghost use Rattle.std.specs.Option.{option_copied};
ghost use Rattle.ci_files.specs.Files.{file_at};

use ci_base::{OutOfMemory, Text, Text8};
use std::alloc::Global;

/// The bytes of the first file of this path.
pub(crate) fn find_file<'a>(files: &'a [(Text, Text8)], path: &str) -> Option<&'a Text8>
    ensures { option_copied result ≡ file_at files.now path.now }
{
    for file in files {
        if file.0.as_str() == path {
            return Some(&file.1);
        }
    }
    None
}

/// A copy of the first bytes, `max` at most.
pub(crate) fn copy_front(alloc: Global, bytes: &[u8], max: usize) -> Result<Text8, OutOfMemory>
    ensures { IfOk result (λ front. front ≡ take max bytes.now) }
{
    let count = bytes.len().min(max);
    Text8::of(alloc, &bytes[..count])
}

/// Another list of the same files.
pub(crate) fn copy_files(
    alloc: Global,
    files: &[(Text, Text8)],
) -> Result<Vec<(Text, Text8)>, OutOfMemory>
    ensures { IfOk result (λ copied. copied.items ≡ files.now) }
{
    let mut copied = Vec::new(alloc);
    for file in files {
        let path = file.0.copy(alloc)?;
        let bytes = file.1.copy(alloc)?;
        copied.push((path, bytes))?;
    }
    Ok(copied)
}
