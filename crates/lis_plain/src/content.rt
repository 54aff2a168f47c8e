//! The bytes of files, and the blocks that they take.

ghost use Rattle.std.specs.Prelude.{◌≡◌, ◌-◌, ◌++◌, map, sum, length, OnOk, IfOk};
ghost use Rattle.lis_model.specs.State.{File, blocks_taken};
ghost use Rattle.lis_model.specs.Replies.{content_lines, ok_line, number_line};
ghost use Rattle.lis_model.specs.Changes.{file_of};

use crate::file::File;
use itoa::Buffer;
use lis_model::limits::blocks_taken;
use lis_words::Name;
use std::alloc::{AllocError, Global};

/// How many blocks no file takes; 0 if the files take more than there are.
pub fn free_blocks(version: u32, blocks: u32, files: &[File]) -> u64
    ensures { result ≡ blocks - sum (map (λ (file : File). blocks_taken version (length file.bytes)) files.now) }
{
    let mut free = u64::from(blocks);
    for file in files {
        free = free.saturating_sub(blocks_taken(version, file.bytes.len() as u64));
    }
    free
}

/// The bytes of the file of that name; none if there is no such file.
pub fn bytes_of<'a>(files: &'a [File], name: &Name) -> &'a [u8]
    ensures { result.now ≡ (file_of files.now name.now).bytes }
{
    for file in files {
        if file.name == *name {
            return file.bytes.as_slice();
        }
    }
    &[]
}

/// The reply that shows these bytes.
pub fn content_reply(alloc: Global, bytes: &[u8]) -> Result<Vec<u8>, AllocError>
    ensures { IfOk result (λ reply. reply.items ≡ content_lines bytes.now ++ ok_line) }
{
    let mut buffer = Buffer::new();
    let mut reply = Vec::new(alloc);
    reply.extend_from_slice(b"b ")?;
    reply.extend_from_slice(buffer.format(bytes.len()).as_bytes())?;
    reply.push(b'\n')?;
    reply.extend_from_slice(bytes)?;
    reply.extend_from_slice(b"\nok\n")?;
    Ok(reply)
}

/// Appends a line of a label and a number to the reply.
pub fn push_number(reply: &mut Vec<u8>, label: &[u8], number: u64) -> Result<(), AllocError>
    ensures { OnOk result (reply.new.items ≡ reply.old.items ++ number_line label.now number) }
{
    let mut buffer = Buffer::new();
    reply.extend_from_slice(label)?;
    reply.push(b' ')?;
    reply.extend_from_slice(buffer.format(number).as_bytes())?;
    reply.push(b'\n')?;
    Ok(())
}
