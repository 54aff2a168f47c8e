//! A part of a file: those of its lines of which a formula holds, shown and put back.

ghost use Rattle.std.specs.Prelude.{◌≡◌, ◌<◌, length, map, IsTrue, IfOk};
ghost use Rattle.std.specs.String.{string_bytes};
ghost use Rattle.lis_words.specs.Words.{is_file_name};
ghost use Rattle.lis_session.specs.Session.{root_of};
ghost use Rattle.lis_parts.specs.Commands.{view, put};
ghost use Rattle.lis_shell.specs.Words.{name_in, text_in};
ghost use Rattle.lis_shell.specs.Steps.{step_none, viewing, putting};

use crate::image::{ImageWork, halted};
use lis_line::carrier::Halt;
use lis_parts::{Workspace, put_file, view_file};
use lis_ports::{Source, Station};
use lis_session::end::End;
use lis_store::Store;
use lis_words::{Name, read_name};
use std::alloc::{AllocError, Global};

/// The name of a file, and the text of a formula.
#[derive(Drop)]
pub struct Part<'a> {
    pub name: Name,
    pub text: &'a [u8],
}

/// The file name and the formula in the words after an image.
pub fn part_in(words: &[String]) -> Part<'_>
    requires words { 3 < length words.now }
    requires name { IsTrue (is_file_name (name_in (map string_bytes words.now))) }
    ensures name { result.name ≡ name_in (map string_bytes words.now) }
    ensures text { result.text.now ≡ text_in (map string_bytes words.now) }
{
    let Some(name) = read_name(words[2].as_bytes()) else {
        unreachable!()
    };
    Part {
        name,
        text: words[3].as_bytes(),
    }
}

/// The memory for parts of the files of the store. If memory runs out the store is dropped.
fn open_workspace(alloc: Global, store: Store) -> Result<(Store, Workspace), AllocError>
    ensures { IfOk result (λ opened. (opened.0 ≡ store) × (opened.1 ≡ store.metadata.limits)) }
{
    match Workspace::new(alloc, &store.limits()) {
        Ok(workspace) => Ok((store, workspace)),
        Err(refused) => {
            store.close();
            Err(refused)
        }
    }
}

/// `view`: the lines of a file of which a formula holds. It takes no input.
#[derive(Drop)]
pub struct Viewing<'a>(pub Part<'a>);

impl ImageWork for Viewing<'_> {
    ghost says = { λ work. viewing work.0.name work.0.text.now };

    ghost quiet = { λ work state bytes image stands. step_none state (view (root_of state) work.0.name work.0.text.now) image stands };

    fn carry_on<S: Source, T: Station>(
        &self,
        alloc: Global,
        store: Store,
        _input: &mut S,
        station: &mut T,
    ) -> Result<Halt<End>, AllocError> {
        let (store, mut workspace) = open_workspace(alloc, store)?;
        let done = view_file(&store, &mut workspace, station, &self.0.name, self.0.text);
        store.close();
        Ok(halted(done))
    }
}

/// `put`: the new bytes of a file from an edited view of it, which is the input.
#[derive(Drop)]
pub struct Putting<'a>(pub Part<'a>);

impl ImageWork for Putting<'_> {
    ghost says = { λ work. putting work.0.name work.0.text.now };

    ghost quiet = { λ work state bytes image stands. step_none state (put (root_of state) work.0.name work.0.text.now bytes) image stands };

    fn carry_on<S: Source, T: Station>(
        &self,
        alloc: Global,
        store: Store,
        input: &mut S,
        station: &mut T,
    ) -> Result<Halt<End>, AllocError> {
        let (mut store, mut workspace) = open_workspace(alloc, store)?;
        let halt = put_file(
            &mut store,
            &mut workspace,
            input,
            station,
            &self.0.name,
            self.0.text,
        );
        store.close();
        Ok(halt)
    }
}
