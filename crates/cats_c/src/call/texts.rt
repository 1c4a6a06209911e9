//! The texts of a caller, as the place in which the program opens its files.

ghost use Rattle.std.specs.Prelude.{◌≡◌, IfSome};
ghost use Rattle.std.specs.Str.{bytes_eq};
ghost use Rattle.cats_c.specs.Calls.{IsNumberOf, name_or};

use crate::call::CallText;
use cats_cmd::source::{Source, Way};
use commands::faults::{Unopened, Unwritten};
use itoa::Buffer;
use std::alloc::{Alloc, AllocError, Global};

/// The texts, of which those before `next` were opened or passed over. So texts of one name are opened in their order.
#[derive(Drop)]
pub(crate) struct Texts<'b, 'a> {
    texts: &'b [CallText<'a>],
    next: usize,
    alloc: Global,
}

impl<'b, 'a> Texts<'b, 'a> {
    /// Texts of which none was opened.
    pub(crate) fn new(alloc: Global, texts: &'b [CallText<'a>]) -> Texts<'b, 'a>
        ensures { result.texts.now ≡ texts.now }
    {
        Texts {
            texts,
            next: 0,
            alloc,
        }
    }
}

impl<'b, 'a> Source for Texts<'b, 'a> {
    ghost use Rattle.std.specs.Prelude.{◌≡◌, List, None};
    ghost use Rattle.cats_c.specs.Calls.{IsTextAt};
    ghost use Rattle.cats_c.specs.declared.call.CallText.{CallText};
    ghost use Rattle.commands.specs.declared.faults.Unopened.TheVariants.{NoSuchFile};

    type Stream = &'a [u8];

    ghost Content = { List CallText };

    ghost content_of = { λ source. source.texts.now };

    ghost may_open = { IsTextAt };

    ghost may_refuse = { λ texts path why. why ≡ NoSuchFile };

    ghost may_find = { λ texts path found. found ≡ None };

    ghost opened = { λ source. None };

    ghost may_not_write = { λ texts path why. Unit {0} };

    ghost texts = { λ source. None };

    fn open(&mut self, path: &str, _way: Way) -> Result<&'a [u8], Unopened> {
        let Some(number) = find_from(self.texts, self.next, path.as_bytes()) else {
            return Err(Unopened::NoSuchFile);
        };
        self.next = number + 1;
        Ok(self.texts[number].bytes)
    }

    fn find(&self, _alloc: Global, _path: &str) -> Result<Option<Vec<Vec<u8>>>, AllocError> {
        Ok(None)
    }

    /// Nothing is written.
    fn make_folder(&mut self, _folder: &str) -> Result<(), Unwritten> {
        Err(Unwritten::Other)
    }

    fn is_taken(&self, _alloc: Global, _folder: &str, _path: &str) -> Result<bool, AllocError> {
        Ok(false)
    }

    fn write_new(
        &mut self,
        _alloc: Global,
        _folder: &str,
        _path: &str,
        _text: &[u8],
    ) -> Result<Result<(), Unwritten>, AllocError> {
        Ok(Err(Unwritten::Other))
    }
}

impl Alloc for Texts<'_, '_> {
    type A = Global;

    fn alloc(&self) -> Global {
        self.alloc
    }
}

/// The first text of a name, of those from a number on.
fn find_from(texts: &[CallText<'_>], next: usize, name: &[u8]) -> Option<usize>
    ensures { IfSome result (IsNumberOf texts.now name.now) }
{
    for number in next..texts.len() {
        if is_named(&texts[number], number + 1, name) {
            return Some(number);
        }
    }
    None
}

/// Whether the text of this number has this name.
fn is_named(text: &CallText<'_>, number: usize, name: &[u8]) -> bool
    ensures { result ≡ bytes_eq name.now (name_or text.now.name.now number) }
{
    if text.name.is_empty() {
        name == Buffer::new().format(number).as_bytes()
    } else {
        name == text.name
    }
}
