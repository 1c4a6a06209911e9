//! Files in memory, with a list of what was opened, and the program on them. Its contract says what it does there for a
//! command line, and what it opens.

ghost use Rattle.std.specs.Borrow.{Bor};
ghost use Rattle.std.specs.List.{Any, list_any};
ghost use Rattle.std.specs.Str.{bytes_eq};
ghost use Rattle.commands.specs.declared.faults.Unwritten.TheVariants.{Exists};
ghost use Rattle.std.specs.Prelude.{◌≡◌, ◌⊎◌, ℕ, IfErr, IfOk, List, [], ◌∷◌, None, Some, codes, false, map};
ghost use Rattle.cats_text.specs.Streams.{has_failed};
ghost use Rattle.commands.specs.declared.faults.Unopened.{Unopened};
ghost use Rattle.commands.specs.declared.faults.Unopened.TheVariants.{NoSuchFile};

use super::each_command::words_of;
use super::opened::Openings;
use super::streams::{RunAnswer, StepWriter, expect, text_taken, writer};
use cats_cmd::program::{Process, run_program};
use cats_cmd::source::{Source, Way, path_in};
use cats_text::Watched;
use commands::faults::{Unopened, Unwritten};
use std::alloc::{Alloc, AllocError, AllocGlobal, Global};
use std::process::Abort;
use std::test::Fail;

/// Files with their paths.
pub(super) type Files<'a> = &'a [(&'a str, &'a [u8])];

/// Files with their paths, paths that are refused, and what was opened: as contracts list it, and as tests read it, with a
/// line for each opening.
#[derive(Drop)]
pub(super) struct FilesInMemory<'a> {
    files: Files<'a>,
    refused: &'a [(&'a str, Unopened)],
    pub(super) openings: Openings,
    pub(super) lines: String,
    /// The texts that were written, each with its path.
    pub(super) texts: Vec<(Vec<u8>, Vec<u8>)>,
    alloc: Global,
}

impl<'a> FilesInMemory<'a> {
    pub(super) fn new(alloc: Global, files: Files<'a>) -> FilesInMemory<'a> {
        FilesInMemory {
            files,
            refused: REFUSED,
            openings: Openings::new(),
            lines: String::new(alloc),
            texts: Vec::new(alloc),
            alloc,
        }
    }

    /// The file at a path.
    fn find_file(&self, path: &str) -> Result<&'a [u8], Unopened>
        ensures found { IfOk result (λ stream. Any (λ f. (f.0.now ≡ path.now) × (f.1.now ≡ stream.now)) self.now.files.now) }
        ensures refused { IfErr result (λ why. Any (λ r. (r.0.now ≡ path.now) × (r.1 ≡ why)) self.now.refused.now
            ⊎ (why ≡ NoSuchFile)) }
    {
        for (name, why) in self.refused {
            if *name == path {
                return Err(*why);
            }
        }
        for (name, text) in self.files {
            if *name == path {
                return Ok(*text);
            }
        }
        Err(Unopened::NoSuchFile)
    }
}

impl<'a> Source for FilesInMemory<'a> {
    type Stream = &'a [u8];

    ghost Content = { List (Bor (List ℕ) × Bor (List ℕ)) × List (Bor (List ℕ) × Unopened) };

    ghost content_of = { λ source. (source.files.now, source.refused.now) };

    ghost may_open = { λ content path stream. Any (λ f. (f.0.now ≡ path) × (f.1.now ≡ stream.now)) content.0 };

    ghost may_refuse = { λ content path why. Any (λ r. (r.0.now ≡ path) × (r.1 ≡ why)) content.1 ⊎ (why ≡ NoSuchFile) };

    ghost may_find = { λ _ path found. (found ≡ None)
        ⊎ ((path ≡ codes "tree") × (found ≡ Some (codes "tree/one" ∷ []))) };

    ghost opened = { λ source. Some source.openings.list };

    ghost may_not_write = { λ _ _ why. why ≡ Exists };

    ghost texts = { λ source. Some (map (λ t. (t.0.items, t.1.items)) source.texts.items) };

    fn open(&mut self, path: &str, way: Way) -> Result<&'a [u8], Unopened> {
        self.openings.note(&[way], path.as_bytes());
        let _ = write!(self.lines, "{way:?} {path}\n");
        self.find_file(path)
    }

    /// One folder is there, with one file.
    fn find(&self, alloc: Global, path: &str) -> Result<Option<Vec<Vec<u8>>>, AllocError> {
        if path != "tree" {
            return Ok(None);
        }
        let file = Vec::from_slice(alloc, b"tree/one")?;
        let mut files = Vec::new(alloc);
        files.push(file)?;
        Ok(Some(files))
    }

    /// Any folder is there.
    fn make_folder(&mut self, _folder: &str) -> Result<(), Unwritten> {
        Ok(())
    }

    fn is_taken(&self, alloc: Global, folder: &str, path: &str) -> Result<bool, AllocError> {
        let path = path_in(alloc, folder.as_bytes(), path.as_bytes())?;
        Ok(has_text(self.texts.as_slice(), path.as_slice()))
    }

    fn write_new(
        &mut self,
        alloc: Global,
        folder: &str,
        path: &str,
        text: &[u8],
    ) -> Result<Result<(), Unwritten>, AllocError> {
        let path = path_in(alloc, folder.as_bytes(), path.as_bytes())?;
        if has_text(self.texts.as_slice(), path.as_slice()) {
            return Ok(Err(Unwritten::Exists));
        }
        let text = Vec::from_slice(alloc, text)?;
        self.texts.push((path, text))?;
        Ok(Ok(()))
    }
}

/// Whether a text was written at a path.
fn has_text(texts: &[(Vec<u8>, Vec<u8>)], path: &[u8]) -> bool
    ensures { result ≡ list_any (λ t. bytes_eq t.0.items path.now) texts.now }
{
    texts.iter().any(|text| text.0.as_slice() == path)
}

impl Alloc for FilesInMemory<'_> {
    type A = Global;

    fn alloc(&self) -> Global {
        self.alloc
    }
}

pub(super) static FILES: Files<'_> = rows! {
    ("one", b"goods 1\nbids 1\ndummy 0\n0 3 0 #\n"),
    ("same", b"goods 1\nbids 2\ndummy 0\n0 3 0 #\n1 2 0 #\n"),
    ("other", b"goods 1\nbids 1\ndummy 0\n0 4 0 #\n"),
    ("tree/one", b"goods 1\nbids 1\ndummy 0\n0 3 0 #\n"),
    ("bad", b"goods 1\n"),
    ("fine", b"goods 1\nbids 1\ndummy 0\n0 1e-7 0 #\n"),
    ("two-prices", b"goods 1\nbids 2\ndummy 0\n0 1e3 0 #\n1 2e1 0 x #\n"),
    ("great", b"goods 1\nbids 1\ndummy 0\n0 1e13 0 #\n"),
    ("sum", b"goods 2\nbids 3\ndummy 0\n0 3 0 #\n1 4 1 #\n2 7 0 1 #\n"),
    ("bidders", b"goods 2\nbids 4\ndummy 3\n0 1 0 2 #\n1 1 0 4 #\n2 2 1 4 #\n3 9 1 #\n"),
    // lists of bids
    ("bids", b"1\r\n0\t1\n"),
    ("words", b"1 0\nx\n"),
    // lists of paths
    ("list", b"one\0other\0same\0"),
    ("list-without-its-last-NUL", b"one\0other\0same"),
    ("empty-list", b""),
    ("list-with-a-path-twice", b"same\0other\0same\0"),
    ("list-with-an-empty-path", b"one\0\0same\0"),
    // names with LF, tab, escape, backslash, delete, U+E9, U+9B and U+202E, and in a list a byte that is no UTF-8
    ("a\nb", b"goods 1\nbids 1\ndummy 0\n0 3 0 #\n"),
    ("a\tb", b"goods 1\nbids 1\ndummy 0\n0 3 0 #\n"),
    ("\x1b[2J", b"goods 1\nbids 1\ndummy 0\n0 3 0 #\n"),
    ("a\\nb", b"goods 1\nbids 1\ndummy 0\n0 3 0 #\n"),
    ("\x7f", b"goods 1\nbids 1\ndummy 0\n0 3 0 #\n"),
    ("\u{e9}", b"goods 1\nbids 1\ndummy 0\n0 3 0 #\n"),
    ("\u{9b}2J", b"goods 1\nbids 1\ndummy 0\n0 3 0 #\n"),
    ("\u{202e}b", b"goods 1\nbids 1\ndummy 0\n0 3 0 #\n"),
    ("list-of-such-names", b"a\nb\0a\tb\0\x1b[2J\0a\\nb\0\x7f\0\xc3\xa9\0\xc2\x9b2J\0\xe2\x80\xaeb\0\x1bnone\0\xff\0"),
    ("\x1b", b"goods 1\nbids 1\ndummy 0\n0 0.5 0 \n"),
    ("list-of-refused-names", b"\x1b\0a\nc\\\0\xff\0one\0"),
    // the same auction in other files, and other auctions
    ("a", b"goods 2\nbids 3\ndummy 0\n0\t3\t0\t#\n1\t4\t1\t#\n2\t7\t0\t1\t#\n"),
    // another layout, and no dominated bid
    ("a2", b"% a\ngoods 2\nbids 2\ndummy 0\n\n1 3.0 0 #\n0 04 1 #\n"),
    // its bids in another order, and one of them twice
    ("a3", b"goods 2\nbids 3\ndummy 0\n0\t7\t0\t1\t#\n1\t4\t1\t#\n2\t3\t0\t#\n"),
    ("a4", b"goods 2\nbids 4\ndummy 0\n0\t4\t1\t#\n1\t3\t0\t#\n2\t4\t1\t#\n3\t7\t0\t1\t#\n"),
    ("b", b"goods 2\nbids 3\ndummy 2\n0\t1\t0\t2\t#\n1\t1\t0\t3\t#\n2\t2\t1\t3\t#\n"),
    // other dummy goods
    ("b2", b"goods 2\nbids 3\ndummy 3\n0\t2\t1\t2\t#\n1\t1\t0\t2\t#\n2\t1\t0\t4\t#\n"),
    ("c", b"goods 2\nbids 0\ndummy 0\n"),
    ("c2", b"goods 2\nbids 0\ndummy 7\n"),
    // a price, a good, a bidder and the number of goods changed
    ("price", b"goods 2\nbids 2\ndummy 0\n0\t3.5\t0\t#\n1\t4\t1\t#\n"),
    ("good", b"goods 2\nbids 2\ndummy 0\n0\t3\t0\t#\n1\t4\t0\t1\t#\n"),
    ("bidder", b"goods 2\nbids 2\ndummy 1\n0\t3\t0\t2\t#\n1\t4\t1\t#\n"),
    ("goods", b"goods 3\nbids 2\ndummy 0\n0\t3\t0\t#\n1\t4\t1\t#\n"),
    ("empty", b""),
};

static REFUSED: &[(&str, Unopened)] = rows! {
    ("folder", Unopened::IsFolder),
    ("fifo", Unopened::NotAFile),
    ("secret", Unopened::PermissionDenied),
    ("broken", Unopened::Other),
};

/// What the first line of a table of `sizes` has.
const SIZES: &str =
    "goods\tbids\tor_bids\txor_bidders\tdummies\tkept\tkept_or\tkept_xor\tfault\tfile";

/// A line behind `cats`, and what it answers: its status, its output, in which `@` means `SIZES`, and its faults' lines.
pub(super) type Row<'a> = (&'a str, u8, &'a str, &'a str);

/// That lines on these files answer what their rows say.
pub(super) fn judge_rows(
    rt: &(impl Abort + AllocGlobal),
    files: Files<'static>,
    rows: &[Row<'_>],
    terminal: bool,
) -> Result<(), Fail> {
    let alloc = rt.alloc();
    let mut source = FilesInMemory::new(alloc, files);
    for (line, status, sent, reported) in rows {
        let line = format!(in alloc; "cats {line}")?;
        let words = words_of(alloc, line.as_str(), "FILE", "OTHER")?;
        let out = writer(alloc, 4096, 4096);
        let answer = answer_on(&mut source, words.as_slice(), out, terminal)?;
        let sent = sent.replace(alloc, '@', SIZES)?;
        expect(rt, &answer, *status, sent.as_str(), reported);
    }
    Ok(())
}

/// How many writes these lines on standard error are to be: one each, and one for what `clap` says of a wrong line. On a
/// terminal a line on progress has two codes with ESC, and what removes it has two, and is a write too.
fn writes_of(lines: &str) -> usize {
    if lines.starts_with("error: ") {
        return 1;
    }
    let ends = lines.bytes().filter(|byte| *byte == b'\n').count();
    let escapes = lines.bytes().filter(|byte| *byte == b'\x1b').count();
    ends.saturating_add(escapes / 4)
}

/// What a command line of these words answers on the files of a source.
pub(super) fn answer_on<S: Source + AllocGlobal>(
    source: &mut S,
    words: &[&str],
    mut out: Watched<StepWriter>,
    terminal: bool,
) -> Result<RunAnswer, Fail>
    requires { has_failed out ≡ false }
{
    let mut err = writer(source.alloc(), 4096, 4096);
    let process = Process {
        version: "1.2 (test)",
        help: &[],
        terminal,
    };
    let status = run_program(source, words, &mut out, &mut err, &process);
    let err = err.into_inner();
    let line = String::from_utf8(err.taken)?;
    Ok(RunAnswer {
        status,
        sent: text_taken(out)?,
        torn: err.writes != writes_of(&line),
        line,
    })
}
