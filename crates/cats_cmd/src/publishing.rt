//! The run of `cats publish`: it finds where each text is to be written, refuses what cannot be before anything is written,
//! and then publishes the files, one after the other.

ghost use Rattle.std.specs.Prelude.{◌≡◌, IfOk, Some, false, map};
ghost use Rattle.cats_text.specs.Streams.{has_failed};
ghost use Rattle.cats_cmd.specs.Internal.PublishRuns.{FindsTaken, FindsUnwritten, IsTakenAt, PublishesInto};
ghost use Rattle.cats_cmd.specs.Internal.Judging.{opening_of};
ghost use Rattle.cats_cmd.specs.Internal.TextNumbers.{FindsMisplaced, place_openings, plain_places};
ghost use Rattle.cats_cmd.specs.Opening.{KeepsFiles, OpensEach};
ghost use Rattle.cats_cmd.specs.Openings.{OpensFiles, status_of_run};
ghost use Rattle.cats_cmd.specs.Paths.{without_refusals};
ghost use Rattle.cats_cmd.specs.PublishRuns.{NamesMisplaced, collision_line, file_of, outside_line};
ghost use Rattle.cats_cmd.specs.Reports.{Reports};
ghost use Rattle.cats_cmd.specs.Requests.{RunsPublish};
ghost use Rattle.cats_cmd.specs.TextPaths.{texts_at};
ghost use Rattle.requests.specs.Requests.{plain_request};

use crate::lines::LineBuffer;
use crate::many_files::{many_files, paths_of, read_list, refuse_list};
use crate::path_list::split_paths;
use crate::paths::{FilePath, ManyFiles, Target, report_refusal, run_on_paths};
use crate::publish::Publisher;
use crate::source::Source;
use crate::text_paths::{Misplaced, TextPlace, find_misplaced, text_places_at};
use crate::writing::path_in;
use cats_text::Watched;
use commands::faults::{RunFault, Unwritten};
use commands::statuses::{DEVICE_FAILED, WRONG_USAGE};
use requests::request::Request;
use std::alloc::{AllocError, AllocGlobal, Global};
use std::io::Write;

/// The run on the files of a request. A list that is not read is reported as a file that is not judged.
pub(crate) fn run_publish<S: Source + AllocGlobal, W: Write, E: Write>(
    source: &mut S,
    request: &Request<'_>,
    terminal: bool,
    out: &mut Watched<W>,
    err: &mut Watched<E>,
) -> Result<u8, RunFault>
    requires { has_failed out.old ≡ false }
    ensures runs { RunsPublish (S.may_open (S.content_of source.old)) (S.may_refuse (S.content_of source.old))
        S.Stream.remaining W.contents E.contents terminal (S.may_find (S.content_of source.old))
        (S.may_not_write (S.content_of source.old)) (S.texts source.old) (S.texts source.new) (plain_request request.now)
        out.old out.new err.old err.new result }
    ensures opens { OpensFiles S.content_of S.opened S.may_open S.may_refuse S.Stream.remaining S.may_find
        (plain_request request.now).list (plain_request request.now).files source.old source.new (status_of_run result) }
{
    let many = many_files(request, terminal);
    let folder = request.folder.unwrap_or("");
    let Some(list) = request.list else {
        let paths = paths_of(source.alloc(), request.files.as_slice())?;
        let places = text_places_at(&*source, source.alloc(), paths.as_slice(), many.way)?;
        let target = Target {
            folder,
            places: places.as_slice(),
        };
        return publish_into(source, target, many, out, err);
    };
    match read_list(source, list) {
        Ok(text) => {
            let paths = split_paths(source.alloc(), text.as_slice())?;
            let places = text_places_at(&*source, source.alloc(), paths.as_slice(), many.way)?;
            let target = Target {
                folder,
                places: places.as_slice(),
            };
            publish_into(source, target, many, out, err)
        }
        Err(fault) => Ok(refuse_list(list, &fault, err)),
    }
}

/// Publishes files into a folder, unless some text cannot be written.
fn publish_into<S: Source + AllocGlobal, W: Write, E: Write>(
    source: &mut S,
    target: Target<'_>,
    many: ManyFiles<'_>,
    out: &mut Watched<W>,
    err: &mut Watched<E>,
) -> Result<u8, RunFault>
    requires { has_failed out.old ≡ false }
    ensures runs { PublishesInto (S.may_open (S.content_of source.old)) (S.may_refuse (S.content_of source.old))
        S.Stream.remaining W.contents E.contents (S.may_not_write (S.content_of source.old)) (S.texts source.old)
        (S.texts source.new) many.entry.options many.entry.prices many.entry.all (without_refusals many.entry.progress)
        target.entry.folder.now (plain_places target.entry.places.now) out.old out.new err.old err.new result }
    ensures opens { OpensEach S.content_of S.opened (place_openings target.entry.places.now) source.old source.new
        (status_of_run result) }
{
    let alloc = source.alloc();
    if let Some(misplaced) = find_misplaced(alloc, target.places)? {
        report_misplaced(target.places, misplaced, err);
        return Ok(WRONG_USAGE);
    }
    let files = files_of(alloc, target.places)?;
    if let Some((path, why)) = find_unwritten(source, alloc, target)? {
        let fault = RunFault::NotWritten(why);
        report_refusal(err, path.as_slice(), &fault);
        return Ok(DEVICE_FAILED);
    }
    let many = ManyFiles {
        target: Some(target),
        ..many
    };
    run_on_paths::<Publisher, S, W, E>(source, files.as_slice(), many, out, err)
}

/// A path at which nothing can be written, that of a text or the folder's, and why. Without one the folder is there then.
fn find_unwritten<S: Source>(
    source: &mut S,
    alloc: Global,
    target: Target<'_>,
) -> Result<Option<(Vec<u8>, Unwritten)>, AllocError>
    ensures finds { IfOk result (FindsUnwritten (S.may_not_write (S.content_of source.old)) (S.texts source.old)
        target.entry.folder.now (texts_at (plain_places target.entry.places.now))) }
    ensures files { KeepsFiles S.content_of S.opened source.old source.new }
    ensures unwritten { S.texts source.new ≡ S.texts source.old }
{
    if let Some(path) = find_taken(&*source, alloc, target)? {
        return Ok(Some((path, Unwritten::Exists)));
    }
    match source.make_folder(target.folder) {
        Ok(()) => Ok(None),
        Err(why) => Ok(Some((Vec::from_slice(alloc, target.folder.as_bytes())?, why))),
    }
}

/// The path of the first text at which something may be.
fn find_taken<S: Source>(
    source: &S,
    alloc: Global,
    target: Target<'_>,
) -> Result<Option<Vec<u8>>, AllocError>
    ensures { IfOk result (FindsTaken (S.may_not_write (S.content_of source.now)) (S.texts source.now)
        target.entry.folder.now (texts_at (plain_places target.entry.places.now))) }
{
    for place in target.places {
        let text = place.text.as_slice();
        if is_taken_at(source, alloc, target.folder, text)? {
            return Ok(Some(path_in(alloc, target.folder.as_bytes(), text)?));
        }
    }
    Ok(None)
}

/// Whether something may be at the path of a text. One that is not UTF-8 is not written, as the library opens no such path.
fn is_taken_at<S: Source>(
    source: &S,
    alloc: Global,
    folder: &str,
    text: &[u8],
) -> Result<bool, AllocError>
    ensures { IfOk result (IsTakenAt (S.may_not_write (S.content_of source.now)) (S.texts source.now) folder.now text.now) }
{
    match str::from_utf8(text) {
        Ok(text) => source.is_taken(alloc, folder, text),
        Err(_) => Ok(false),
    }
}

/// The paths of the files, as those who only read them take them.
fn files_of(alloc: Global, places: &[TextPlace]) -> Result<Vec<FilePath<'_>>, AllocError>
    ensures { IfOk result (λ files. map opening_of files.items ≡ place_openings places.now) }
{
    let mut files = Vec::with_capacity(alloc, places.len())?;
    for place in places {
        files.push(FilePath {
            path: place.file.as_slice(),
            way: place.way,
        })?;
    }
    Ok(files)
}

/// Reports which texts cannot be written where they would be.
fn report_misplaced<E: Write>(places: &[TextPlace], misplaced: Misplaced, err: &mut Watched<E>)
    requires { FindsMisplaced (texts_at (plain_places places.now)) (Some misplaced) }
    ensures { NamesMisplaced E.contents (plain_places places.now) err.old err.new }
{
    match misplaced {
        Misplaced::Outside(number) => report_outside(file_at(places, number), err),
        Misplaced::Collision(first, second) => {
            report_collision(file_at(places, first), file_at(places, second), err)
        }
    }
}

fn report_outside<E: Write>(file: &[u8], err: &mut Watched<E>)
    ensures { Reports E.contents (outside_line file.now) err.old err.new }
{
    let mut line = LineBuffer::new();
    line.push_escaped(err, file);
    line.push(
        err,
        b": cannot write: its text would not be below the folder\n",
    );
    line.send(err);
}

fn report_collision<E: Write>(first: &[u8], second: &[u8], err: &mut Watched<E>)
    ensures { Reports E.contents (collision_line first.now second.now) err.old err.new }
{
    let mut line = LineBuffer::new();
    line.push_escaped(err, second);
    line.push(
        err,
        b": cannot write: its text would be at or below that of ",
    );
    line.push_escaped(err, first);
    line.push(err, b"\n");
    line.send(err);
}

/// The file with this number.
fn file_at(places: &[TextPlace], number: usize) -> &[u8]
    ensures { result.now ≡ file_of (plain_places places.now) number }
{
    match places.get(number) {
        Some(place) => place.file.as_slice(),
        None => &[],
    }
}
