//! `cats publish`: the canonical text of each auction is written once, and each file has a row that says where.

ghost use Rattle.std.specs.Prelude.{◌≡◌, ◌++◌, [], IfOk, OnErr, OnOk, codes};
ghost use Rattle.cats_cmd.specs.Escaping.{escaped};
ghost use Rattle.cats_cmd.specs.Internal.Publishing.{WritesRow, folder_of, plain_row, refused_row, row_line, text_path_for};
ghost use Rattle.cats_cmd.specs.Opening.{KeepsFiles};
ghost use Rattle.cats_cmd.specs.Stores.{IsUnwritten, Writes, WritesEach, path_in};
ghost use Rattle.canon.specs.declared.which.Which.TheVariants.{Only};
ghost use Rattle.canon.specs.Answers.{RefusesAuction};
ghost use Rattle.commands.specs.Normalise.{with_bid};
ghost use Rattle.valuation.specs.Auctions.{auction_from};
ghost use Rattle.commands.specs.Outputs.{number_cell};

use crate::escaping::escaped;
use crate::paths::{Added, Collection, ManyFiles};
use crate::priced_input::PricedInput;
use crate::sizes::push_fault_cell;
use crate::source::Source;
use bid_file::{Bids, PackedFile};
use canon::normal::named_normal_file;
use canon::{AuctionIndex, CanonFault, Which};
use cats_text::{Watched, write};
use commands::Input;
use commands::faults::{RunFault, Unopened, Unwritten, name_bid};
use itoa::Buffer;
use std::alloc::{AllocError, AllocGlobal, Global};
use std::io::Write;
use valuation::search::SearchOptions;

/// The line above the rows.
const HEADER: &str = "file\ttext\tsame_as\tgoods\tbids\tkept\trounded\tzeroed\tfault\n";

/// The auctions of the files so far.
#[derive(Drop)]
pub(crate) struct Publisher {
    index: AuctionIndex,
    /// The paths of the files that were judged.
    judged: Vec<Vec<u8>>,
    /// How many files there were.
    count: usize,
}

/// A file that was judged.
#[derive(Drop)]
struct Published {
    /// Its canonical text.
    text: Vec<u8>,
    /// The path of the first file that is the same auction.
    same_as: Option<Vec<u8>>,
    /// How many bids its canonical file has.
    kept: usize,
}

/// The cells of a row. A number that is not known has no digits.
#[derive(Clone, Copy)]
struct Row<'a> {
    path: &'a [u8],
    text: &'a [u8],
    same_as: &'a [u8],
    goods: Option<usize>,
    bids: Option<usize>,
    kept: Option<usize>,
    rounded: Option<usize>,
    zeroed: Option<usize>,
}

impl<'a> Row<'a> {
    ghost use Rattle.cats_cmd.specs.Internal.Publishing.{unread_row};

    /// That of a file that was not read.
    fn unread(path: &'a [u8]) -> Row<'a>
        ensures { plain_row result ≡ unread_row path.now }
    {
        Row {
            path,
            text: &[],
            same_as: &[],
            goods: None,
            bids: None,
            kept: None,
            rounded: None,
            zeroed: None,
        }
    }

    /// That of a file that is refused. A file that was read is refused by a step limit, or for want of memory.
    fn refused(self, fault: &CanonFault) -> Row<'a>
        ensures { plain_row result ≡ refused_row (plain_row self.entry) fault.now }
    {
        match fault {
            CanonFault::StepLimit { goods: _ } => Row {
                rounded: None,
                zeroed: None,
                ..self
            },
            _ => Row::unread(self.path),
        }
    }

    /// The row as a line.
    fn line(&self, alloc: Global, fault: &Option<RunFault>) -> Result<Vec<u8>, AllocError>
        ensures { IfOk result (λ line. line.items ≡ row_line (plain_row self.now) fault.now) }
    {
        let mut line = Vec::new(alloc);
        push_path_cell(alloc, &mut line, self.path)?;
        push_path_cell(alloc, &mut line, self.text)?;
        push_path_cell(alloc, &mut line, self.same_as)?;
        push_number_cell(&mut line, self.goods)?;
        push_number_cell(&mut line, self.bids)?;
        push_number_cell(&mut line, self.kept)?;
        push_number_cell(&mut line, self.rounded)?;
        push_number_cell(&mut line, self.zeroed)?;
        push_fault_cell(alloc, &mut line, fault)?;
        line.push(b'\n')?;
        Ok(line)
    }
}

fn push_path_cell(alloc: Global, line: &mut Vec<u8>, path: &[u8]) -> Result<(), AllocError>
    ensures { OnOk result (line.new.items ≡ line.old.items ++ (escaped path.now ++ codes "\t")) }
{
    let path = escaped(alloc, path)?;
    line.extend_from_slice(path.as_slice())?;
    line.push(b'\t')?;
    Ok(())
}

fn push_number_cell(line: &mut Vec<u8>, number: Option<usize>) -> Result<(), AllocError>
    ensures { OnOk result (line.new.items ≡ line.old.items ++ (number_cell number ++ codes "\t")) }
{
    if let Some(number) = number {
        line.extend_from_slice(Buffer::new().format(number).as_bytes())?;
    }
    line.push(b'\t')?;
    Ok(())
}

/// The folder of the texts.
fn folder<'a>(many: ManyFiles<'a>) -> &'a str
    ensures { result.now ≡ folder_of many.entry.target }
{
    match many.target {
        Some(target) => target.folder,
        None => "",
    }
}

/// The path of the text of the file with this number.
fn text_path<'a>(many: ManyFiles<'a>, number: usize) -> &'a [u8]
    ensures { result.now ≡ text_path_for many.entry number }
{
    let Some(target) = many.target else {
        return &[];
    };
    match target.places.get(number) {
        Some(place) => place.text.as_slice(),
        None => &[],
    }
}

/// Writes a text at a path below a folder. None can be written at a path that is not UTF-8.
fn write_text<S: Source>(
    source: &mut S,
    alloc: Global,
    folder: &str,
    path: &[u8],
    text: &[u8],
) -> Result<Result<(), Unwritten>, AllocError>
    ensures writes { Writes S.texts (IsUnwritten (S.may_not_write (S.content_of source.old)))
        (path_in folder.now path.now) text.now source.old source.new result }
    ensures files { KeepsFiles S.content_of S.opened source.old source.new }
{
    match str::from_utf8(path) {
        Ok(path) => source.write_new(alloc, folder, path, text),
        Err(_) => Ok(Err(Unwritten::Other)),
    }
}

/// Writes the canonical text of the file with this number, and makes its row.
fn publish_text<S: Source + AllocGlobal>(
    source: &mut S,
    many: ManyFiles<'_>,
    number: usize,
    row: Row<'_>,
    text: &[u8],
) -> Result<Added, AllocError>
    ensures writes { IfOk result (λ added. WritesRow
        (WritesEach (S.may_not_write (S.content_of source.old)) (S.texts source.old) (S.texts source.new)) many.entry number
        (plain_row row.entry) text.now added.fault added.text.items) }
    ensures unwritten { OnErr result (S.texts source.new ≡ S.texts source.old) }
    ensures files { KeepsFiles S.content_of S.opened source.old source.new }
{
    let alloc = source.alloc();
    let place = text_path(many, number);
    // it is there before the text is written, so that there is no text without a row
    let line = Row { text: place, ..row }.line(alloc, &None)?;
    match write_text(source, alloc, folder(many), place, text)? {
        Ok(()) => Ok(Added {
            fault: None,
            text: line,
        }),
        Err(why) => {
            let fault = Some(RunFault::NotWritten(why));
            let text = row.line(alloc, &fault)?;
            Ok(Added { fault, text })
        }
    }
}

impl Publisher {
    ghost use Rattle.std.specs.Prelude.{ℕ, List, option_map, Some, slice_get};
    ghost use Rattle.bid_file.specs.Files.{IsPlainFile};
    ghost use Rattle.cats_cmd.specs.Folders.{paths_of};
    ghost use Rattle.cats_cmd.specs.Internal.Judging.{AddsJudgement, AddsOpened, ShowsNext};
    ghost use Rattle.cats_cmd.specs.Internal.Publishing.{JudgesFile, JudgesOrRefuses, KeepsPublished, PublishesFor};
    ghost use Rattle.cats_cmd.specs.Internal.Publishing.{read_row, with_file_counted};
    ghost use Rattle.cats_cmd.specs.declared.paths.ManyFiles.{ManyFiles};
    ghost use Rattle.cats_cmd.specs.declared.priced_input.RoundedCount.{RoundedCount};
    ghost use Rattle.commands.specs.Judgements.{IsUnjudged};
    ghost use Rattle.commands.specs.declared.faults.RunFault.{RunFault};

    /// Counts one more file.
    fn count_file(&mut self) -> Result<(), AllocError>
        ensures { OnOk result (self.new ≡ with_file_counted self.old) }
    {
        let Some(count) = self.count.checked_add(1) else {
            return Err(AllocError);
        };
        self.count = count;
        Ok(())
    }

    /// The path of the file with this number among those that were judged.
    fn path_of(&self, alloc: Global, number: usize) -> Result<Option<Vec<u8>>, AllocError>
        ensures { IfOk result (λ path. option_map (λ p. p.items) path ≡ slice_get (paths_of self.now.judged.items) number) }
    {
        match self.judged.get(number) {
            Some(path) => Ok(Some(Vec::from_slice(alloc, path.as_slice())?)),
            None => Ok(None),
        }
    }

    /// Judges a file, and finds the first one that is the same auction.
    fn judge(
        &mut self,
        alloc: Global,
        path: &[u8],
        file: &PackedFile,
        options: SearchOptions,
    ) -> Result<Result<Published, CanonFault>, AllocError>
        requires { IsPlainFile file.now }
        ensures { IfOk result (JudgesOrRefuses options path.now file.now self.old self.new) }
    {
        let named = match named_normal_file(alloc, file, options) {
            Ok(named) => named,
            Err(fault) => return Ok(Err(fault)),
        };
        let text = write(alloc, &named.file)?;
        let first = self.index.add_text(alloc, text.as_slice())?;
        let same_as = self.path_of(alloc, first)?;
        self.judged.push(Vec::from_slice(alloc, path)?)?;
        let kept = named.file.len();
        Ok(Ok(Published {
            text,
            same_as,
            kept,
        }))
    }

    /// Adds a file that was not read, for this fault, and answers its row.
    fn add_unread(
        &mut self,
        alloc: Global,
        path: &[u8],
        fault: &Option<RunFault>,
    ) -> Result<Vec<u8>, AllocError>
        ensures { (many : ManyFiles) (why : RunFault) → fault.now ≡ Some why → IfOk result (λ text.
            AddsJudgement KeepsPublished path.now (IsUnjudged why) self.old self.new
            × ShowsNext KeepsPublished (PublishesFor many) path.now (IsUnjudged why) text.items [] self.old) }
    {
        self.count_file()?;
        Row::unread(path).line(alloc, fault)
    }

    /// Adds a file that was read, and writes its text if that is wanted.
    fn add_file<S: Source + AllocGlobal>(
        &mut self,
        source: &mut S,
        file: &PackedFile,
        read: Row<'_>,
        many: ManyFiles<'_>,
    ) -> Result<Added, AllocError>
        requires { IsPlainFile file.now }
        ensures adds { (path : List ℕ) (rounded : RoundedCount) → plain_row read.entry ≡ read_row path file.now rounded
            → IfOk result (λ added. AddsOpened KeepsPublished (PublishesFor many.entry)
            (WritesEach (S.may_not_write (S.content_of source.old)) (S.texts source.old) (S.texts source.new))
            (λ file same. JudgesFile many.entry.options file rounded) path self.old self.new file.now file.now
            added.fault added.text.items) }
        ensures unwritten { OnErr result (S.texts source.new ≡ S.texts source.old) }
        ensures files { KeepsFiles S.content_of S.opened source.old source.new }
    {
        let alloc = source.alloc();
        let number = self.count;
        self.count_file()?;
        let published = match self.judge(alloc, read.path, file, many.options)? {
            Ok(published) => published,
            Err(fault) => return refuse(alloc, file, read, many.options, fault),
        };
        let row = Row {
            same_as: published.same_as(),
            kept: Some(published.kept),
            ..read
        };
        if !published.is_wanted(many.all) {
            let text = row.line(alloc, &None)?;
            return Ok(Added { fault: None, text });
        }
        publish_text(source, many, number, row, published.text.as_slice())
    }
}

/// The row of a file that was read, and is refused.
fn refuse(
    alloc: Global,
    file: &PackedFile,
    read: Row<'_>,
    options: SearchOptions,
    fault: CanonFault,
) -> Result<Added, AllocError>
    requires { RefusesAuction options (auction_from file.now) fault }
    ensures { IfOk result (λ added. (added.fault ≡ Some (with_bid Only file.now options fault)) × (added.text.items
        ≡ row_line (refused_row (plain_row read.entry) fault) (Some (with_bid Only file.now options fault)))) }
{
    let row = read.refused(&fault);
    let fault = Some(name_bid(alloc, Which::Only, file, options, fault)?);
    let text = row.line(alloc, &fault)?;
    Ok(Added { fault, text })
}

impl Published {
    ghost use Rattle.std.specs.Prelude.{◌||◌, is_none, unwrap_or};
    ghost use Rattle.cats_cmd.specs.Internal.Publishing.{path_found};

    /// Whether its text is to be written, if those of all files are, or of each auction one.
    fn is_wanted(&self, all: bool) -> bool
        ensures { result ≡ (all || is_none self.now.same_as) }
    {
        all || self.same_as.is_none()
    }

    /// The path of the first file that is the same auction, or none.
    fn same_as(&self) -> &[u8]
        ensures { result.now ≡ unwrap_or (path_found self.now) [] }
    {
        match &self.same_as {
            Some(path) => path.as_slice(),
            None => &[],
        }
    }
}

impl Collection for Publisher {
    ghost use Rattle.std.specs.Prelude.{[], Some};
    ghost use Rattle.cats_cmd.specs.Internal.Publishing.{KeepsPublished, PublishesFor};

    ghost searched = { λ options. Some options };

    ghost keeps = { KeepsPublished };

    ghost Shows = { PublishesFor };

    ghost Makes = { PublishesFor };

    ghost refusals = { λ path fault. [] };

    fn begin(alloc: Global, _many: ManyFiles<'_>) -> Result<(Publisher, Vec<u8>), AllocError> {
        let publisher = Publisher {
            index: AuctionIndex::new(alloc),
            judged: Vec::new(alloc),
            count: 0,
        };
        Ok((publisher, Vec::from_slice(alloc, HEADER.as_bytes())?))
    }

    fn add<S: Source + AllocGlobal>(
        &mut self,
        source: &mut S,
        path: &[u8],
        input: &mut PricedInput<S::Stream>,
        many: ManyFiles<'_>,
    ) -> Result<Added, AllocError> {
        let alloc = source.alloc();
        match input.read_file(alloc) {
            Ok(file) => {
                let rounded = input.rounded();
                let read = Row {
                    goods: Some(usize::from(file.goods())),
                    bids: Some(file.len()),
                    rounded: Some(rounded.count),
                    zeroed: Some(rounded.zeroed),
                    ..Row::unread(path)
                };
                self.add_file(source, &file, read, many)
            }
            Err(fault) => {
                let fault = Some(RunFault::from(CanonFault::from(fault)));
                let text = self.add_unread(alloc, path, &fault)?;
                Ok(Added { fault, text })
            }
        }
    }

    fn add_unopened(
        &mut self,
        alloc: Global,
        path: &[u8],
        why: Unopened,
        _many: ManyFiles<'_>,
    ) -> Result<Vec<u8>, AllocError> {
        let fault = Some(RunFault::NotOpened(Which::Only, why));
        self.add_unread(alloc, path, &fault)
    }

    /// The row says it.
    fn report_refusal<E: Write>(_path: &[u8], _fault: &Option<RunFault>, _err: &mut Watched<E>) {}

    /// All rows are printed.
    fn end(&self, alloc: Global, _many: ManyFiles<'_>) -> Result<Vec<u8>, AllocError> {
        Ok(Vec::new(alloc))
    }
}
