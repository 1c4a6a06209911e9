//! `FaultFinder`: where the first fault is of a text that comes in pieces. Of the text it keeps a line.

ghost use Rattle.std.specs.Prelude.{◌≡◌, ◌≢◌, ◌+◌, ◌<◌, ◌≤◌, ◌^◌, [], None, ◌∷◌, ◌++◌, length, IfOk, OnOk};
ghost use Rattle.cats_text.specs.FaultLines.{FindsFault};
ghost use Rattle.cats_text.specs.declared.read_fault.Kind.TheVariants.{Memory};
ghost use Rattle.cats_text.specs.Internal.Finding.{HasJudged, HasNoEnd, IsSeeking, JudgesLine, bytes_of};

use crate::fault_place::{FaultPlace, judge_line, without_return};
use crate::history::History;
use crate::keep::BidCount;
use crate::parser::Parser;
use crate::read_fault::Kind;
use crate::scanner::line_feed;
use std::alloc::{AllocError, Global};
use std::marker::Model;

/// Where a fault is, and its line.
#[derive(Drop)]
pub struct FaultLine {
    /// The bytes of the line without its LF. Behind the last line there are none.
    pub bytes: Vec<u8>,
    /// The number of the line, counted from 1.
    pub line: u64,
    /// The number of the word in the line, counted from 1.
    pub word: u64,
    pub kind: Kind,
}

/// A fault in a line: the number of its word, counted from 1, and its kind.
#[derive(Clone, Copy)]
struct FaultyWord {
    word: u64,
    kind: Kind,
}

/// The fault at a place, or want of memory.
fn faulty_word(place: &FaultPlace<'_>) -> Result<FaultyWord, AllocError>
    ensures is { IfOk result (λ fault. fault ≡ record { word = place.now.word; kind = place.now.kind }) }
    ensures kind { OnOk result (place.now.kind ≢ Memory) }
{
    match place.kind {
        Kind::Memory => Err(AllocError),
        kind => Ok(FaultyWord {
            word: place.word,
            kind,
        }),
    }
}

/// Finds the first fault of the bytes that it is fed. It keeps the line that is not whole yet, or has the fault.
#[derive(Drop)]
pub struct FaultFinder {
    search: FaultSearch,
}

impl Model for FaultFinder {
    ghost use Rattle.std.specs.Prelude.{ℕ, List};
    ghost use Rattle.cats_text.specs.Internal.Finding.{IsSeeking};

    ghost Value = { List ℕ };

    ghost view = { λ f. f.search.history.bytes };

    ghost invariant = { λ f. IsSeeking f.search };
}

impl FaultFinder {
    /// Before the first byte.
    pub fn new(alloc: Global) -> FaultFinder
        ensures { result ≡ [] }
    {
        FaultFinder {
            search: FaultSearch::new(alloc),
        }
    }

    /// With more bytes.
    pub fn feed(mut self, piece: &[u8]) -> Result<FaultFinder, AllocError>
        requires { length self + length piece.now < 2 ^ 63 }
        ensures { IfOk result (λ finder. finder ≡ self ++ piece.now) }
    {
        self.search.feed(piece)?;
        Ok(self)
    }

    /// The first fault of all bytes.
    pub fn finish(self) -> Result<Option<FaultLine>, AllocError>
        requires { length self < 2 ^ 63 }
        ensures { IfOk result (FindsFault self) }
    {
        self.search.finish()
    }
}

/// What it keeps. Once memory is refused it cannot go on.
#[derive(Drop)]
struct FaultSearch {
    alloc: Global,
    parser: Parser<BidCount>,
    /// How many lines were judged and have no fault.
    lines: u64,
    line: Vec<u8>,
    found: Option<FaultyWord>,
    history: History,
}

impl FaultSearch {
    #[tactic(auto, using(crate::proofs::Feeding::Finding::nothing_sought))]
    fn new(alloc: Global) -> FaultSearch
        ensures seeking { IsSeeking result }
        ensures bytes { bytes_of result ≡ [] }
    {
        FaultSearch {
            alloc,
            parser: Parser::new(alloc),
            lines: 0,
            line: Vec::new(alloc),
            found: None,
            history: History::new(),
        }
    }

    /// Takes more bytes.
    fn feed(&mut self, piece: &[u8]) -> Result<(), AllocError>
        requires seeking { IsSeeking self.old }
        requires space { length (bytes_of self.old) + length piece.now < 2 ^ 63 }
        ensures seeking { OnOk result (IsSeeking self.new) }
        ensures bytes { OnOk result (bytes_of self.new ≡ bytes_of self.old ++ piece.now) }
    {
        let mut rest = piece;
        while let Some(end) = line_feed(rest) {
            self.end_line(&rest[..end])?;
            rest = &rest[end + 1..];
        }
        self.go_on(rest)
    }

    /// Takes the rest of a line, and its LF.
    #[tactic(auto, using(crate::proofs::Feeding::Finding::line_ended, crate::proofs::Feeding::Finding::more_behind, crate::proofs::Feeding::Finding::few_lines))]
    fn end_line(&mut self, rest: &[u8]) -> Result<(), AllocError>
        requires seeking { IsSeeking self.old }
        requires space { length (bytes_of self.old) + length rest.now < 2 ^ 63 }
        requires line { HasNoEnd rest.now }
        ensures seeking { OnOk result (IsSeeking self.new) }
        ensures bytes { OnOk result (bytes_of self.new ≡ bytes_of self.old ++ (rest.now ++ 10 ∷ [])) }
    {
        self.go_on(rest)?;
        self.history.note(b"\n");
        match self.found {
            None => self.judge(),
            Some(_) => Ok(()),
        }
    }

    /// Takes more bytes of a line.
    #[tactic(auto, using(crate::proofs::Feeding::Finding::more_of_line, crate::proofs::Feeding::Finding::more_behind))]
    fn go_on(&mut self, part: &[u8]) -> Result<(), AllocError>
        requires seeking { IsSeeking self.old }
        requires line { HasNoEnd part.now }
        ensures seeking { OnOk result (IsSeeking self.new) }
        ensures bytes { OnOk result (bytes_of self.new ≡ bytes_of self.old ++ part.now) }
    {
        self.history.note(part);
        match self.found {
            None => self.line.extend_from_slice(part),
            Some(_) => Ok(()),
        }
    }

    /// Judges the line that is kept.
    fn judge(&mut self) -> Result<(), AllocError>
        requires none { self.old.found ≡ None }
        requires space { self.old.lines < 2 ^ 63 }
        ensures judges { OnOk result (JudgesLine self.old self.new self.new.found) }
        ensures bytes { bytes_of self.new ≡ bytes_of self.old }
    {
        let line = without_return(self.line.as_slice());
        match judge_line(&mut self.parser, self.lines + 1, line) {
            Ok(()) => {
                self.lines += 1;
                self.line.clear();
            }
            Err(place) => {
                let fault = faulty_word(&place)?;
                self.found = Some(fault);
            }
        }
        Ok(())
    }

    /// Judges the last line, if no LF ended it.
    #[tactic(auto, using(crate::proofs::Feeding::Finding::ended_behind, crate::proofs::Feeding::Finding::ended_empty, crate::proofs::Feeding::Finding::ended_judged, crate::proofs::Feeding::Finding::few_lines))]
    fn end(&mut self) -> Result<(), AllocError>
        requires seeking { IsSeeking self.old }
        requires space { length (bytes_of self.old) < 2 ^ 63 }
        ensures judged { OnOk result (HasJudged self.new (bytes_of self.old) self.new.found) }
        ensures lines { OnOk result (self.new.lines ≤ 2 ^ 63) }
    {
        match self.found {
            None if self.line.is_empty() => Ok(()),
            None => self.judge(),
            Some(_) => Ok(()),
        }
    }

    /// The first fault of all bytes that came.
    fn finish(mut self) -> Result<Option<FaultLine>, AllocError>
        requires seeking { IsSeeking self }
        requires space { length (bytes_of self) < 2 ^ 63 }
        ensures { IfOk result (FindsFault (bytes_of self)) }
    {
        self.end()?;
        let number = self.lines + 1;
        match self.found {
            Some(fault) => Ok(Some(FaultLine {
                bytes: self.line,
                line: number,
                word: fault.word,
                kind: fault.kind,
            })),
            None if self.parser.is_due() => Ok(Some(FaultLine {
                bytes: Vec::new(self.alloc),
                line: number,
                word: 1,
                kind: Kind::Missing,
            })),
            None => Ok(None),
        }
    }
}
