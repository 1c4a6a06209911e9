//! What no clause says of command lines. It is the files, goods and limits that they name, and what `clap` prints.

use command_line::help::VERSION;
use command_line::request::{Misuse, NoRequest, parse};
use requests::request::Request;
use std::alloc::{AllocError, Global};
use std::process::Abort;
use std::test::Fail;

/// The words of a line, which have a blank between each two.
fn words_of(alloc: Global, line: &str) -> Result<Vec<&str>, AllocError> {
    line.split(' ').collect(alloc)
}

/// Command lines, and their requests: the task, the files, the list, the goods, the bids and the prices; the search, with
/// the limits of one and of all; the flags `progress`, `null` and `all`, and `table` if it is set; and the folder.
static REQUESTS: &[(&str, &str)] = rows! {
    ("cats check a", "Check [\"a\"] None [] [] None Bounded 0 None false false false None"),
    ("cats show a", "Show [\"a\"] None [] [] None Bounded 0 None false false false None"),
    ("cats value a", "Value [\"a\"] None [] [] None Plain 1000000 None false false false None"),
    ("cats value a 3 4 --steps 7", "Value [\"a\"] None [3, 4] [] None Plain 7 None false false false None"),
    ("cats normalise a", "Normalise [\"a\"] None [] [] None Plain 1000000 None false false false None"),
    ("cats normalise --steps=1000000000 a", "Normalise [\"a\"] None [] [] None Plain 1000000000 None false false false None"),
    ("cats explain a", "Explain [\"a\"] None [] [] None Bounded 1000000 Some(50000000) false false false None"),
    ("cats explain a --steps 8", "Explain [\"a\"] None [] [] None Bounded 8 Some(50000000) false false false None"),
    ("cats lp a", "Lp [\"a\"] None [] [] None Bounded 0 None false false false None"),
    ("cats compare a b", "Compare [\"a\", \"b\"] None [] [] None Plain 1000000 None false false false None"),
    ("cats compare --steps 1 a b", "Compare [\"a\", \"b\"] None [] [] None Plain 1 None false false false None"),
    ("cats compare a b --all", "Compare [\"a\", \"b\"] None [] [] None Plain 1000000 None false false true None"),
    ("cats diff a b", "Diff [\"a\", \"b\"] None [] [] None Bounded 1000000 Some(50000000) false false false None"),
    ("cats diff b --steps=7 a", "Diff [\"b\", \"a\"] None [] [] None Bounded 7 Some(50000000) false false false None"),
    ("cats duplicates a b a", "Duplicates [\"a\", \"b\", \"a\"] None [] [] None Bounded 1000000 Some(50000000) false false false None"),
    ("cats duplicates --progress a b --steps=9",
     "Duplicates [\"a\", \"b\"] None [] [] None Bounded 9 Some(50000000) true false false None"),
    ("cats duplicates -0 a", "Duplicates [\"a\"] None [] [] None Bounded 1000000 Some(50000000) false true false None"),
    ("cats duplicates --all a --table",
     "Duplicates [\"a\"] None [] [] None Bounded 1000000 Some(50000000) false false true table None"),
    ("cats duplicates a -- -0", "Duplicates [\"a\", \"-0\"] None [] [] None Bounded 1000000 Some(50000000) false false false None"),
    ("cats duplicates --files0-from a", "Duplicates [] Some(\"a\") [] [] None Bounded 1000000 Some(50000000) false false false None"),
    ("cats sizes a", "Sizes [\"a\"] None [] [] None Bounded 1000000 Some(50000000) false false false None"),
    ("cats sizes --steps=9 a --progress b", "Sizes [\"a\", \"b\"] None [] [] None Bounded 9 Some(50000000) true false false None"),
    ("cats sizes a --null é", "Sizes [\"a\", \"é\"] None [] [] None Bounded 1000000 Some(50000000) false true false None"),
    ("cats sizes --files0-from=/dev/stdin -0 --progress",
     "Sizes [] Some(\"/dev/stdin\") [] [] None Bounded 1000000 Some(50000000) true true false None"),
    ("cats normalise --bound --total-steps=5 a",
     "Normalise [\"a\"] None [] [] None Bounded 1000000 Some(5) false false false None"),
    ("cats compare a --total-steps 5 b --bound",
     "Compare [\"a\", \"b\"] None [] [] None Bounded 1000000 Some(5) false false false None"),
    ("cats value --bound a 0", "Value [\"a\"] None [0] [] None Bounded 1000000 None false false false None"),
    ("cats value a 3,0,3 0-4 4095 2",
     "Value [\"a\"] None [3, 0, 1, 2, 4, 4095] [] None Plain 1000000 None false false false None"),
    ("cats explain --bound a", "Explain [\"a\"] None [] [] None Bounded 1000000 Some(50000000) false false false None"),
    ("cats diff a --bound b --steps=7", "Diff [\"a\", \"b\"] None [] [] None Bounded 7 Some(50000000) false false false None"),
    ("cats duplicates a --bound", "Duplicates [\"a\"] None [] [] None Bounded 1000000 Some(50000000) false false false None"),
    ("cats sizes --bound a", "Sizes [\"a\"] None [] [] None Bounded 1000000 Some(50000000) false false false None"),
    ("cats explain --total-steps=1000000000000 a",
     "Explain [\"a\"] None [] [] None Bounded 1000000 Some(1000000000000) false false false None"),
    ("cats check --round a",
     "Check [\"a\"] None [] [] Some(PriceRule { fine: Round, tens: 0 }) Bounded 0 None false false false None"),
    ("cats revenue a --round-exact",
     "Revenue [\"a\"] None [] [] Some(PriceRule { fine: Refuse, tens: 0 }) Bounded 0 None false false false None"),
    ("cats diff --round --round-exact a b",
     "Diff [\"a\", \"b\"] None [] [] Some(PriceRule { fine: Refuse, tens: 0 }) Bounded 1000000 Some(50000000) false false false None"),
    ("cats fault a --round b",
     "Fault [\"a\", \"b\"] None [] [] Some(PriceRule { fine: Round, tens: 0 }) Bounded 0 None false false false None"),
    ("cats round --exact --times 100 a",
     "Round [\"a\"] None [] [] Some(PriceRule { fine: Refuse, tens: 2 }) Bounded 0 None false false false None"),
    ("cats sizes a --round",
     "Sizes [\"a\"] None [] [] Some(PriceRule { fine: Round, tens: 0 }) Bounded 1000000 Some(50000000) false false false None"),
    ("cats publish d a --all b", "Publish [\"a\", \"b\"] None [] [] None Bounded 1000000 Some(50000000) false false true Some(\"d\")"),
    ("cats publish d --files0-from a", "Publish [] Some(\"a\") [] [] None Bounded 1000000 Some(50000000) false false false Some(\"d\")"),
};

/// That a line is this request.
fn expect_request(
    rt: &(impl Abort + AllocGlobal),
    line: &str,
    request: &Request<'_>,
    asked: &str,
) -> Result<(), Fail> {
    let Request {
        task,
        files,
        list,
        goods,
        bids,
        prices,
        options,
        progress,
        null,
        all,
        table,
        folder,
    } = request;
    let table = if *table { " table" } else { "" };
    let search = format!(in rt.alloc(); "{:?} {} {:?}", options.kind, options.each, options.total)?;
    let text = format!(in rt.alloc();
        "{task:?} {files:?} {list:?} {goods:?} {bids:?} {prices:?} {search} {progress} {null} {all}{table} {folder:?}"
    )?;
    assert!(rt; text.as_str() == asked, "of {line}: {text}");
    Ok(())
}

#[test]
fn requests(rt: HostRuntime) -> Result<(), Fail> {
    for (line, asked) in REQUESTS {
        let words = words_of(rt.alloc(), line)?;
        let request = parse(rt.alloc(), VERSION, &[], words.as_slice())?;
        expect_request(&rt, line, &request, asked)?;
    }
    Ok(())
}

/// That a line has the right answer.
fn expect_right(
    rt: &impl Abort,
    line: &str,
    answer: &Result<Request<'_>, NoRequest>,
    is_right: bool,
) {
    assert!(rt; is_right, "of {line}: {answer:?}");
}

#[test]
fn help_and_version(rt: HostRuntime) {
    let alloc = rt.alloc();
    let help = parse(alloc, VERSION, &[], &["cats", "help", "check"]);
    let is_help = matches!(&help, Err(NoRequest::Help(text)) if text.contains("Usage: cats check"));
    expect_right(&rt, "help check", &help, is_help);
    let version = parse(alloc, "1.2 (test)", &[], &["cats", "--version"]);
    let is_version =
        matches!(&version, Err(NoRequest::Help(text)) if text.as_str() == "cats 1.2 (test)\n");
    expect_right(&rt, "--version", &version, is_version);
}

/// Command lines that are no request: among them two lists, a list without its path, and `-0` twice.
static WRONG_LINES: &[&str] = rows! {
    "cats", "cats check", "cats Check a", "cats value --steps 0 a", "cats diff a",
    "cats duplicates --files0-from=a --files0-from=b", "cats sizes --files0-from", "cats sizes -0 --null a",
    "cats normalise -0 a", "cats check --files0-from a", "cats explain --bound --bound a", "cats check --bound a",
    "cats check --total-steps=5 a", "cats explain --total-steps=0 a", "cats normalise --bound --bound a",
    "cats normalise --steps 1,000,000 a", "cats fault -0 a", "cats round --round-exact a",
    "cats lp --round --round a", "cats show --round-exact=yes a", "cats round --times=0 a", "cats check --times=10 a",
    "cats round --times=10000000000000 a", "cats round --times 1e6 a",
};

/// Command lines that `clap` takes and that are wrong, and why.
static MISUSES: &[(&str, Misuse)] = rows! {
    ("cats duplicates", Misuse::NoFiles),
    ("cats sizes --total-steps=5", Misuse::NoFiles),
    ("cats sizes --files0-from a b", Misuse::FilesTwice),
    ("cats duplicates b --files0-from a", Misuse::FilesTwice),
    ("cats normalise --total-steps=5 a", Misuse::UnboundedTotal),
    ("cats value a --total-steps 5", Misuse::UnboundedTotal),
    ("cats compare a b --total-steps=5", Misuse::UnboundedTotal),
    ("cats normalise --steps=+5 a", Misuse::SignedNumber),
    ("cats explain --total-steps +5 a", Misuse::SignedNumber),
    ("cats sizes --steps=+5", Misuse::SignedNumber),
    ("cats round a --times 20", Misuse::WrongTimes),
    ("cats round --times=999999999999 --exact a", Misuse::WrongTimes),
    ("cats round --times=+10 a", Misuse::SignedNumber),
    ("cats value a 4096", Misuse::WrongGoods),
    ("cats value a 0-65535,0-65535", Misuse::WrongGoods),
    ("cats value a b", Misuse::WrongGoods),
    ("cats revenue a 65536", Misuse::WrongBids),
    ("cats revenue a 0 3-1", Misuse::WrongBids),
    ("cats revenue a 0,", Misuse::WrongBids),
    ("cats revenue a x", Misuse::WrongBids),
    ("cats revenue a 0,+1", Misuse::WrongBids),
    ("cats value a 0 +1", Misuse::SignedNumber),
    ("cats value a -- -0", Misuse::SignedNumber),
    ("cats check a b", Misuse::MoreThanOneFile),
    ("cats show a b c", Misuse::MoreThanOneFile),
    ("cats normalise a --bound -- -b", Misuse::MoreThanOneFile),
    ("cats explain a b", Misuse::MoreThanOneFile),
    ("cats round a b --exact", Misuse::MoreThanOneFile),
    ("cats compare a b c", Misuse::MoreThanTwoFiles),
    ("cats diff a b c", Misuse::MoreThanTwoFiles),
    ("cats diff --steps=+5 a b c", Misuse::SignedNumber),
};

#[test]
fn wrong_lines(rt: HostRuntime) -> Result<(), Fail> {
    let nothing = parse(rt.alloc(), VERSION, &[], &[]);
    let is_wrong = matches!(&nothing, Err(NoRequest::WrongUsage(_)));
    expect_right(&rt, "", &nothing, is_wrong);
    for line in WRONG_LINES {
        let words = words_of(rt.alloc(), line)?;
        let answer = parse(rt.alloc(), VERSION, &[], words.as_slice());
        let is_wrong = matches!(&answer, Err(NoRequest::WrongUsage(text)) if !text.is_empty());
        expect_right(&rt, line, &answer, is_wrong);
    }
    Ok(())
}

#[test]
fn misused_lines(rt: HostRuntime) -> Result<(), Fail> {
    for (line, misuse) in MISUSES {
        let words = words_of(rt.alloc(), line)?;
        let answer = parse(rt.alloc(), VERSION, &[], words.as_slice());
        let is_misuse = matches!(&answer, Err(NoRequest::Misused(why)) if why == misuse);
        expect_right(&rt, line, &answer, is_misuse);
    }
    Ok(())
}
