//! What a caller requests, as a request of the program.

ghost use Rattle.std.specs.Prelude.{◌≡◌, IfOk, map, option_map, string_bytes};
ghost use Rattle.requests.specs.Requests.{plain_request, texts_of};
ghost use Rattle.cats_c.specs.Calls.{options_of, prices_of, request_by, request_of, total_of};

use crate::call::CallRequest;
use requests::request::Request;
use requests::task::{TASKS, TaskRow};
use rounding::replacement::{FinePrices, PriceRule};
use std::alloc::{AllocError, Global};
use valuation::search::SearchOptions;

/// The values of `prices`: `CATS_AS_WRITTEN` and `CATS_ROUNDED` of cats.h. Any other one is `CATS_ROUNDED_EXACTLY`.
const AS_WRITTEN: u8 = 0;

const ROUNDED: u8 = 1;

/// The value of `total` that is no limit: `CATS_NO_TOTAL` of cats.h.
const NO_TOTAL: u64 = 0;

/// The request of the program on texts of these names, if the caller's is one.
pub(crate) fn request_of<'a>(
    alloc: Global,
    request: &CallRequest<'_>,
    names: &'a [String],
) -> Result<Option<Request<'a>>, AllocError>
    ensures { IfOk result (λ found. option_map plain_request found ≡ request_of request.now (map string_bytes names.now)) }
{
    match TASKS.get(usize::from(request.task)) {
        Some(row) => request_by(alloc, row, request, names),
        None => Ok(None),
    }
}

/// The request of the command of a row on texts of these names.
fn request_by<'a>(
    alloc: Global,
    row: &TaskRow,
    request: &CallRequest<'_>,
    names: &'a [String],
) -> Result<Option<Request<'a>>, AllocError>
    ensures { IfOk result (λ found. option_map plain_request found
        ≡ request_by row.now request.now (map string_bytes names.now)) }
{
    let Some(options) = options_of(request, row.bound) else {
        return Ok(None);
    };
    Ok(Some(Request {
        task: row.task,
        files: paths_of(alloc, names)?,
        list: None,
        goods: Vec::from_slice(alloc, request.goods)?,
        bids: Vec::from_slice(alloc, request.bids)?,
        prices: prices_of(request.prices),
        options,
        progress: false,
        null: request.null,
        all: request.all,
        table: request.table,
        folder: None,
    }))
}

/// Names as paths.
fn paths_of<'a>(alloc: Global, names: &'a [String]) -> Result<Vec<&'a str>, AllocError>
    ensures { IfOk result (λ paths. texts_of paths.items ≡ map string_bytes names.now) }
{
    let mut paths = Vec::new(alloc);
    for name in names {
        paths.push(name.as_str())?;
    }
    Ok(paths)
}

/// What becomes of each price, if prices are rounded.
fn prices_of(prices: u8) -> Option<PriceRule>
    ensures { result ≡ prices_of prices }
{
    let fine = match prices {
        AS_WRITTEN => return None,
        ROUNDED => FinePrices::Round,
        _ => FinePrices::Refuse,
    };
    Some(PriceRule { fine, tens: 0 })
}

/// How the files are searched: by bounded searches, unless the command lets the caller choose and the caller chooses plain
/// ones. These have no limit of all together.
fn options_of(request: &CallRequest<'_>, may_choose: bool) -> Option<SearchOptions>
    ensures { result ≡ options_of request.now may_choose }
{
    match (request.bound || !may_choose, total_of(request.total)) {
        (true, total) => Some(SearchOptions::bounded(request.steps, total)),
        (false, None) => Some(SearchOptions::plain(request.steps)),
        (false, Some(_)) => None,
    }
}

/// The limit on all searches of a text together, if there is one.
fn total_of(total: u64) -> Option<u64>
    ensures { result ≡ total_of total }
{
    if total == NO_TOTAL { None } else { Some(total) }
}
