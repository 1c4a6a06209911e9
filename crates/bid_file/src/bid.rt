//! `Bid` and `BidFile`: a bid file as a value.

ghost use Rattle.std.specs.Prelude.{◌≡◌};
ghost use Rattle.bid_file.specs.Files.{IsBidFile, plain_bids};
ghost use Rattle.bid_file.specs.Lemmas.FileFacts.{IsBidFile-prop};

/// One bid: a price for a bundle of goods.
#[derive(Debug, Drop)]
pub struct Bid {
    /// In millionths.
    pub price: u64,
    /// The real goods, rising.
    pub goods: Vec<u16>,
    /// The dummy good, counted from 0 behind the real goods. Of the bids that share one, one can win.
    pub dummy: Option<u32>,
}

/// A bid file: so many goods, so many dummy goods, and bids, of which the one at index i has the number i.
#[derive(Debug, Drop)]
pub struct BidFile {
    goods: u16,
    dummy: u32,
    bids: Vec<Bid>,
    pub ghost facts: { IsBidFile goods dummy (plain_bids bids.items) } by { IsBidFile-prop _ _ (plain_bids bids.items) },
}

impl BidFile {
    ghost use Rattle.bid_file.specs.Views.{plain_file};

    pub fn new(goods: u16, dummy: u32, bids: Vec<Bid>) -> BidFile
        requires { IsBidFile goods dummy (plain_bids bids.items) }
        ensures { plain_file result ≡ record { goods = goods; dummy = dummy; bids = plain_bids bids.items } }
    {
        BidFile { goods, dummy, bids }
    }

    /// How many real goods there are.
    pub fn goods(&self) -> u16
        ensures { result ≡ (plain_file self.now).goods }
    {
        self.goods
    }

    /// How many dummy goods there are.
    pub fn dummy(&self) -> u32
        ensures { result ≡ (plain_file self.now).dummy }
    {
        self.dummy
    }

    /// The bids, in order of their numbers.
    pub fn bids(&self) -> &[Bid]
        ensures { plain_bids result.now ≡ (plain_file self.now).bids }
    {
        self.bids.as_slice()
    }
}
