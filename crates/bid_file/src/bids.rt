//! The trait `Bids`: a file to read, however its bids lie in memory.

ghost use Rattle.std.specs.Prelude.{◌≡◌, ◌<◌, ℕ, length, slice_get, Some};
ghost use Rattle.bid_file.specs.Files.{PlainBid, PlainFile, IsPlainFile};
ghost use Rattle.bid_file.specs.Views.{plain_file, seen_bid};

use crate::bid::BidFile;
use crate::packed::PackedFile;

/// A bid as it is seen in a file.
#[derive(Clone, Copy)]
pub struct BidRef<'a> {
    /// In millionths.
    pub price: u64,
    /// The real goods, rising.
    pub goods: &'a [u16],
    /// The dummy good, counted from 0 behind the real goods.
    pub dummy: Option<u32>,
}

/// The bids of a file by number, with its numbers of goods and dummy goods.
pub trait Bids {
    ghost file: { Self → PlainFile };

    /// How many real goods there are.
    fn goods(&self) -> u16
        ensures value { result ≡ (file self.now).goods }
        ensures file { IsPlainFile (file self.now) };

    /// How many dummy goods there are.
    fn dummy(&self) -> u32
        ensures { result ≡ (file self.now).dummy };

    /// How many bids there are.
    fn len(&self) -> usize
        ensures { result ≡ length (file self.now).bids };

    /// The bid of this number.
    fn at(&self, number: usize) -> BidRef<'_>
        requires { number < length (file self.now).bids }
        ensures { slice_get (file self.now).bids number ≡ Some (seen_bid result) };
}

impl Bids for PackedFile {
    ghost file = { λ f. f };

    fn goods(&self) -> u16 {
        PackedFile::goods(self)
    }

    fn dummy(&self) -> u32 {
        PackedFile::dummy(self)
    }

    #[inline(always)]
    fn len(&self) -> usize {
        self.bids().len()
    }

    #[inline(always)]
    fn at(&self, number: usize) -> BidRef<'_> {
        let (price, goods, dummy) = self.bids().at(number);
        BidRef {
            price,
            goods,
            dummy,
        }
    }
}

impl Bids for BidFile {
    ghost file = { plain_file };

    fn goods(&self) -> u16 {
        BidFile::goods(self)
    }

    fn dummy(&self) -> u32 {
        BidFile::dummy(self)
    }

    fn len(&self) -> usize {
        self.bids().len()
    }

    fn at(&self, number: usize) -> BidRef<'_> {
        let bid = &self.bids()[number];
        BidRef {
            price: bid.price,
            goods: bid.goods.as_slice(),
            dummy: bid.dummy,
        }
    }
}
