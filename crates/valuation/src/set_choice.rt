//! Which kind of sets suits the bids of a file. No clause depends on it: it costs or saves time and memory alone.

use bid_file::Bids;

/// A bundle of more goods is large: whether another is a subset of it takes long to find with a list.
const LARGE: usize = 256;

/// How many bids a file has, and how many goods are in them. No file has so many that a sum saturates.
#[derive(Drop)]
struct BidSizes {
    bids: usize,
    or_bids: usize,
    goods: usize,
    /// The goods of large bundles.
    in_large: usize,
}

impl BidSizes {
    fn of<B: Bids>(file: &B) -> BidSizes {
        let mut sizes = BidSizes {
            bids: 0,
            or_bids: 0,
            goods: 0,
            in_large: 0,
        };
        for number in 0..file.len() {
            let bid = file.at(number);
            sizes.add(bid.goods.len(), bid.dummy);
        }
        sizes
    }

    fn add(&mut self, goods: usize, dummy: Option<u32>) {
        self.bids = self.bids.saturating_add(1);
        self.goods = self.goods.saturating_add(goods);
        if dummy.is_none() {
            self.or_bids = self.or_bids.saturating_add(1);
        }
        if goods > LARGE {
            self.in_large = self.in_large.saturating_add(goods);
        }
    }

    /// Whether the bids have so few of this many goods that lists of them take less memory than words with a bit for each
    /// good, and large bundles are a few. If most bids are the OR bidder's, whose searches use sets the most and words
    /// answer faster, the goods have to be fewer still.
    fn suit_lists(&self, goods: u16) -> bool {
        let words = usize::from(goods / 64);
        let most = if self.or_bids > self.bids / 2 {
            words / 4
        } else {
            words
        };
        self.goods < self.bids.saturating_mul(most) && self.in_large <= 4 * usize::from(goods)
    }
}

/// Whether lists of their goods suit the bids of a file best.
pub fn has_sparse_bids<B: Bids>(file: &B) -> bool {
    BidSizes::of(file).suit_lists(file.goods())
}

/// Calls a function that is generic over sets of goods on the kind of sets that suits a file's bids: on lists, or on the
/// least of four sets of words that holds the file's goods: 64, 256, 1,024 or 4,096. The fewer words a set has, the less
/// memory it takes and the faster its calls are. Each kind is one more copy of the generic code to compile.
#[macro_export]
macro_rules! on_set_for {
    ($file:expr, $call:ident($($argument:expr),*)) => {
        if $crate::has_sparse_bids($file) {
            $call::<goods_set::ListSet>($($argument),*)
        } else {
            match $file.goods() {
                0..=64 => $call::<goods_set::WordSet<1>>($($argument),*),
                65..=256 => $call::<goods_set::WordSet<4>>($($argument),*),
                257..=1024 => $call::<goods_set::WordSet<16>>($($argument),*),
                _ => $call::<goods_set::WordSet<64>>($($argument),*),
            }
        }
    };
}
