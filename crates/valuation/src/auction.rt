//! `Auction`, whose type keeps its limits.
ghost use Rattle.valuation.specs.Auctions.{IsAuction};
ghost use Rattle.valuation.specs.Lemmas.Limits.{IsAuction-prop};
ghost use Rattle.valuation.specs.Bidders.{plain_auction_of};

use crate::atom::Atom;
use goods_set::GoodsSet;

/// An auction: so many goods, the atoms of the OR bidder, and the atoms of each XOR bidder.
#[derive(Debug, Drop)]
pub struct Auction<S: GoodsSet> {
    goods: u16,
    or_atoms: Vec<Atom<S>>,
    xor_bidders: Vec<Vec<Atom<S>>>,
    pub ghost facts: { IsAuction S.CAP
        (plain_auction_of S.goods goods or_atoms.items xor_bidders.items) } by { IsAuction-prop S.CAP
            (plain_auction_of S.goods goods or_atoms.items xor_bidders.items) },
}

impl<S: GoodsSet> Auction<S> {
    ghost use Rattle.std.specs.Prelude.{◌≡◌};
    ghost use Rattle.valuation.specs.Auctions.{IsAuction};
    ghost use Rattle.valuation.specs.Views.{plain_auction};
    ghost use Rattle.valuation.specs.Bidders.{plain_auction_of, bidders_of};
    ghost use Rattle.valuation.specs.Values.{atoms_of};

    /// The auction of these parts.
    pub fn new(goods: u16, or_atoms: Vec<Atom<S>>, xor_bidders: Vec<Vec<Atom<S>>>) -> Auction<S>
        requires { IsAuction S.CAP (plain_auction_of S.goods goods or_atoms.items xor_bidders.items) }
        ensures { plain_auction result ≡ plain_auction_of S.goods goods or_atoms.items xor_bidders.items }
    {
        Auction {
            goods,
            or_atoms,
            xor_bidders,
        }
    }

    /// How many goods there are.
    pub fn goods(&self) -> u16
        ensures { result ≡ (plain_auction self.now).goods }
    {
        self.goods
    }

    /// The atoms of the OR bidder.
    pub fn or_atoms(&self) -> &[Atom<S>]
        ensures { atoms_of S.goods result.now ≡ (plain_auction self.now).or_atoms }
    {
        self.or_atoms.as_slice()
    }

    /// The atoms of each XOR bidder.
    pub fn xor_bidders(&self) -> &[Vec<Atom<S>>]
        ensures { bidders_of S.goods result.now ≡ (plain_auction self.now).xor_bidders }
    {
        self.xor_bidders.as_slice()
    }

    /// The parts, without a copy of them.
    pub fn into_parts(self) -> (u16, Vec<Atom<S>>, Vec<Vec<Atom<S>>>)
        ensures { plain_auction self ≡ plain_auction_of S.goods result.0 result.1.items result.2.items }
    {
        let Auction {
            goods,
            or_atoms,
            xor_bidders,
        } = self;
        (goods, or_atoms, xor_bidders)
    }
}
