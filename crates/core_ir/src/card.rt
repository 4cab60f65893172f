//! Cardinalities: how many items an expression may have.
ghost use Rattle.std.specs.Prelude.{◌≡◌, ◌↔◌, IsTrue};
ghost use Rattle.core_ir.specs.Card.{Within, CardsBound, CardsKeep, times as times_of, plus as plus_of, either as either_of, or_one as or_one_of, is_many as is_many_by, is_single as is_single_by, is_required as is_required_by};

/// The least and the most number of items, as the EdgeDB documentation's page on cardinality names them.
#[derive(Clone, Copy, Debug, PartialEq, Eq)]
pub enum Card {
    Empty,
    AtMostOne,
    One,
    AtLeastOne,
    Many,
}

impl Card {
    /// Of each item of the one an item of the other.
    pub fn times(self, other: Card) -> Card
        ensures { result ≡ times_of self other }
    {
        match (self, other) {
            (Card::Empty, _) | (_, Card::Empty) => Card::Empty,
            (Card::One, card) | (card, Card::One) => card,
            (Card::AtMostOne, Card::AtMostOne) => Card::AtMostOne,
            (Card::AtLeastOne, Card::AtLeastOne) => Card::AtLeastOne,
            _ => Card::Many,
        }
    }

    /// The items of the one and then those of the other.
    pub fn plus(self, other: Card) -> Card
        ensures { result ≡ plus_of self other }
    {
        match (self, other) {
            (Card::Empty, card) | (card, Card::Empty) => card,
            (Card::One | Card::AtLeastOne, _) | (_, Card::One | Card::AtLeastOne) => {
                Card::AtLeastOne
            }
            _ => Card::Many,
        }
    }

    /// The items of the one or those of the other.
    pub fn either(self, other: Card) -> Card
        ensures { result ≡ either_of self other }
    {
        match (self, other) {
            (Card::Empty, Card::Empty) => Card::Empty,
            (Card::One, Card::One) => Card::One,
            (Card::One | Card::AtLeastOne, Card::One | Card::AtLeastOne) => Card::AtLeastOne,
            (Card::AtLeastOne | Card::Many, _) | (_, Card::AtLeastOne | Card::Many) => Card::Many,
            _ => Card::AtMostOne,
        }
    }

    /// The items, or one empty place where there are none.
    pub fn or_one(self) -> Card
        ensures { result ≡ or_one_of self }
    {
        match self {
            Card::Empty | Card::AtMostOne | Card::One => Card::One,
            Card::AtLeastOne | Card::Many => Card::AtLeastOne,
        }
    }

    /// Whether it allows more than one item.
    pub fn is_many(self) -> bool
        ensures { result ≡ is_many_by self }
    {
        matches!(self, Card::AtLeastOne | Card::Many)
    }

    /// Whether it allows at most one item.
    pub fn is_single(self) -> bool
        ensures { result ≡ is_single_by self }
    {
        !self.is_many()
    }

    /// Whether there is always an item.
    pub fn is_required(self) -> bool
        ensures { result ≡ is_required_by self }
    {
        matches!(self, Card::One | Card::AtLeastOne)
    }

    /// Whether it allows this number of items.
    pub fn within(self, n: u64) -> bool
        ensures { IsTrue result ↔ Within self n }
    {
        match self {
            Card::Empty => n == 0,
            Card::AtMostOne => n <= 1,
            Card::One => n == 1,
            Card::AtLeastOne => n >= 1,
            Card::Many => true,
        }
    }
}

/// What is made of lists within cardinalities lies within what is made of the cardinalities.
pub fn cards_bound()
    ensures { CardsBound }
{}

/// The least and the most of what is made of cardinalities.
pub fn cards_keep()
    ensures { CardsKeep }
{}
