//! The laws of the order of values, each the contract of a function that does nothing.

ghost use Rattle.cyc_base.specs.Order.{IsPartialOrder, HasUnknownAtBottom, OrderOfLists, BitsAreTop};

/// The order of values is a partial order with X at the bottom, and so is that of lists of one length.
/// Above a Boolean value there is nothing else.
pub fn values_are_ordered()
    ensures values { IsPartialOrder }
    ensures bottom { HasUnknownAtBottom }
    ensures lists { OrderOfLists }
    ensures top { BitsAreTop }
{}
