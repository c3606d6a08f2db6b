//! Laws of addresses, each the contract of a function.

ghost use Rattle.operands.specs.Laws.{AddressesHold, NextHolds};

/// The address rule gives an address of 20 bits, and halfwords, fullwords and PSWs stand at their multiples.
pub fn addresses_hold()
    ensures { AddressesHold }
{}

/// The next instruction stands behind all halfwords of this one.
pub fn next_holds()
    ensures { NextHolds }
{}
