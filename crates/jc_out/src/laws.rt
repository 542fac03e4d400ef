//! The laws of what outputs are given, for those who write over them. The functions do nothing: their contracts are the
//! laws.

ghost use Rattle.jc_out.specs.Laws.{TextsAreJoined, HeldBytesAreGiven};

/// Texts that are added one behind another are added joined.
pub fn texts_are_joined()
    ensures { TextsAreJoined }
{}

/// An output that isn't broken was given what it holds, since its sink is as it is.
pub fn held_bytes_are_given()
    ensures { HeldBytesAreGiven }
{}
