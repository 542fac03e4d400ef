//! The law of the definitions, for `order_of` and jc_program. The function does nothing: its contract is the law.

ghost use Rattle.jc_cli.specs.Laws.{FaultlessAreOrders};

/// Arguments without a fault are a command.
pub fn faultless_words_are_orders()
    ensures { FaultlessAreOrders }
{}
