// Laws of the schedules that words place, stated on their definitions alone.
ghost use Rattle.shop_model.specs.Placed.{AllBeginAsSoon};

/// In the table that a word places, each operation of the word begins as soon as its job is released, and the step
/// before it and the word's earlier operations on its machine have ended (semi-active schedule).
pub fn operations_begin_as_soon_as_they_can()
    ensures { AllBeginAsSoon }
{}
