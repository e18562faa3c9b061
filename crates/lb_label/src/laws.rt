// What holds of labels as the contracts define them, for crates above to rest on.
ghost use Rattle.lb_label.specs.Label.{PartsAreTold};

/// That two labels of one policy whose parts stand for the same elements have the same parts. It does nothing.
pub fn parts_are_told_by_their_elements()
    ensures { PartsAreTold }
{}
