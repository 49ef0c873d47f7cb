//! A flat paragraph resolves by few of its units.
ghost use Rattle.std.specs.Prelude.{ℕ, List};
ghost use Rattle.units.specs.Classes.{classes_of};
ghost use Rattle.units.specs.Limits.{LimitsOf};
ghost use Rattle.units.specs.declared.bracket.Unit.{Unit as BidiUnit};
ghost use Rattle.explicit.specs.Flat.{IsFlat};
ghost use Rattle.compress.specs.Paragraph.{ResolvesByFew};

/// The resolved levels of a paragraph without initiators are those of few of its units, each as often as it counts, and
/// none where X9 removes a unit. One pass from left to right chooses these units. So it is by all limits.
pub fn few_units_suffice()
    ensures { (limits : LimitsOf) (us : List BidiUnit) (para_level : ℕ) → IsFlat (classes_of us)
        → ResolvesByFew limits us para_level }
{}
