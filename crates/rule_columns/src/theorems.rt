//! Theorems about the results of the rules for a paragraph.
ghost use Rattle.std.specs.Prelude.{◌≡◌, List};
ghost use Rattle.units.specs.Neutral.{after_neutral};
ghost use Rattle.units.specs.Paragraphs.{SeparatorOnlyLast};
ghost use Rattle.units.specs.declared.bracket.Unit.{Unit as BidiUnit};
ghost use Rattle.units.specs.declared.class.Class.{Class};
ghost use Rattle.units.specs.declared.level.Direction.{Direction};
ghost use Rattle.rule_columns.specs.Passes.{after_n1, after_n2};
ghost use Rattle.rule_columns.specs.Resolved.{LastAreResolved};

/// Proves that N1 and then N2 give the classes that both rules together give.
pub fn neutrals_in_two_steps()
    ensures { (embedding sos eos : Class) (cs : List Class)
        → after_n2 embedding (after_n1 sos eos cs) ≡ after_neutral embedding sos eos cs }
{}

/// Proves that the levels after I1 and I2, rule by rule, are the resolved levels of the paragraph.
pub fn last_levels_are_resolved()
    ensures { (us : List BidiUnit) (direction : Direction) → SeparatorOnlyLast us
        → LastAreResolved us direction }
{}
