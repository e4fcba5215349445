//! Laws on what texts state.
//! The functions do nothing: their contracts are what is proved of the definitions.

ghost use Rattle.std.specs.Prelude.{ℕ, List, [], ◌∷◌, ◌++◌, Option, None, Some, codes};
ghost use Rattle.ug_drafts.specs.declared.fault.Kind.TheVariants.{NoEnd, Unbounded, Unknown};
ghost use Rattle.ug_drafts.specs.FirstFaults.{fault_at};
ghost use Rattle.ug_mps.specs.Examples.{knapsack, knapsack_rows, text_of, fractions_text, fractions, falling_text, falling, unknown_text};
ghost use Rattle.ug_mps.specs.Laws.{HasOneOutcome};
ghost use Rattle.ug_mps.specs.Reads.{FirstFault, Reads};

/// A file states one problem, or it has one first fault, and never both, whatever the box.
pub fn one_outcome()
    ensures { (text : List ℕ) (boxed : Option ℕ) → HasOneOutcome text boxed }
{}

/// Worked texts, by which the definitions were tried: a knapsack, the same with lines omitted,
/// fractions, a box, and two faults on one line.
pub fn worked_texts()
    ensures empty { FirstFault [] None (fault_at 0 NoEnd None) }
    ensures whole { Reads (text_of (knapsack_rows ++ codes " UP D C 10" ∷ codes "ENDATA" ∷ [])) None
        knapsack }
    ensures endless { FirstFault (text_of (knapsack_rows ++ codes " UP D C 10" ∷ [])) None
        (fault_at 23 NoEnd None) }
    ensures unbounded { FirstFault (text_of (knapsack_rows ++ codes "ENDATA" ∷ [])) None
        (fault_at 14 Unbounded (Some (codes "C"))) }
    ensures scaled { Reads fractions_text None fractions }
    ensures fallen { FirstFault falling_text None (fault_at 5 Unbounded (Some (codes "X"))) }
    ensures in_box { Reads falling_text (Some 50) falling }
    ensures unknown_first { FirstFault unknown_text None (fault_at 5 Unknown (Some (codes "Q"))) }
{}
