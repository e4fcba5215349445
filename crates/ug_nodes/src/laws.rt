ghost use Rattle.std.specs.Prelude.{◌≡◌, ◌⊎◌, List};
ghost use Rattle.ug_rows.specs.declared.area.Interval.{Interval};
ghost use Rattle.ug_rows.specs.Boxes.{IsBelow};
ghost use Rattle.ug_nodes.specs.declared.change.Change.{Change};
ghost use Rattle.ug_nodes.specs.declared.name.Name.{Name};
ghost use Rattle.ug_nodes.specs.Changes.{IsRising, Spells, AreChangesOf, area_by};
ghost use Rattle.ug_nodes.specs.Lines.{IsAncestor};

/// Each box below the root has exactly one list of changes, and changes spell no two boxes.
pub fn one_list_for_each_box()
    ensures some { (root area : List Interval) → IsBelow area root
        → (changes : List Change) × IsRising changes × Spells root changes area }
    ensures one { (root area : List Interval) (changes other : List Change)
        → IsRising changes → IsRising other
        → Spells root changes area → Spells root other area → changes ≡ other }
    ensures back { (root area other : List Interval) (changes : List Change)
        → Spells root changes area → Spells root changes other → area ≡ other }
{}

/// Rising changes that are of boxes below the root spell the box that they make, and no other; it
/// is below the root.
pub fn one_box_for_each_list()
    ensures spelled { (root : List Interval) (changes : List Change)
        → IsRising changes → AreChangesOf root changes
        → Spells root changes (area_by root changes) }
    ensures below { (root : List Interval) (changes : List Change)
        → IsRising changes → AreChangesOf root changes → IsBelow (area_by root changes) root }
    ensures only { (root area : List Interval) (changes : List Change)
        → IsRising changes → Spells root changes area
        → AreChangesOf root changes × (area ≡ area_by root changes) }
{}

/// The ancestors of a node are in one row, each above the next, and no node is its own ancestor.
pub fn ancestors_stand_in_a_row()
    ensures along { (a b c : List Name) → IsAncestor a b → IsAncestor b c → IsAncestor a c }
    ensures not_itself { (a : List Name) → IsAncestor a a → ⊥ }
    ensures either { (a b line : List Name) → IsAncestor a line → IsAncestor b line
        → (a ≡ b) ⊎ (IsAncestor a b ⊎ IsAncestor b a) }
{}
